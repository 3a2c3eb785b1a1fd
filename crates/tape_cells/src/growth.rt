// Lists that grow out of line.

ghost use Rattle.std.specs.Prelude.{◌≡◌, ◌++◌, ◌∷◌, [], if◌then◌else◌};
ghost use Rattle.std.specs.Result.{is_ok};

use std::alloc::AllocError;

/// One item more. Only where the list has no room left does this take a call.
#[inline(always)]
pub fn push<T: Copy>(list: &mut Vec<T>, item: T) -> Result<(), AllocError>
    ensures items { list.new.items ≡ if is_ok result then list.old.items ++ item ∷ [] else list.old.items }
{
    if list.len() == list.capacity() {
        list.reserve(1)?;
    }
    list.push_reserved(item);
    Ok(())
}
