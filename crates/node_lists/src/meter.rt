//! The units that are left.

ghost use Rattle.std.specs.Prelude.{◌*◌};
ghost use Rattle.node_lists.specs.Paying.{Pays};

use crate::fault::SelectFault;

/// The units that are left.
#[derive(Drop)]
pub struct Meter {
    pub left: u64,
}

impl Meter {
    /// Takes units off, or refuses.
    pub fn spend(&mut self, units: u64) -> Result<(), SelectFault>
        ensures { Pays result units self.old.left self.new.left }
    {
        if self.left < units {
            return Err(SelectFault::Costly);
        }
        self.left -= units;
        Ok(())
    }

    /// Takes so many times so many units off, or refuses.
    pub fn spend_each(&mut self, times: u64, units: u64) -> Result<(), SelectFault>
        ensures { Pays result (times * units) self.old.left self.new.left }
    {
        let left = self.left;
        match times.checked_mul(units) {
            None => Err(SelectFault::Costly),
            Some(all) => {
                if left < all {
                    return Err(SelectFault::Costly);
                }
                self.left = left - all;
                Ok(())
            }
        }
    }
}
