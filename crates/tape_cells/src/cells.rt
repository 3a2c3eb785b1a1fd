// A value in 16 bytes: four words, each a number below 2^24 under a byte.

ghost use Rattle.std.specs.Prelude.{◌≡◌, ◌<◌, ◌^◌};
ghost use Rattle.tape_cells.specs.Cells.{low as low_of, high as high_of, kind_coded as coded, role_coded as role_of_code, holds as is_container, is_object as is_object_kind, IsNear, cell_kind, cell_role, cell_label, cell_start, cell_span, cell_up};

use json_text::{Extent, Kind, Role, Seat};

// The first kind code of values that hold others: one bit tells them.
const CONTAINER: u32 = 8;

// No place, length, index or number of a tape reaches this.
const WORD_LIMIT: u32 = 16_777_216;

/// One value. The bytes over the four numbers hold its kind and its role, and the length of its name.
#[derive(Clone, Copy)]
pub struct Cell {
    pub start: u32,
    // a leaf's length, or the number of a container's side
    pub span: u32,
    pub label: u32,
    pub up: u32,
}

const _: () = prove!(size_of::<Cell>() <= 16);

/// What a cell has no room for, of a container.
#[derive(Clone, Copy)]
pub struct Side {
    pub end: u32,
    pub children: u32,
    pub after: u32,
}

const _: () = prove!(size_of::<Side>() <= 12);

#[inline(always)]
#[tactic(auto, using(crate::proofs::Joined::low_joined, crate::proofs::Joined::high_joined))]
fn join(low: u32, high: u32) -> u32
    requires low { low < 2 ^ 24 }
    requires high { high < 256 }
    ensures low { low_of result ≡ low }
    ensures high { high_of result ≡ high }
{
    high * WORD_LIMIT + low
}

#[inline(always)]
#[tactic(auto, using(crate::proofs::Joined::low_small), unfolding(crate::specs::Cells::low))]
fn low(word: u32) -> u32
    ensures value { result ≡ low_of word }
    ensures small { result < 2 ^ 24 }
{
    word % WORD_LIMIT
}

#[inline(always)]
#[tactic(auto, using(crate::proofs::Joined::high_small), unfolding(crate::specs::Cells::high))]
fn high(word: u32) -> u32
    ensures value { result ≡ high_of word }
    ensures small { result < 256 }
{
    word / WORD_LIMIT
}

#[inline(always)]
fn kind_code(kind: Kind) -> u32
    ensures value { coded result ≡ kind }
    ensures small { result < 16 }
{
    match kind {
        Kind::Null => 0,
        Kind::Bool(false) => 1,
        Kind::Bool(true) => 2,
        Kind::Number => 3,
        Kind::Text => 4,
        Kind::Array => CONTAINER,
        Kind::Object => CONTAINER + 1,
    }
}

#[inline(always)]
fn kind_coded(code: u32) -> Kind
    ensures { result ≡ coded code }
{
    if code >= CONTAINER {
        return if code == CONTAINER {
            Kind::Array
        } else {
            Kind::Object
        };
    }
    match code {
        0 => Kind::Null,
        1 => Kind::Bool(false),
        2 => Kind::Bool(true),
        3 => Kind::Number,
        _ => Kind::Text,
    }
}

#[inline(always)]
fn role_code(role: Role) -> u32
    ensures value { role_of_code result ≡ role }
    ensures small { result < 3 }
{
    match role {
        Role::Whole => 0,
        Role::Element => 1,
        Role::Member => 2,
    }
}

#[inline(always)]
fn role_coded(code: u32) -> Role
    ensures { result ≡ role_of_code code }
{
    match code {
        0 => Role::Whole,
        1 => Role::Element,
        _ => Role::Member,
    }
}

impl Cell {
    /// A value of this kind that lies so and begins here, with the length of a leaf or the number of a side.
    #[inline(always)]
    pub fn new(kind: Kind, seat: Seat, start: u32, span: u32) -> Cell
        requires seat { IsNear seat }
        requires start { start < 2 ^ 24 }
        requires span { span < 2 ^ 24 }
        ensures kind { cell_kind result ≡ kind }
        ensures role { cell_role result ≡ seat.role }
        ensures label { cell_label result ≡ seat.label }
        ensures start { cell_start result ≡ start }
        ensures span { cell_span result ≡ span }
        ensures up { cell_up result ≡ seat.up }
    {
        let name = seat.label.len;
        Cell {
            start: join(start, role_code(seat.role) * 16 + kind_code(kind)),
            span: join(span, name % 256),
            label: join(seat.label.start, name / 256 % 256),
            up: join(seat.up, name / 65_536),
        }
    }

    #[inline(always)]
    pub fn kind(self) -> Kind
        ensures { result ≡ cell_kind self }
    {
        kind_coded(high(self.start) % 16)
    }

    #[inline(always)]
    pub fn role(self) -> Role
        ensures { result ≡ cell_role self }
    {
        role_coded(high(self.start) / 16)
    }

    /// A member's name, or a start that is an element's index.
    #[inline(always)]
    pub fn label(self) -> Extent
        ensures { result ≡ cell_label self }
    {
        Extent {
            start: low(self.label),
            len: high(self.up) * 65_536 + high(self.label) * 256 + high(self.span),
        }
    }

    #[inline(always)]
    pub fn start(self) -> u32
        ensures { result ≡ cell_start self }
    {
        low(self.start)
    }

    #[inline(always)]
    pub fn span(self) -> u32
        ensures { result ≡ cell_span self }
    {
        low(self.span)
    }

    #[inline(always)]
    pub fn up(self) -> u32
        ensures { result ≡ cell_up self }
    {
        low(self.up)
    }

    /// Whether it is an array or an object, which has a side.
    #[inline(always)]
    #[tactic(auto, unfolding(crate::specs::Cells::holds))]
    pub fn holds(self) -> bool
        ensures { result ≡ is_container self }
    {
        high(self.start) % 16 >= CONTAINER
    }

    #[inline(always)]
    pub fn is_object(self) -> bool
        ensures { result ≡ is_object_kind (cell_kind self) }
    {
        high(self.start) % 16 > CONTAINER
    }
}
