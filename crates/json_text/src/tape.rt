//! The tape of a text: one entry for each value, depth first (Langdale and Lemire, "Parsing Gigabytes of JSON per Second").

use thiserror::Error;

/// The kind of a value.
#[derive(Clone, Copy, Debug, PartialEq, Eq)]
pub enum Kind {
    Null,
    Bool(bool),
    Number,
    Text,
    Array,
    Object,
}

/// Where a run of bytes stands in the text.
#[derive(Clone, Copy)]
pub struct Extent {
    pub start: u32,
    pub len: u32,
}

/// How a value lies in the one around it.
#[derive(Clone, Copy)]
pub enum Role {
    Whole,
    Element,
    Member,
}

/// One value of the text.
#[derive(Clone, Copy)]
pub struct Entry {
    pub kind: Kind,
    pub role: Role,
    // a member's name, or a start that is an element's index
    pub label: Extent,
    pub source: Extent,
    pub up: u32,
    pub children: u32,
    pub after: u32,
}

/// How a value lies: its role and its label in the one around it, and the number of that one.
#[derive(Clone, Copy)]
pub struct Seat {
    pub role: Role,
    pub label: Extent,
    pub up: u32,
}

/// The number of a value in its document: the root has 0, and the others follow depth first, in document order.
#[derive(Clone, Copy, Debug, Default, PartialEq, Eq)]
pub struct NodeId(pub u32);

/// The step that leads to a value from its parent.
#[derive(Clone, Copy, Debug, PartialEq, Eq)]
pub enum Lead {
    /// None: it is the value of the whole text.
    Root,
    /// The index of an element, counted from 0.
    Index(u32),
    /// The name of a member, which `Document::name_scalars` returns.
    Name,
}

/// Why a text has no tape.
#[derive(Clone, Copy)]
pub enum BuildFault {
    NotJson,
    Memory,
}

/// The two containers.
#[derive(Clone, Copy)]
pub enum Shape {
    Array,
    Object,
}

/// What the next value lies in.
#[derive(Clone, Copy)]
pub enum Level {
    Root,
    Inside(Shape),
}

/// What may come next.
#[derive(Clone, Copy)]
pub enum Want {
    Value,
    FirstValue,
    Name,
    FirstName,
    Colon,
    Next,
}

/// A container that is not closed yet.
#[derive(Clone, Copy)]
pub struct Open {
    pub level: Level,
    pub entry: u32,
    pub children: u32,
}

/// Why a text is refused: the first that applies in this order, wherever in the text it is.
#[derive(Clone, Copy, Debug, PartialEq, Eq, Error)]
pub enum TextFault {
    #[error("the text is longer than the limit")]
    TooLong,
    #[error("the text is not UTF-8")]
    NotUtf8,
    #[error("the text is not JSON")]
    NotJson,
    #[error("arrays and objects lie deeper in one another than the limit")]
    TooDeep,
    #[error("a number has more than 256 bytes, or an exponent above 999999999")]
    NumberLimit,
    #[error("a string or a name has a surrogate without its partner")]
    LoneSurrogate,
    #[error("an object has two members of one name")]
    DuplicateName,
    #[error("no memory is left")]
    Memory,
}
