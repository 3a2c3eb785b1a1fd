//! Why a tenant refuses a call.
ghost use Rattle.std.specs.Prelude.{◌≡◌};
ghost use Rattle.tenant_map.specs.Statuses.{status_of};
ghost use Rattle.tenant_map.specs.Answers.{of_text};
ghost use Rattle.tenant_map.specs.declared.faults.StoreFault.TheVariants.{NoMemory};

use json_tape::TextFault;
use std::alloc::{AllocError, AllocFailed};

/// Why a tenant refuses a call. Each fault is numbered as the status of its reply.
#[derive(Clone, Copy, Debug, Drop, PartialEq, Eq)]
pub enum StoreFault {
    /// The text is longer than its limit.
    TooLong = 5,
    /// The text is not UTF-8.
    NotUtf8 = 6,
    /// The text is not JSON (RFC 8259, section 2).
    NotJson = 7,
    /// The text is nested more deeply than its limit.
    TooDeep = 8,
    /// A number of the text is longer, or its exponent larger, than the limit.
    NumberLimit = 9,
    /// A string of the text has one half of a surrogate pair (RFC 8259, section 8.2).
    LoneSurrogate = 10,
    /// Two names of one object are equal (RFC 8259, section 4).
    DuplicateName = 11,
    /// The tenant would have more collections than its quota.
    TooManyCollections = 12,
    /// The tenant would have more documents than its quota.
    TooManyDocuments = 13,
    /// The tenant's texts would have more bytes than its quota.
    TooManyBytes = 14,
    /// The collection or the document is not there.
    NotFound = 15,
    /// The reply's body would be longer than its limit.
    ReplyTooLarge = 20,
    /// An allocation failed.
    NoMemory = 21,
    /// The charge of the query on the documents up to some one is above the budget.
    Costly = 22,
    /// The document is there.
    Exists = 23,
}

impl StoreFault {
    /// The status byte of the reply for this fault.
    pub fn status(self) -> u8
        ensures { result ≡ status_of self }
    {
        self as u8
    }
}

impl From<TextFault> for StoreFault {
    ghost from_gives = { λ fault made. made ≡ of_text fault };

    fn from(fault: TextFault) -> StoreFault {
        match fault {
            TextFault::TooLong => StoreFault::TooLong,
            TextFault::NotUtf8 => StoreFault::NotUtf8,
            TextFault::NotJson => StoreFault::NotJson,
            TextFault::TooDeep => StoreFault::TooDeep,
            TextFault::NumberLimit => StoreFault::NumberLimit,
            TextFault::LoneSurrogate => StoreFault::LoneSurrogate,
            TextFault::DuplicateName => StoreFault::DuplicateName,
            TextFault::Memory => StoreFault::NoMemory,
        }
    }
}

impl From<AllocError> for StoreFault {
    ghost from_gives = { λ _ made. made ≡ NoMemory };

    fn from(_: AllocError) -> StoreFault {
        StoreFault::NoMemory
    }
}

impl<T: Drop> From<AllocFailed<T>> for StoreFault {
    ghost from_gives = { λ _ made. made ≡ NoMemory };

    fn from(_: AllocFailed<T>) -> StoreFault {
        StoreFault::NoMemory
    }
}
