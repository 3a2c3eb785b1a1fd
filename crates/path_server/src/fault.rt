//! Why a query on a text is refused.

ghost use Rattle.path_server.specs.Faults.{of_query, of_select, of_text};
ghost use Rattle.path_server.specs.declared.fault.QueryTextFault.TheVariants.{Memory};
ghost use Rattle.std.specs.Prelude.{◌≡◌};

use json_tape::TextFault;
use path_types::QueryFault;
use std::alloc::AllocError;
use tape_select::SelectFault;
use thiserror::Error;

/// Why a query on a text is refused, in the order in which it is found: the text's verdict, the query's, the evaluation's.
#[derive(Clone, Copy, Debug, PartialEq, Eq, Error)]
pub enum QueryTextFault {
    /// The text has more bytes than [`json_tape::TEXT_LIMIT`].
    #[error("TooLong")]
    TooLong,
    /// The text is not UTF-8.
    #[error("NotUtf8")]
    NotUtf8,
    /// The text is not JSON (RFC 8259).
    #[error("NotJson")]
    NotJson,
    /// Containers lie more than [`json_tape::DEPTH_LIMIT`] deep.
    #[error("TooDeep")]
    TooDeep,
    /// A number has more than 256 bytes, or an exponent of absolute value above 999,999,999.
    #[error("NumberLimit")]
    NumberLimit,
    /// A string or a name has a surrogate escape that is not part of a pair.
    #[error("LoneSurrogate")]
    LoneSurrogate,
    /// Two names of one object mean the same.
    #[error("DuplicateName")]
    DuplicateName,
    /// The query has more bytes than [`path_grammar::QUERY_LIMIT`].
    #[error("QueryTooLong")]
    QueryTooLong,
    /// The query does not match the grammar (RFC 9535, section 2.1.1).
    #[error("NotWellFormed")]
    NotWellFormed,
    /// The query is not valid (RFC 9535, section 2.1).
    #[error("NotValid")]
    NotValid,
    /// The charge of the query is above [`tape_select::BUDGET`].
    #[error("Costly")]
    Costly,
    /// An allocation failed.
    #[error("NoMemory")]
    Memory,
}

impl From<TextFault> for QueryTextFault {
    ghost from_gives = { λ fault made. made ≡ of_text fault };

    fn from(fault: TextFault) -> QueryTextFault {
        match fault {
            TextFault::TooLong => QueryTextFault::TooLong,
            TextFault::NotUtf8 => QueryTextFault::NotUtf8,
            TextFault::NotJson => QueryTextFault::NotJson,
            TextFault::TooDeep => QueryTextFault::TooDeep,
            TextFault::NumberLimit => QueryTextFault::NumberLimit,
            TextFault::LoneSurrogate => QueryTextFault::LoneSurrogate,
            TextFault::DuplicateName => QueryTextFault::DuplicateName,
            TextFault::Memory => QueryTextFault::Memory,
        }
    }
}

impl From<QueryFault> for QueryTextFault {
    ghost from_gives = { λ fault made. made ≡ of_query fault };

    fn from(fault: QueryFault) -> QueryTextFault {
        match fault {
            QueryFault::QueryTooLong => QueryTextFault::QueryTooLong,
            QueryFault::NotWellFormed => QueryTextFault::NotWellFormed,
            QueryFault::NotValid => QueryTextFault::NotValid,
            QueryFault::Memory => QueryTextFault::Memory,
        }
    }
}

impl From<SelectFault> for QueryTextFault {
    ghost from_gives = { λ fault made. made ≡ of_select fault };

    fn from(fault: SelectFault) -> QueryTextFault {
        match fault {
            SelectFault::Costly => QueryTextFault::Costly,
            SelectFault::Memory => QueryTextFault::Memory,
        }
    }
}

impl From<AllocError> for QueryTextFault {
    ghost from_gives = { λ _ made. made ≡ Memory };

    fn from(_: AllocError) -> QueryTextFault {
        QueryTextFault::Memory
    }
}
