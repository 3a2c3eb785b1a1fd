//! The statuses of the protocol.
ghost use Rattle.std.specs.Prelude.{◌≡◌, map, option_map, slice_get};
ghost use Rattle.protocol.specs.Tables.{status_at, status_row};

macro_rules! rows {
    ($($number:literal $name:literal $advice:literal;)*) => {
        &[$(Status { number: $number, name: $name, advice: $advice }),*]
    };
}

/// A status of the protocol.
#[derive(Clone, Copy)]
pub struct Status {
    /// The byte of a reply that has it.
    pub number: u8,
    /// Its name.
    pub name: &'static str,
    /// A sentence for people: what it says, and what to do about it.
    pub advice: &'static str,
}

/// The statuses, in the order of their numbers from 0 on. No reply has 19.
pub const STATUSES: &[Status] = rows![
    0 "Ok" "";
    1 "Short" "server and client disagree about the protocol: use the same version of both";
    2 "NoTenant" "the server has no tenant with the key in ";
    3 "BadCommand" "the server is older than this client";
    4 "BadFields" "server and client disagree about names: use the same version of both";
    5 "TooLong" "a text has at most 4194304 bytes";
    6 "NotUtf8" "the text is not UTF-8";
    7 "NotJson" "the text is not JSON (RFC 8259)";
    8 "TooDeep" "a text has at most 256 levels of arrays and objects";
    9 "NumberLimit" "a number has at most 256 bytes, and an exponent up to 999999999";
    10 "LoneSurrogate" "an escape has half of a surrogate pair alone";
    11 "DuplicateName" "an object has the same name twice";
    12 "TooManyCollections" "a tenant has at most 16 collections: drop one";
    13 "TooManyDocuments" "a tenant has at most 1000 documents: remove some";
    14 "TooManyBytes" "a tenant's texts have at most 16777216 bytes together: remove some";
    15 "NotFound" "there is no such document or collection";
    16 "QueryTooLong" "a query has at most 4096 bytes";
    17 "NotWellFormed" "the query is not well-formed (RFC 9535, section 2.1)";
    18 "NotValid" "the query is not valid (RFC 9535, section 2.1)";
    19 "Retired" "";
    20 "ReplyTooLarge" "the reply would have more than 8388608 bytes: ask for fewer hits";
    21 "NoMemory" "the server ran out of memory and changed nothing: try again";
    22 "Costly" "the query costs more than 10000000 units: ask for less";
    23 "Exists" "the document exists: put replaces it";
];

/// The status with this number, if the protocol has it.
pub fn status_at(number: usize) -> Option<Status>
    ensures { option_map status_row result ≡ status_at number }
{
    row(STATUSES, number)
}

fn row(statuses: &[Status], number: usize) -> Option<Status>
    ensures { option_map status_row result ≡ slice_get (map status_row statuses.now) number }
{
    statuses.get(number).copied()
}
