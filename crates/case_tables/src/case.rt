//! The cases of a table.

/// A case: what is asked, and the answer that is wanted.
#[derive(Drop)]
pub enum Case<'a> {
    /// The verdict on a JSON text, or `accepted`.
    Text {
        wanted: &'a [u8],
        text: &'a [u8],
    },
    /// The number of elements, members or characters of a text's value, or `none`.
    Length {
        wanted: &'a [u8],
        text: &'a [u8],
    },
    /// Whether a query is well-formed: `well-formed`, or the refusal.
    Grammar {
        wanted: &'a [u8],
        query: &'a [u8],
    },
    /// The verdict on a query of a text that is accepted, or `accepted`.
    Query {
        wanted: &'a [u8],
        query: &'a [u8],
    },
    /// The refusal of a query on a text.
    Refused {
        wanted: &'a [u8],
        query: &'a [u8],
        text: &'a [u8],
    },
    /// The number of hits of a query on a text.
    Count {
        wanted: &'a [u8],
        query: &'a [u8],
        text: &'a [u8],
    },
    /// What a query on a text is charged, or the name of what refuses it.
    Charge {
        wanted: &'a [u8],
        query: &'a [u8],
        text: &'a [u8],
    },
    /// The paths and values of the hits of a query on a text.
    Hits {
        query: &'a [u8],
        text: &'a [u8],
        hits: &'a [Vec<u8>],
    },
    /// An expression that holds, or does not, at each child of a text's value.
    Filter {
        holds: bool,
        expression: &'a [u8],
        text: &'a [u8],
    },
    /// `within` or `beyond` the limits of a number, or `none`.
    Number {
        wanted: &'a [u8],
        text: &'a [u8],
    },
    /// `less` or `equal`: how two numbers compare.
    Numbers {
        wanted: &'a [u8],
        left: &'a [u8],
        right: &'a [u8],
    },
    /// Numbers of one value, which is above those of all such lines before.
    Ascending {
        numbers: &'a [Vec<u8>],
    },
    /// `less`, `equal` or `neither`: how two JSON values compare.
    Values {
        wanted: &'a [u8],
        left: &'a [u8],
        right: &'a [u8],
    },
}

/// The case that the fields of a line spell, or none.
pub fn read_case(fields: &[Vec<u8>]) -> Option<Case<'_>> {
    let (kind, rest) = fields.split_first()?;
    match kind.as_slice() {
        b"hits" => read_hits(rest),
        b"ascending" => Some(Case::Ascending { numbers: rest }),
        _ => match rest {
            [first, second] => read_pair(kind.as_slice(), first.as_slice(), second.as_slice()),
            [wanted, first, second] => read_triple(
                kind.as_slice(),
                wanted.as_slice(),
                first.as_slice(),
                second.as_slice(),
            ),
            _ => None,
        },
    }
}

// Behind the query and the text, a path and a value for each hit.
fn read_hits(fields: &[Vec<u8>]) -> Option<Case<'_>> {
    let (query, rest) = fields.split_first()?;
    let (text, hits) = rest.split_first()?;
    if hits.len() % 2 == 1 {
        return None;
    }
    Some(Case::Hits {
        query: query.as_slice(),
        text: text.as_slice(),
        hits,
    })
}

fn read_pair<'a>(kind: &[u8], first: &'a [u8], second: &'a [u8]) -> Option<Case<'a>> {
    match kind {
        b"text" => Some(Case::Text {
            wanted: first,
            text: second,
        }),
        b"length" => Some(Case::Length {
            wanted: first,
            text: second,
        }),
        b"grammar" => Some(Case::Grammar {
            wanted: first,
            query: second,
        }),
        b"query" => Some(Case::Query {
            wanted: first,
            query: second,
        }),
        b"holds" => Some(Case::Filter {
            holds: true,
            expression: first,
            text: second,
        }),
        b"fails" => Some(Case::Filter {
            holds: false,
            expression: first,
            text: second,
        }),
        b"number" => Some(Case::Number {
            wanted: first,
            text: second,
        }),
        _ => None,
    }
}

fn read_triple<'a>(
    kind: &[u8],
    wanted: &'a [u8],
    first: &'a [u8],
    second: &'a [u8],
) -> Option<Case<'a>> {
    match kind {
        b"refused" => Some(Case::Refused {
            wanted,
            query: first,
            text: second,
        }),
        b"count" => Some(Case::Count {
            wanted,
            query: first,
            text: second,
        }),
        b"charge" => Some(Case::Charge {
            wanted,
            query: first,
            text: second,
        }),
        b"numbers" => Some(Case::Numbers {
            wanted,
            left: first,
            right: second,
        }),
        b"values" => Some(Case::Values {
            wanted,
            left: first,
            right: second,
        }),
        _ => None,
    }
}
