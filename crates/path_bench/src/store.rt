//! A tenant's commands on a collection of equal documents.

use crate::queries::{Counted, REFUSED};
use path_types::compile;
use std::alloc::Global;
use tenant_store::{CollName, DocName, Queries, Tenant};

fn names(alloc: Global, documents: usize) -> Option<Vec<String>> {
    let Ok(mut names) = Vec::with_capacity(alloc, documents) else {
        return None;
    };
    for i in 0..documents {
        let Ok(name) = format!(in alloc; "d{i}") else {
            return None;
        };
        if names.push(name).is_err() {
            return None;
        }
    }
    Some(names)
}

// Puts the text under each name. Whether all were accepted.
fn fill(
    tenant: &mut Tenant,
    alloc: Global,
    collection: CollName<'_>,
    names: &[String],
    text: &[u8],
) -> bool {
    for name in names {
        let Some(document) = DocName::read(name.as_bytes()) else {
            return false;
        };
        if tenant.put(alloc, collection, document, text, None).is_err() {
            return false;
        }
    }
    true
}

/// Puts so many documents, so many times: the first time they are new, and then they replace one another.
#[unsafe(no_mangle)]
pub extern "C" fn path_bench_store_put(
    alloc: Global,
    text: &[u8],
    documents: usize,
    rounds: usize,
) -> Counted {
    let (Some(names), Some(collection)) = (names(alloc, documents), CollName::read(b"c")) else {
        return REFUSED;
    };
    let mut tenant = Tenant::new(alloc);
    for _ in 0..rounds {
        if !fill(&mut tenant, alloc, collection, names.as_slice(), text) {
            return REFUSED;
        }
    }
    Counted {
        count: u64::from(tenant.usage().documents),
        refused: false,
    }
}

/// Puts so many documents and drops their collection, so many times.
#[unsafe(no_mangle)]
pub extern "C" fn path_bench_store_drop(
    alloc: Global,
    text: &[u8],
    documents: usize,
    rounds: usize,
) -> Counted {
    let (Some(names), Some(collection)) = (names(alloc, documents), CollName::read(b"c")) else {
        return REFUSED;
    };
    let mut tenant = Tenant::new(alloc);
    for _ in 0..rounds {
        if !fill(&mut tenant, alloc, collection, names.as_slice(), text) {
            return REFUSED;
        }
        if tenant.drop_collection(collection).is_err() {
            return REFUSED;
        }
    }
    Counted {
        count: u64::from(tenant.usage().documents),
        refused: false,
    }
}

/// Puts so many documents and gets each of them so many times.
#[unsafe(no_mangle)]
pub extern "C" fn path_bench_store_get(
    alloc: Global,
    text: &[u8],
    documents: usize,
    rounds: usize,
) -> Counted {
    let (Some(names), Some(collection)) = (names(alloc, documents), CollName::read(b"c")) else {
        return REFUSED;
    };
    let mut tenant = Tenant::new(alloc);
    if !fill(&mut tenant, alloc, collection, names.as_slice(), text) {
        return REFUSED;
    }
    let mut count: u64 = 0;
    for _ in 0..rounds {
        for name in &names {
            let Some(document) = DocName::read(name.as_bytes()) else {
                return REFUSED;
            };
            if let Ok(text) = tenant.get(collection, document) {
                count = count.wrapping_add(text.len() as u64);
            }
        }
    }
    Counted {
        count,
        refused: false,
    }
}

/// Puts so many documents and lists them so many times, into one vector.
#[unsafe(no_mangle)]
pub extern "C" fn path_bench_store_list(
    alloc: Global,
    text: &[u8],
    documents: usize,
    rounds: usize,
) -> Counted {
    let (Some(names), Some(collection)) = (names(alloc, documents), CollName::read(b"c")) else {
        return REFUSED;
    };
    let mut tenant = Tenant::new(alloc);
    if !fill(&mut tenant, alloc, collection, names.as_slice(), text) {
        return REFUSED;
    }
    let mut payload = Vec::new(alloc);
    for _ in 0..rounds {
        payload.clear();
        if tenant.list(collection, &mut payload).is_err() {
            return REFUSED;
        }
    }
    Counted {
        count: payload.len() as u64,
        refused: false,
    }
}

/// Puts so many documents and queries them so many times, into one vector.
#[unsafe(no_mangle)]
pub extern "C" fn path_bench_store_query(
    alloc: Global,
    text: &[u8],
    query: &[u8],
    documents: usize,
    rounds: usize,
) -> Counted {
    let (Some(names), Some(collection)) = (names(alloc, documents), CollName::read(b"c")) else {
        return REFUSED;
    };
    let Ok(query) = compile(alloc, query) else {
        return REFUSED;
    };
    let mut tenant = Tenant::new(alloc);
    if !fill(&mut tenant, alloc, collection, names.as_slice(), text) {
        return REFUSED;
    }
    let mut payload = Vec::new(alloc);
    for _ in 0..rounds {
        payload.clear();
        if tenant
            .query(alloc, &query, collection, &mut payload)
            .is_err()
        {
            return REFUSED;
        }
    }
    Counted {
        count: payload.len() as u64,
        refused: false,
    }
}
