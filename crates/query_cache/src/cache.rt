//! An LRU cache of compiled queries.
ghost use Rattle.std.specs.Prelude.{◌≡◌, ◌≤◌, [], IfOk, IfErr, OnErr, IsTrue, None, is_none, is_some, false};
ghost use Rattle.std.specs.Borrow.{sem};
ghost use Rattle.std.specs.Map.{lookup};
ghost use Rattle.lru.specs.LruCache.{lru_cache, promoted};
ghost use Rattle.path_grammar.specs.View.{query_view};
ghost use Rattle.path_types.specs.Verdict.{IsValidQuery, RefusesQueryText};
ghost use Rattle.query_cache.specs.Texts.{is_held, Admits, IsWithin};
ghost use Rattle.query_cache.specs.Kept.{is_text, Keeps};

use crate::compiled::Compiled;
use lru::LruCache;
use path_grammar::QUERY_LIMIT;
use path_types::{QueryFault, ValidQuery, compile};
use std::alloc::{AllocError, Global};
use std::marker::Model;
use std::num::NonZeroUsize;

/// The greatest capacity of a cache.
pub const LARGEST_CAPACITY: usize = 1_024;

/// Valid queries by their texts, the most recently used first. Beside this list, the last query for which there was no memory.
#[derive(Drop)]
pub struct Cache {
    queries: LruCache<Vec<u8>, ValidQuery>,
    unlisted: Option<ValidQuery>,
}

impl Model for Cache {
    ghost use Rattle.query_cache.specs.Texts.{Held};
    ghost use Rattle.query_cache.specs.Kept.{texts_of, IsCache};

    ghost Value = { Held };

    ghost view = { λ c. record { texts = texts_of c.queries.entries; capacity = c.queries.cap } };

    ghost invariant = { λ c. IsCache c.queries.entries c.queries.cap };
}

impl Cache {
    ghost use Rattle.query_cache.specs.Compiled.{query_in, Owns, LeavesList};
    ghost use Rattle.query_cache.specs.Lending.{EndsAs};

    /// An empty cache for at most `capacity` texts.
    ///
    /// # Errors
    ///
    /// If an allocation failed.
    pub fn new(alloc: Global, capacity: usize) -> Result<Cache, AllocError>
        requires some { 1 ≤ capacity }
        requires few { capacity ≤ 1024 }
        ensures { IfOk result (λ cache. cache ≡ record { texts = []; capacity = capacity }) }
    {
        let places = NonZeroUsize::new(capacity).unwrap();
        let queries = LruCache::new(alloc, places)?;
        Ok(Cache {
            queries,
            unlisted: None,
        })
    }

    /// Whether the cache holds the text. This does not count as a use of it.
    pub fn holds(&self, text: &[u8]) -> bool
        ensures { result ≡ is_held text.now self.now.texts }
    {
        self.queries.contains(text)
    }

    /// The query of a text, as [`compile`] returns it, whatever the cache holds.
    ///
    /// The text becomes the most recently used. In a full cache, a new text evicts the least recently used. If there is no memory for the
    /// entry, the list is unchanged, and the cache keeps the query aside until the next one without memory.
    ///
    /// # Errors
    ///
    /// Those of [`compile`], in its order, only for texts that the cache does not hold. The list is then unchanged. `Memory` comes from
    /// compiling alone.
    pub fn lookup(&mut self, alloc: Global, text: &[u8]) -> Result<Compiled<'_>, QueryFault>
        ensures valid { IfOk result (λ compiled. IsValidQuery text.now (query_view (query_in compiled))) }
        ensures refused { IfErr result (λ fault. RefusesQueryText text.now fault) }
        ensures unheld { OnErr result (is_held text.now self.old.texts ≡ false) }
        ensures* list { sem 𝓛 (EndsAs self.entry (λ cache. LeavesList text.now self.old result cache × IsWithin cache)) }
    {
        let unlisted = self.admit(alloc, text)?;
        match unlisted {
            None => Ok(Compiled {
                query: self.lend(text),
                cached: true,
            }),
            Some(query) => Ok(Compiled {
                query: self.set_aside(query),
                cached: false,
            }),
        }
    }

    /// Makes a text the most recently used, as [`Cache::lookup`] does, but lends nothing. If there is no memory for the entry, its query
    /// is returned.
    ///
    /// # Errors
    ///
    /// Those of [`Cache::lookup`].
    pub fn admit(&mut self, alloc: Global, text: &[u8]) -> Result<Option<ValidQuery>, QueryFault>
        ensures valid { IfOk result (λ owned. Owns text.now owned) }
        ensures list { IfOk result (λ owned. Admits text.now (is_none owned) self.old self.new) }
        ensures few { IsWithin self.new }
        ensures refused { IfErr result (λ fault. RefusesQueryText text.now fault) }
        ensures unheld { OnErr result (is_held text.now self.old.texts ≡ false) }
        ensures unchanged { OnErr result (self.new ≡ self.old) }
    {
        let queries = &mut self.queries;
        if text.len() > QUERY_LIMIT {
            return Err(QueryFault::QueryTooLong);
        }
        if bring_forward(queries, text) {
            return Ok(None);
        }
        let query = compile(alloc, text)?;
        Ok(keep_parsed(queries, alloc, text, query))
    }

    /// Lends the query of a text in the cache.
    fn lend(&self, text: &[u8]) -> &ValidQuery
        requires { IsTrue (is_held text.now self.now.texts) }
        ensures { IsValidQuery text.now (query_view result.now) }
    {
        self.queries.peek(text).unwrap()
    }

    /// Keeps a query aside instead of the previous one, and lends it.
    fn set_aside(&mut self, query: ValidQuery) -> &ValidQuery
        ensures value { result.now ≡ query }
        ensures* list { sem 𝓛 (EndsAs self.entry (λ cache. cache ≡ self.old)) }
    {
        self.unlisted.insert(query)
    }
}

/// Moves a text to the front, if the cache holds it, and says whether it does.
fn bring_forward(queries: &mut LruCache<Vec<u8>, ValidQuery>, text: &[u8]) -> bool
    ensures held { result ≡ is_some (lookup (is_text text.now) queries.old.entries) }
    ensures order { queries.new ≡ lru_cache (promoted (is_text text.now) queries.old.entries) queries.old.cap }
{
    queries.promote(text)
}

/// Inserts the query of a new text at the front, or returns it if there is no memory.
fn keep_parsed(
    queries: &mut LruCache<Vec<u8>, ValidQuery>,
    alloc: Global,
    text: &[u8],
    query: ValidQuery,
) -> Option<ValidQuery>
    requires { lookup (is_text text.now) queries.old.entries ≡ None }
    ensures { Keeps text.now query queries.old result queries.new }
{
    match Vec::from_slice(alloc, text) {
        Ok(key) => match queries.put(key, query) {
            Ok(_) => None,
            Err(refused) => Some(refused.value.1),
        },
        Err(_) => Some(query),
    }
}
