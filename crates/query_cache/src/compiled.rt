//! A compiled query in the cache or aside.
ghost use Rattle.std.specs.Prelude.{◌≡◌};
ghost use Rattle.query_cache.specs.Compiled.{query_in, is_listed};

use path_types::ValidQuery;

/// A query that [`crate::Cache::lookup`] lends.
#[derive(Clone, Copy)]
pub struct Compiled<'a> {
    pub(crate) query: &'a ValidQuery,
    pub(crate) cached: bool,
}

impl<'a> Compiled<'a> {
    /// The query.
    pub fn query(&self) -> &'a ValidQuery
        ensures { result.now ≡ query_in self.now }
    {
        self.query
    }

    /// Whether the cache holds its text. If not, there was no memory for the entry, and the query lasts until the next look-up.
    pub fn is_cached(&self) -> bool
        ensures { result ≡ is_listed self.now }
    {
        self.cached
    }
}
