//! The orders of the members of wide objects, one behind the other in one list of words.

ghost use Rattle.std.specs.Prelude.{◌≡◌, ◌+◌, ◌*◌, ◌<◌, ◌++◌, ◌∷◌, [], IfOk, OnOk, MatchOption};
ghost use Rattle.std.specs.List.{All, Contains};
ghost use Rattle.name_order.specs.Orders.{Order, Kept, high_half, low_half};

use std::alloc::{AllocError, Global};
use std::marker::Model;
use tape_cells::push;

// The values of half of a word.
const HALF: u64 = 4_294_967_296;

// The bytes of a header.
const HEADER_BYTES: usize = 24;

/// An object, how many members it has, and where its words begin.
#[derive(Clone, Copy)]
pub struct Header {
    object: u32,
    count: usize,
    start: usize,
}

/// For each wide object its members in the order of their names.
#[derive(Drop)]
pub struct NameOrder {
    // of the objects, ascending
    headers: Vec<Header>,
    // of all objects the members as words
    words: Vec<u64>,
    // of the hashes in the words
    factor: u64,
}

impl Model for NameOrder {
    ghost use Rattle.name_order.specs.Orders.{Kept, orders_of, AreOrders};

    ghost Value = { Kept };

    ghost view = { λ o. record { factor = o.factor; orders = orders_of o.headers.items o.words.items } };

    ghost invariant = { λ o. AreOrders o.headers.items o.words.items };
}

// A member as a word, in the order of the hashes.
#[inline(always)]
pub(crate) fn word(hash: u32, number: u32) -> u64
    ensures { result ≡ hash * 4294967296 + number }
{
    u64::from(hash) * HALF + u64::from(number)
}

#[inline(always)]
#[tactic(auto, unfolding(crate::specs::Orders::high_half))]
pub(crate) fn hash_in(word: u64) -> u32
    ensures { result ≡ high_half word }
{
    (word / HALF) as u32
}

#[inline(always)]
#[tactic(auto, unfolding(crate::specs::Orders::low_half))]
pub(crate) fn number_in(word: u64) -> u32
    ensures { result ≡ low_half word }
{
    (word % HALF) as u32
}

impl NameOrder {
    /// The bytes of memory that it takes.
    pub fn memory(&self) -> usize {
        let headers = self.headers.capacity().saturating_mul(HEADER_BYTES);
        let words = self.words.capacity().saturating_mul(8);
        words.saturating_add(headers)
    }

    /// Of no object, with room for so many members.
    pub fn new(alloc: Global, room: usize, factor: u64) -> Result<NameOrder, AllocError>
        ensures { IfOk result (λ order. order ≡ record { factor = factor; orders = [] }) }
    {
        let words = Vec::with_capacity(alloc, room)?;
        Ok(NameOrder {
            headers: Vec::new(alloc),
            words,
            factor,
        })
    }

    /// The factor of the hashes in the words.
    pub fn factor(&self) -> u64
        ensures { result ≡ self.now.factor }
    {
        self.factor
    }

    /// Gives back the room for more members.
    pub fn shrink(&mut self)
        ensures { self.new ≡ self.old }
    {
        self.words.shrink_to_fit();
    }

    /// Adds an object behind all others, with its members as words in their order.
    pub(crate) fn push(&mut self, object: u32, words: &[u64]) -> Result<(), AllocError>
        requires { All (λ (o : Order). o.object < object) self.old.orders }
        ensures { OnOk result (self.new ≡ record { factor = self.old.factor; orders = self.old.orders ++ record { object = object; words = words.now } ∷ [] }) }
    {
        let header = Header {
            object,
            count: words.len(),
            start: self.words.len(),
        };
        self.words.extend_from_slice(words)?;
        push(&mut self.headers, header)?;
        Ok(())
    }

    /// The members of an object as words in their order, if it keeps them.
    pub fn run(&self, object: u32) -> Option<&[u64]>
        ensures { MatchOption result ((o : Order) → Contains self.now.orders o → o.object ≡ object → ⊥) (λ words. Contains self.now.orders (record { object = object; words = words.now })) }
    {
        let Ok(at) = self
            .headers
            .binary_search_by_key(&object, |header| header.object)
        else {
            return None;
        };
        let header = self.headers[at];
        Some(&self.words[header.start..header.start + header.count])
    }
}
