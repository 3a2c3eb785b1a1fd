// The members of an object in the order of their names: whether one comes again, and, of wide objects, that a name is found by halving.

ghost use Rattle.std.specs.Prelude.{◌≡◌, ◌≢◌, ℕ, ◌+◌, ◌<◌, ◌≤◌, ◌^◌, ◌++◌, length, map, IfSome, OnOk, get_or, IfOk, IsTrue, ◌↔◌, None, false, nat_eq};
ghost use Rattle.std.specs.List.{All, Contains};
ghost use Rattle.std.specs.List.Sorted.{IsPermutation, IsSorted};
ghost use Rattle.std.specs.Ordering.{nat_cmp, on, ordering_then};
ghost use Rattle.std.specs.Cmp.Lexicographic.{pointwise};
ghost use Rattle.json_text.specs.Tree.{Members};
ghost use Rattle.json_text.specs.Repeats.{repeats, repeats_next_by, meanings, IsObject};
ghost use Rattle.name_order.specs.Ordered.{AreNamed, IsNamed, IsOrderOf, AreKept, members_of, name_at, name_in, key_in, keyed, word_of, word_with, word_cmp};
ghost use Rattle.name_order.specs.Orders.{high_half};
ghost use Rattle.json_text.specs.Suspects.{IsWide};
ghost use Rattle.json_strings.specs.Keys.{name_cmp, key_name, sought_name};

use crate::orders::{NameOrder, hash_in, number_in, word};
use json_strings::{Key, Sought, compare_sought, hash, is_sought, sought_hash, spread, unquoted};
use json_text::{Entry, Kind};
use std::alloc::{AllocError, Global};
use std::cmp::Ordering;
use tape_cells::{Tape, push};

/// An object of more members keeps their order.
pub const NARROW: u32 = 64;

/// Whether it is an object that keeps the order of its members.
pub fn is_wide(entry: Entry) -> bool
    ensures { IsTrue result ↔ IsWide entry }
{
    match entry.kind {
        Kind::Object => entry.children > NARROW,
        Kind::Null | Kind::Bool(_) | Kind::Number | Kind::Text | Kind::Array => false,
    }
}

// How a member as a word compares with a name of this hash.
fn compare_word(text: &str, tape: &Tape, member: u64, hash: u32, sought: Sought<'_>) -> Ordering
    requires { (factor : ℕ) × IsNamed factor text.now tape.now member }
    ensures { result ≡ ordering_then (nat_cmp (high_half member) hash) (name_cmp (name_in text.now tape.now member) (sought_name sought.entry)) }
{
    match hash_in(member).cmp(&hash) {
        Ordering::Less => Ordering::Less,
        Ordering::Greater => Ordering::Greater,
        Ordering::Equal => {
            let name = tape.entry(number_in(member)).label;
            compare_sought(text, name, sought)
        }
    }
}

/// The member of this name, by halving, where the words have hashes by the factor.
pub fn member_in(
    text: &str,
    tape: &Tape,
    words: &[u64],
    factor: u64,
    sought: Sought<'_>,
) -> Option<u32>
    requires { AreNamed factor text.now tape.now words.now }
    ensures found { IfSome result (λ m. Contains (members_of words.now) m × (name_at text.now tape.now m ≡ sought_name sought.entry)) }
    ensures none { result ≡ None → (k : ℕ) → k < length (members_of words.now) → name_at text.now tape.now (get_or (members_of words.now) k 0) ≡ sought_name sought.entry → ⊥ }
{
    let hash = sought_hash(sought, factor);
    let mut low = 0;
    let mut high = words.len();
    while low < high {
        let middle = low + (high - low) / 2;
        let member = words[middle];
        match compare_word(text, tape, member, hash, sought) {
            Ordering::Less => low = middle + 1,
            Ordering::Greater => high = middle,
            Ordering::Equal => return Some(number_in(member)),
        }
    }
    None
}

// The members of the object with this number as words in the order of their hashes, in place of the words that were there.
fn sort_words(
    text: &str,
    tape: &Tape,
    n: u32,
    factor: u64,
    words: &mut Vec<u64>,
) -> Result<(), AllocError>
    requires inside { n < length tape.now }
    requires object { (ms : Members) × IsObject text.now tape.now n ms }
    requires short { length tape.now < 2 ^ 31 }
    ensures all { OnOk result ((ms : Members) → IsObject text.now tape.now n ms → IsPermutation (map (word_of factor) (keyed ms (n + 1))) words.new.items) }
    ensures sorted { OnOk result (IsSorted nat_cmp words.new.items) }
{
    words.clear();
    let end = tape.after(n);
    let mut k = n + 1;
    while k < end {
        let name = hash(text, tape.label(k), factor);
        push(words, word(spread(name, factor), k))?;
        k = tape.after(k);
    }
    words.as_mut_slice().sort_unstable();
    Ok(())
}

// The end of the run of words of one hash that begins at a place.
fn run_end(words: &[u64], from: usize) -> usize
    requires { from < length words.now }
    ensures within { (from < result) × (result ≤ length words.now) }
    ensures alike { (k : ℕ) → from ≤ k → k < result → high_half (get_or words.now k 0) ≡ high_half (get_or words.now from 0) }
    ensures ends { result < length words.now → high_half (get_or words.now result 0) ≢ high_half (get_or words.now from 0) }
{
    let hash = hash_in(words[from]);
    for to in from + 1..words.len() {
        if hash_in(words[to]) != hash {
            return to;
        }
    }
    words.len()
}

// The members in words in the order of what their names mean.
fn sorted_keys<'a>(
    alloc: Global,
    text: &'a str,
    tape: &Tape,
    words: &[u64],
) -> Result<Vec<Key<'a>>, AllocError>
    requires { (factor : ℕ) × All (IsNamed factor text.now tape.now) words.now }
    ensures all { IfOk result (λ keys. IsPermutation (map (key_in text.now tape.now) words.now) keys.items) }
    ensures sorted { IfOk result (λ keys. IsSorted (on key_name name_cmp) keys.items) }
{
    let mut keys = Vec::new(alloc);
    for member in words {
        let k = number_in(*member);
        keys.push(Key::new(alloc, k, text, tape.label(k))?)?;
    }
    keys.as_mut_slice().sort_unstable();
    Ok(keys)
}

// Members as words with this hash, behind the words that were there.
fn add_words(keys: &[Key<'_>], hash: u32, words: &mut Vec<u64>) -> Result<(), AllocError>
    ensures { OnOk result (words.new.items ≡ words.old.items ++ map (word_with hash) keys.now) }
{
    for key in keys {
        push(words, word(hash, key.number()))?;
    }
    Ok(())
}

// Sorts words of one hash by the names of their members.
fn sort_run(
    alloc: Global,
    text: &str,
    tape: &Tape,
    hash: u32,
    words: &mut [u64],
) -> Result<(), AllocError>
    requires named { (factor : ℕ) × All (IsNamed factor text.now tape.now) words.old }
    requires alike { All (λ w. high_half w ≡ hash) words.old }
    ensures all { OnOk result (IsPermutation words.old words.new) }
    ensures sorted { OnOk result (IsSorted (on (name_in text.now tape.now) name_cmp) words.new) }
{
    if words.len() < 2 {
        return Ok(());
    }
    let keys = sorted_keys(alloc, text, tape, words)?;
    let mut sorted = Vec::new(alloc);
    add_words(keys.as_slice(), hash, &mut sorted)?;
    words.copy_from_slice(sorted.as_slice());
    Ok(())
}

// Sorts words in the order of their hashes by names where hashes meet. Names are looked at nowhere else.
fn sort_runs(alloc: Global, text: &str, tape: &Tape, words: &mut Vec<u64>) -> Result<(), AllocError>
    requires named { (factor : ℕ) × All (IsNamed factor text.now tape.now) words.old.items }
    requires sorted { IsSorted nat_cmp words.old.items }
    ensures all { OnOk result (IsPermutation words.old.items words.new.items) }
    ensures sorted { OnOk result (IsSorted (word_cmp text.now tape.now) words.new.items) }
{
    let mut from = 0;
    while from < words.len() {
        let hash = hash_in(words[from]);
        let to = run_end(words.as_slice(), from);
        sort_run(alloc, text, tape, hash, &mut words[from..to])?;
        from = to;
    }
    Ok(())
}

// Whether the members in two words have one name.
fn are_twins(text: &str, tape: &Tape, one: u64, other: u64) -> bool
    requires { (factor : ℕ) × IsNamed factor text.now tape.now one × IsNamed factor text.now tape.now other }
    ensures { result ≡ pointwise nat_eq (name_in text.now tape.now one) (name_in text.now tape.now other) }
{
    if hash_in(one) != hash_in(other) {
        return false;
    }
    let name = unquoted(text, tape.label(number_in(one)));
    is_sought(text, tape.label(number_in(other)), Sought::Spelt(name))
}

// Whether the name of one of the members in the words is that of the next one.
fn names_meet(text: &str, tape: &Tape, words: &[u64]) -> bool
    requires { (factor : ℕ) × All (IsNamed factor text.now tape.now) words.now }
    ensures { result ≡ repeats_next_by (on (name_in text.now tape.now) (pointwise nat_eq)) words.now }
{
    for i in 1..words.len() {
        if are_twins(text, tape, words[i - 1], words[i]) {
            return true;
        }
    }
    false
}

/// Sets the words to the members of the object with this number in the order of their names, or finds two names that mean the same. The
/// hashes in the words are by the factor.
#[inline(never)]
pub fn order_words(
    alloc: Global,
    text: &str,
    tape: &Tape,
    n: u32,
    factor: u64,
    words: &mut Vec<u64>,
) -> Result<bool, AllocError>
    requires inside { n < length tape.now }
    requires object { (ms : Members) × IsObject text.now tape.now n ms }
    requires short { length tape.now < 2 ^ 31 }
    ensures found { IfOk result (λ found. (ms : Members) → IsObject text.now tape.now n ms → found ≡ repeats (meanings ms)) }
    ensures ordered { IfOk result (λ found. found ≡ false → IsOrderOf factor text.now tape.now n words.new.items) }
{
    sort_words(text, tape, n, factor, words)?;
    sort_runs(alloc, text, tape, words)?;
    Ok(names_meet(text, tape, words.as_slice()))
}

/// Keeps the order of the members of one more object, or finds a name that comes again. The words are room to work in.
#[inline(never)]
pub fn order_members(
    alloc: Global,
    text: &str,
    tape: &Tape,
    n: u32,
    words: &mut Vec<u64>,
    order: &mut NameOrder,
) -> Result<bool, AllocError>
    requires inside { n < length tape.now }
    requires object { (ms : Members) × IsObject text.now tape.now n ms }
    requires short { length tape.now < 2 ^ 31 }
    requires kept { AreKept text.now tape.now n order.old }
    ensures found { IfOk result (λ found. (ms : Members) → IsObject text.now tape.now n ms → found ≡ repeats (meanings ms)) }
    ensures kept { IfOk result (λ found. found ≡ false → AreKept text.now tape.now (n + 1) order.new) }
{
    if order_words(alloc, text, tape, n, order.factor(), words)? {
        return Ok(true);
    }
    order.push(n, words.as_slice())?;
    Ok(false)
}
