// A number for each name, which names of one object share where they mean the same, so that most are told apart without a comparison.

ghost use Rattle.std.specs.Prelude.{◌≡◌, ◌<◌, length, get_or, set, IfOk, OnOk};
ghost use Rattle.std.specs.Str.{chars};
ghost use Rattle.json_strings.specs.Spelling.{scalars_in, IsQuoted};
ghost use Rattle.json_text.specs.Answer.{IsJson, StandsForAll};
ghost use Rattle.json_text.specs.Suspects.{AreSuspects};
ghost use Rattle.text_places.specs.Marks.{group_of, mark_for, mark_from, number_from as number_behind, number_of, one_more, with_byte as one_byte_more, AreChosen, AreCounted, AreFlagged, AreLeft, AreMarked, KeepsShared};

use json_strings::{Scalars, unquoted};
use json_tape::Tape;
use json_text::{Entry, Role};
use std::alloc::{AllocError, Global};

const GROUPS: usize = 2_097_152;

const MANY: usize = 4_096;

const FACTOR: u32 = 0x9E37_79B9;

const LONG_FACTOR: u64 = 0x9E37_79B9_7F4A_7C15;

/// For each value 0, or the mark of its name. Of two names of one object that mean the same, neither is 0.
pub fn left(
    alloc: Global,
    text: &str,
    tape: &Tape,
    suspects: &[u32],
) -> Result<Vec<u32>, AllocError>
    requires spelt { IsJson text.now }
    requires stands { StandsForAll text.now tape.now }
    requires suspects { AreSuspects text.now tape.now suspects.now }
    ensures long { IfOk result (λ marks. length marks.items ≡ length tape.now) }
    ensures left { IfOk result (λ marks. AreLeft text.now tape.now marks.items) }
{
    let mut marks = suspected(alloc, text, tape, suspects)?;
    if !are_many(marks.as_slice()) {
        return Ok(marks);
    }
    drop_alone(alloc, text, tape, &mut marks, 1)?;
    if !are_many(marks.as_slice()) {
        return Ok(marks);
    }
    drop_alone(alloc, text, tape, &mut marks, LONG_FACTOR)?;
    Ok(marks)
}

// A number for each value of a text, which is not 0 for the members of suspects.
fn suspected(
    alloc: Global,
    text: &str,
    tape: &Tape,
    suspects: &[u32],
) -> Result<Vec<u32>, AllocError>
    requires { AreSuspects text.now tape.now suspects.now }
    ensures long { IfOk result (λ marks. length marks.items ≡ length tape.now) }
    ensures left { IfOk result (λ marks. AreLeft text.now tape.now marks.items) }
{
    let flags = flagged(alloc, tape.len() as usize, suspects)?;
    let marks = chosen(alloc, tape, flags.as_slice())?;
    Ok(marks)
}

// For each of so many values 1 where it is one of the suspects, and otherwise 0.
fn flagged(alloc: Global, values: usize, suspects: &[u32]) -> Result<Vec<u8>, AllocError>
    ensures long { IfOk result (λ flags. length flags.items ≡ values) }
    ensures flagged { IfOk result (λ flags. AreFlagged values suspects.now flags.items (length suspects.now)) }
{
    let mut flags = zeros(alloc, values)?;
    for i in 0..suspects.len() {
        let n = suspects[i] as usize;
        if n < values {
            flags[n] = 1;
        }
    }
    Ok(flags)
}

// For each value the flag of the object that it is a member of, if it is one, and otherwise 0.
fn chosen(alloc: Global, tape: &Tape, flags: &[u8]) -> Result<Vec<u32>, AllocError>
    ensures long { IfOk result (λ marks. length marks.items ≡ length tape.now) }
    ensures chosen { IfOk result (λ marks. AreChosen tape.now flags.now marks.items (length tape.now)) }
{
    let mut marks = Vec::with_capacity(alloc, tape.len() as usize)?;
    for n in 0..tape.len() {
        marks.push(choice(tape.entry(n), flags))?;
    }
    Ok(marks)
}

#[inline(always)]
fn choice(entry: Entry, flags: &[u8]) -> u32
    ensures { entry.role ≡ Role.Member → result ≡ get_or flags.now entry.up 0 }
{
    match entry.role {
        Role::Member => match flags.get(entry.up as usize) {
            Some(flag) => u32::from(*flag),
            None => 0,
        },
        Role::Whole | Role::Element => 0,
    }
}

// Marks the names whose number is not 0, and leaves each mark that comes again. Most others are 0 then.
fn drop_alone(
    alloc: Global,
    text: &str,
    tape: &Tape,
    marks: &mut Vec<u32>,
    factor: u64,
) -> Result<(), AllocError>
    requires spelt { IsJson text.now }
    requires stands { StandsForAll text.now tape.now }
    requires long { length marks.old.items ≡ length tape.now }
    ensures long { OnOk result (length marks.new.items ≡ length marks.old.items) }
    ensures left { OnOk result (AreLeft text.now tape.now marks.old.items → AreLeft text.now tape.now marks.new.items) }
{
    mark_names(text, tape, marks, factor);
    keep_shared(alloc, marks, 1)?;
    keep_shared(alloc, marks, FACTOR)?;
    Ok(())
}

// Marks the names of members whose number is not 0.
fn mark_names(text: &str, tape: &Tape, marks: &mut Vec<u32>, factor: u64)
    requires spelt { IsJson text.now }
    requires stands { StandsForAll text.now tape.now }
    requires long { length marks.old.items ≡ length tape.now }
    ensures long { length marks.new.items ≡ length marks.old.items }
    ensures marked { AreMarked factor text.now tape.now marks.old.items marks.new.items (length tape.now) }
{
    for n in 0..tape.len() {
        if marks[n as usize] != 0 {
            marks[n as usize] = mark_for(text, tape.entry(n), factor);
        }
    }
}

#[inline(always)]
fn mark_for(text: &str, entry: Entry, factor: u64) -> u32
    requires { entry.role ≡ Role.Member → IsQuoted text.now entry.label }
    ensures { entry.role ≡ Role.Member → result ≡ mark_for factor text.now entry }
{
    match entry.role {
        Role::Member => mark_of(factor, entry.up, number(unquoted(text, entry.label))),
        Role::Whole | Role::Element => 0,
    }
}

// The mark of a name with this number in the object with this one.
#[inline(always)]
#[tactic(auto, unfolding(crate::specs::Marks::mark_from))]
fn mark_of(factor: u64, up: u32, number: u64) -> u32
    ensures { result ≡ mark_from factor up number }
{
    let sum = u64::from(up).wrapping_mul(LONG_FACTOR).wrapping_add(number);
    (sum.wrapping_mul(factor) / 8_589_934_592) as u32 * 2 + 1
}

// The number of what characters mean, by their bytes as UTF-8. It is another one than the reader's hash, so that names made for that one differ here.
#[inline(always)]
fn number(inside: &str) -> u64
    ensures { result ≡ number_of (scalars_in (chars inside.now)) }
{
    if inside.as_bytes().contains(&b'\\') {
        number_of_scalars(Scalars::new(inside))
    } else {
        number_from(0, inside.as_bytes())
    }
}

#[inline(never)]
fn number_of_scalars(mut scalars: Scalars<'_>) -> u64
    ensures { result ≡ number_of scalars.entry }
{
    let mut number = 0;
    while let Some(c) = scalars.next() {
        number = number_from(number, c.encode_utf8(&mut [0; 4]).as_bytes());
    }
    number
}

#[inline(always)]
fn number_from(number: u64, bytes: &[u8]) -> u64
    ensures { result ≡ number_behind number bytes.now }
{
    let mut all = number;
    for i in 0..bytes.len() {
        all = with_byte(all, bytes[i]);
    }
    all
}

#[inline(always)]
#[tactic(auto, unfolding(crate::specs::Marks::with_byte))]
fn with_byte(number: u64, byte: u8) -> u64
    ensures { result ≡ one_byte_more number byte }
{
    let product = number
        .wrapping_add(u64::from(byte))
        .wrapping_mul(LONG_FACTOR);
    product.wrapping_add(product / 4_294_967_296)
}

// Whether so many names have a mark that a table of groups takes less time than a search for each.
fn are_many(marks: &[u32]) -> bool {
    let mut count = 0usize;
    for mark in marks {
        if *mark != 0 {
            count = count.saturating_add(1);
        }
    }
    count > MANY
}

// Leaves each mark that comes again, and of a few groups of marks no other.
fn keep_shared(alloc: Global, marks: &mut Vec<u32>, factor: u32) -> Result<(), AllocError>
    ensures long { OnOk result (length marks.new.items ≡ length marks.old.items) }
    ensures kept { OnOk result (KeepsShared marks.old.items marks.new.items) }
{
    let counts = counted(alloc, marks.as_slice(), factor)?;
    for n in 0..marks.len() {
        if counts[group(marks[n], factor)] != 2 {
            marks[n] = 0;
        }
    }
    Ok(())
}

// For each group whether it has no mark, one, or more, which is 2.
fn counted(alloc: Global, marks: &[u32], factor: u32) -> Result<Vec<u8>, AllocError>
    ensures long { IfOk result (λ counts. length counts.items ≡ GROUPS) }
    ensures counted { IfOk result (λ counts. AreCounted factor marks.now counts.items (length marks.now)) }
{
    let mut counts = zeros(alloc, GROUPS)?;
    for n in 0..marks.len() {
        if marks[n] != 0 {
            add(&mut counts, group(marks[n], factor));
        }
    }
    Ok(counts)
}

// So many times 0.
fn zeros(alloc: Global, count: usize) -> Result<Vec<u8>, AllocError>
    ensures { IfOk result (λ zeros. length zeros.items ≡ count) }
{
    vec![in alloc; 0u8; count]
}

#[inline(always)]
#[tactic(auto, unfolding(crate::specs::Marks::group_of))]
fn group(mark: u32, factor: u32) -> usize
    ensures value { result ≡ group_of factor mark }
    ensures small { result < GROUPS }
{
    (mark.wrapping_mul(factor) / 2_048) as usize
}

// Counts one mark more of a group.
#[inline(always)]
fn add(counts: &mut Vec<u8>, group: usize)
    requires { group < length counts.old.items }
    ensures { counts.new.items ≡ set counts.old.items group (one_more (get_or counts.old.items group 0)) }
{
    counts[group] = if counts[group] == 0 { 1 } else { 2 };
}
