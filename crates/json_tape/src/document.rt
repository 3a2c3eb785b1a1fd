//! A text that was read, and the methods on its values.

ghost use Rattle.std.specs.Prelude.{false, IfSome, ◌≡◌, ◌∷◌, [], ℕ, List, ◌^◌, ◌<◌, ◌≤◌, ◌+◌, ◌-◌, ◌↔◌, length, MatchResult, MatchOption, IsUtf8, IsTrue, slice_index_or};
ghost use Rattle.std.specs.List.{Contains, All};
ghost use Rattle.std.specs.Str.{chars};
ghost use Rattle.std.specs.String.{string_bytes};
ghost use Rattle.json_strings.specs.Spelling.{scalars_in, AreWordsOf};
ghost use Rattle.decimal_order.specs.Number.{IsNumber};
ghost use Rattle.decimal_order.specs.Limits.{IsWithinLimits};
ghost use Rattle.structural_index.specs.Answer.{IsIndexOf};
ghost use Rattle.json_text.specs.Answer.{Explains};
ghost use Rattle.json_text.specs.Tree.{source_of};
ghost use Rattle.json_text.specs.Verdict.{text_limit, IsAccepted};
ghost use Rattle.json_text.specs.Nodes.{size, children, visit, is_named, first_where};
ghost use Rattle.json_text.specs.Tape.{Top, tape_of, entry_in, kind_of};
ghost use Rattle.json_tape.specs.Siblings.{numbered};
ghost use Rattle.name_order.specs.Ordered.{AreKept, IsOrderOf};
ghost use Rattle.json_walk.specs.UnderWay.{IsReading};
ghost use Rattle.json_tape.specs.Shares.{IsKept, fault_is};
ghost use Rattle.json_text.specs.Suspects.{IsWide};
ghost use Rattle.json_strings.specs.Keys.{sought_name};
ghost use Rattle.json_tape.specs.Document.{tree_of, count, node_at, later, seen, following, single, root_of, counting, IsIn, IsDocument, IsMember, HasName, LeadIs, ParentIs, StandsIn, length_of, string_meaning};

use crate::children::Children;
use crate::judge::judge_tape;
use json_strings::{
    FACTOR, Scalars, Sought, Words, count_of, is_meant_by, is_meant_plainly, is_sought, part_at,
    unquoted, words_of,
};
use json_text::{BuildFault, Entry, Kind, Lead, NodeId, Role, TextFault};
use json_walk::{Reading, walk};
use name_order::{NameOrder, is_wide, member_in};
use std::alloc::Global;
use std::marker::Model;
use structural_index::{Index, Looks, index, index_and_copy};
use tape_cells::Tape;

/// The most bytes of a text.
pub const TEXT_LIMIT: usize = 4_194_304;

/// An immutable JSON text within the limits, with an entry for each value.
#[derive(Drop)]
pub struct Document {
    text: String,
    tape: Tape,
    names: NameOrder,
}

impl Model for Document {
    ghost use Rattle.std.specs.String.{string_bytes};
    ghost use Rattle.std.specs.Prelude.{length};
    ghost use Rattle.json_tape.specs.Document.{Doc, IsDocument};
    ghost use Rattle.name_order.specs.Ordered.{AreKept};

    ghost Value = { Doc };

    ghost view = { λ d. record { text = string_bytes d.text; entries = d.tape } };

    ghost invariant = { λ d. IsDocument (record { text = string_bytes d.text; entries = d.tape })
        × AreKept (string_bytes d.text) d.tape (length d.tape) d.names };
}

// The characters of a text that is not too long.
pub(crate) fn characters(text: &[u8]) -> Result<&str, TextFault>
    ensures { MatchResult result (λ characters. (characters.now ≡ text.now) × (length text.now ≤ text_limit) × IsUtf8 text.now) (λ f. Explains text.now f) }
{
    if text.len() > TEXT_LIMIT {
        return Err(TextFault::TooLong);
    }
    match simdutf8::basic::from_utf8(text) {
        Ok(characters) => Ok(characters),
        Err(_) => Err(TextFault::NotUtf8),
    }
}

// The index of a text and a copy of it. A text without is looked at once more, since it is not want of memory where the text is too long or not UTF-8.
pub(crate) fn indexed(alloc: Global, text: &[u8]) -> Result<(Index, String), TextFault>
    ensures { MatchResult result (λ r. (string_bytes r.1 ≡ text.now) × (length text.now ≤ text_limit) × IsUtf8 text.now × IsIndexOf r.0 text.now) (λ f. Explains text.now f) }
{
    if text.len() <= TEXT_LIMIT {
        if let Ok((index, copy)) = index_and_copy(alloc, text) {
            if index.utf8 {
                return Ok((index, unsafe { String::from_utf8_unchecked(copy) }));
            }
        }
    }
    match characters(text) {
        Ok(_) => Err(TextFault::Memory),
        Err(fault) => Err(fault),
    }
}

// What a text that has no fault is kept with.
#[derive(Drop)]
pub(crate) struct Parts {
    pub(crate) tape: Tape,
    pub(crate) names: NameOrder,
}

pub(crate) fn fault_of(fault: BuildFault) -> TextFault
    ensures { result ≡ fault_is fault }
{
    match fault {
        BuildFault::NotJson => TextFault::NotJson,
        BuildFault::Memory => TextFault::Memory,
    }
}

// The tape and the order of the members of wide objects of a text that was walked, or its first fault. Names are hashed by the factor.
pub(crate) fn judged(
    alloc: Global,
    text: &str,
    index: &Index,
    reading: Reading,
    factor: u64,
) -> Result<Parts, TextFault>
    requires short { length text.now ≤ text_limit }
    requires index { IsIndexOf index.now text.now }
    requires reading { (before : ℕ) × (now : ℕ) × IsReading text.now before now reading }
    ensures { MatchResult result (λ p. IsKept text.now p.tape p.names) (λ fault. Explains text.now fault) }
{
    match judge_tape(alloc, text, index.lone_surrogate, &reading, factor) {
        Ok(names) => Ok(Parts {
            tape: reading.tape,
            names,
        }),
        Err(fault) => Err(fault),
    }
}

// Reads a text that has this index.
fn read_indexed(alloc: Global, text: &str, index: &Index) -> Result<Parts, TextFault>
    requires short { length text.now ≤ text_limit }
    requires index { IsIndexOf index.now text.now }
    ensures { MatchResult result (λ p. IsKept text.now p.tape p.names) (λ fault. Explains text.now fault) }
{
    match walk(alloc, index, &mut Looks::new(text.as_bytes())) {
        Ok(reading) => judged(alloc, text, index, reading, FACTOR),
        Err(fault) => Err(fault_of(fault)),
    }
}

impl Document {
    /// Reads a JSON text (RFC 8259).
    ///
    /// # Errors
    ///
    /// The first that applies in this order, wherever in the text it is:
    ///
    /// - `TooLong`: more than [`TEXT_LIMIT`] bytes.
    /// - `NotUtf8`: not UTF-8.
    /// - `NotJson`: not a text of the grammar.
    /// - `TooDeep`: more than [`crate::DEPTH_LIMIT`] levels of arrays and objects.
    /// - `NumberLimit`: a number of more than 256 bytes, or with an exponent above 999,999,999.
    /// - `LoneSurrogate`: half of a surrogate pair alone in a string or a name.
    /// - `DuplicateName`: two names of one object that mean the same.
    ///
    /// `Memory` if an allocation failed, which comes after the first two.
    pub fn read(alloc: Global, text: &[u8]) -> Result<Document, TextFault>
        ensures { MatchResult result (λ d. (d.text ≡ text.now) × IsAccepted text.now (tree_of d)) (λ f. Explains text.now f) }
    {
        let (index, copy) = match indexed(alloc, text) {
            Ok(both) => both,
            Err(fault) => return Err(fault),
        };
        match read_indexed(alloc, copy.as_str(), &index) {
            Ok(parts) => Ok(Document::of_parts(copy, parts)),
            Err(fault) => Err(fault),
        }
    }

    /// Reads a text without copying it: the document takes over the vector. The errors are those of [`Document::read`].
    pub fn read_owned(alloc: Global, text: Vec<u8>) -> Result<Document, TextFault>
        ensures { MatchResult result (λ d. (d.text ≡ text.items) × IsAccepted text.items (tree_of d)) (λ f. Explains text.items f) }
    {
        let bytes = text.as_slice();
        let checked = match characters(bytes) {
            Ok(checked) => checked,
            Err(fault) => return Err(fault),
        };
        let Ok(index) = index(alloc, bytes) else {
            return Err(TextFault::Memory);
        };
        match read_indexed(alloc, checked, &index) {
            Ok(parts) => Ok(Document::of_parts(
                unsafe { String::from_utf8_unchecked(text) },
                parts,
            )),
            Err(fault) => Err(fault),
        }
    }

    // The document of a text and what it is kept with.
    pub(crate) fn of_parts(text: String, parts: Parts) -> Document
        requires { IsKept (string_bytes text) parts.tape parts.names }
        ensures { (result.text ≡ string_bytes text) × IsAccepted result.text (tree_of result) }
    {
        Document {
            text,
            tape: parts.tape,
            names: parts.names,
        }
    }

    /// All bytes of the text, as they were read.
    pub fn source(&self) -> &[u8]
        ensures value { result.now ≡ self.now.text }
        ensures short { length result.now ≤ text_limit }
    {
        self.text.as_bytes()
    }

    /// The bytes of memory that the text, its entries and the order of its names take.
    pub fn memory(&self) -> usize {
        let text = self.text.as_bytes().len();
        let read = self.tape.memory().saturating_add(self.names.memory());
        text.saturating_add(read)
    }

    /// The number of values in the text. They are numbered from 0.
    pub fn node_count(&self) -> u32
        ensures value { result ≡ count self.now }
        ensures size { result ≡ size (tree_of self.now) }
        ensures some { 0 < result }
        ensures small { result < 2 ^ 31 }
    {
        self.tape.len()
    }

    /// The value of the whole text.
    pub fn root(&self) -> NodeId
        ensures first { result.0 ≡ 0 }
        ensures inside { result.0 < count self.now }
        ensures root { node_at self.now 0 ≡ root_of self.now }
        ensures numbered { (k : ℕ) → k < count self.now → (node_at self.now k).number ≡ k }
        ensures small { count self.now < 2 ^ 31 }
        ensures accepted { IsAccepted self.now.text (tree_of self.now) }
        ensures tape { self.now.entries ≡ tape_of (tree_of self.now) 0 Top 0 }
    {
        let _ = &self.tape;
        NodeId(0)
    }

    fn entry(&self, n: NodeId) -> Entry
        requires { n.0 < count self.now }
        ensures document { IsDocument self.now }
        ensures value { result ≡ slice_index_or self.now.entries n.0 result }
    {
        self.tape.entry(n.0)
    }

    /// The number of the first value past this one and all that is in it, by what its entry says.
    #[inline(always)]
    pub(crate) fn end_of(&self, n: NodeId) -> u32
        requires { n.0 < count self.now }
        ensures document { IsDocument self.now }
        ensures value { result ≡ n.0 + size (node_at self.now n.0).tree }
        ensures inside { result ≤ count self.now }
    {
        self.tape.after(n.0)
    }

    // The members of a wide object as words in their order, and the factor of the hashes in these; `None` of any other value.
    fn run(&self, n: NodeId) -> Option<(&[u64], u64)>
        requires { n.0 < count self.now }
        ensures document { IsDocument self.now }
        ensures order { MatchOption result (IsWide (entry_in self.now.entries n.0) → ⊥) (λ run. IsOrderOf run.1 self.now.text self.now.entries n.0 run.0.now) }
    {
        if !is_wide(self.entry(n)) {
            return None;
        }
        match self.names.run(n.0) {
            Some(words) => Some((words, self.names.factor())),
            None => None,
        }
    }

    /// The kind of the value.
    pub fn kind(&self, n: NodeId) -> Kind
        requires { n.0 < count self.now }
        ensures { result ≡ kind_of (node_at self.now n.0).tree }
    {
        self.entry(n).kind
    }

    /// The bytes of the value as they stand in the text, without the blanks around it.
    pub fn text(&self, n: NodeId) -> &[u8]
        requires { n.0 < count self.now }
        ensures value { result.now ≡ (source_of (node_at self.now n.0).tree).bytes }
        ensures part { StandsIn self.now.text result.now }
        ensures short { length result.now ≤ text_limit }
        ensures number { kind_of (node_at self.now n.0).tree ≡ Kind.Number → IsNumber result.now × IsWithinLimits result.now }
    {
        let extent = self.entry(n).source;
        part_at(self.source(), extent)
    }

    /// The number of scalar values of a string, elements of an array or members of an object; `None` for other values.
    #[tactic(auto, using(crate::proofs::Readers::kind_is, crate::proofs::Readers::string_length, crate::proofs::Readers::no_length))]
    pub fn length(&self, n: NodeId) -> Option<u32>
        requires { n.0 < count self.now }
        ensures { result ≡ length_of (node_at self.now n.0).tree }
    {
        let entry = self.entry(n);
        match entry.kind {
            Kind::Array | Kind::Object => Some(entry.children),
            Kind::Text => Some(count_of(self.string_scalars(n))),
            Kind::Null | Kind::Bool(_) | Kind::Number => None,
        }
    }

    /// The elements of an array or the values of an object's members, in the order of the text. Other values have none.
    #[inline(always)]
    pub fn children(&self, n: NodeId) -> Children<'_>
        requires { n.0 < count self.now }
        ensures nodes { numbered self.now result ≡ children (node_at self.now n.0) }
        ensures inside { All (λ id. id.0 < count self.now) result }
    {
        Children::new(self, n)
    }

    /// The first element or the first member's value.
    pub fn first_child(&self, n: NodeId) -> Option<NodeId>
        requires { n.0 < count self.now }
        ensures nodes { following self.now result ≡ children (node_at self.now n.0) }
        ensures inside { IsIn self.now result }
    {
        if self.entry(n).children == 0 {
            None
        } else {
            Some(NodeId(n.0 + 1))
        }
    }

    /// The next element or member value of the same container.
    pub fn next_sibling(&self, n: NodeId) -> Option<NodeId>
        requires { n.0 < count self.now }
        ensures nodes { following self.now result ≡ later self.now n.0 }
        ensures inside { IsIn self.now result }
    {
        let entry = self.entry(n);
        let outer = self.entry(NodeId(entry.up));
        if entry.after < outer.after {
            Some(NodeId(entry.after))
        } else {
            None
        }
    }

    /// The number of the first value after this one and all values inside it.
    #[tactic(auto, using(crate::proofs::Siblings::visit_to, json_text::proofs::Entries::size_positive))]
    pub fn after(&self, n: NodeId) -> u32
        requires { n.0 < count self.now }
        ensures nodes { seen self.now (counting n.0 (result - n.0)) ≡ visit (node_at self.now n.0) }
        ensures past { n.0 < result }
        ensures inside { result ≤ count self.now }
    {
        self.end_of(n)
    }

    /// The step that leads to the value from its parent.
    pub fn lead(&self, n: NodeId) -> Lead
        requires { n.0 < count self.now }
        ensures { LeadIs result (node_at self.now n.0) }
    {
        let entry = self.entry(n);
        match entry.role {
            Role::Whole => Lead::Root,
            Role::Element => Lead::Index(entry.label.start),
            Role::Member => Lead::Name,
        }
    }

    /// The array or object that contains the value; `None` for the root.
    pub fn parent(&self, n: NodeId) -> Option<NodeId>
        requires { n.0 < count self.now }
        ensures node { ParentIs self.now result (node_at self.now n.0) }
        ensures child { IfSome result (λ p. Contains (children (node_at self.now p.0)) (node_at self.now n.0)) }
        ensures before { IfSome result (λ p. p.0 < n.0) }
        ensures inside { IsIn self.now result }
    {
        let entry = self.entry(n);
        match entry.role {
            Role::Whole => None,
            Role::Element | Role::Member => Some(NodeId(entry.up)),
        }
    }

    /// Whether the value is that of an object's member.
    pub fn has_name(&self, n: NodeId) -> bool
        requires { n.0 < count self.now }
        ensures { IsTrue result ↔ HasName (node_at self.now n.0) }
    {
        match self.entry(n).role {
            Role::Member => true,
            Role::Whole | Role::Element => false,
        }
    }

    /// Whether the value is that of a member with this name, given as scalar values.
    #[tactic(auto, using(crate::proofs::Readers::member_lead, json_strings::proofs::Spelled::scalars_at, crate::proofs::Readers::nameless, crate::proofs::Readers::member_role))]
    pub fn name_is(&self, n: NodeId, name: &[char]) -> bool
        requires { n.0 < count self.now }
        ensures { result ≡ is_named name.now (node_at self.now n.0) }
    {
        let entry = self.entry(n);
        match entry.role {
            Role::Member => is_meant_by(&self.text, entry.label, name),
            Role::Whole | Role::Element => false,
        }
    }

    /// The value of the object's member with this name, given as scalar values. `None` if there is none, or the value is not an
    /// object.
    #[inline(always)]
    pub fn member(&self, n: NodeId, name: &[char]) -> Option<NodeId>
        requires { n.0 < count self.now }
        ensures node { single self.now result ≡ first_where (is_named name.now) (children (node_at self.now n.0)) }
        ensures inside { IsIn self.now result }
    {
        let value = self.entry(n);
        match value.kind {
            Kind::Object => {
                if is_wide(value) {
                    return self.sought_in(n, Sought::Meant(name));
                }
                match words_of(name) {
                    Some(words) => self.first_named(n, name, Some(words)),
                    None => self.first_by_bytes(n, name),
                }
            }
            Kind::Null | Kind::Bool(_) | Kind::Number | Kind::Text | Kind::Array => None,
        }
    }

    /// The member of this name as [`Document::member`] finds it, where the value at this distance from the object is tried first. Objects of the
    /// same shape have a name at the same distance.
    #[inline(always)]
    pub fn member_near(&self, n: NodeId, name: &[char], distance: u32) -> Option<NodeId>
        requires { n.0 < count self.now }
        ensures node { single self.now result ≡ first_where (is_named name.now) (children (node_at self.now n.0)) }
        ensures inside { IsIn self.now result }
    {
        match self.member_at(n, name, distance) {
            Some(found) => Some(found),
            None => self.member_elsewhere(n, name),
        }
    }

    // `member` by a call of its own, since it is taken where the place that was tried first is another's.
    #[inline(never)]
    fn member_elsewhere(&self, n: NodeId, name: &[char]) -> Option<NodeId>
        requires { n.0 < count self.now }
        ensures node { single self.now result ≡ first_where (is_named name.now) (children (node_at self.now n.0)) }
        ensures inside { IsIn self.now result }
    {
        self.member(n, name)
    }

    // The member of this name, if it stands so many numbers behind the object.
    #[tactic(auto, using(crate::proofs::Readers::child_among, crate::proofs::Readers::root_lead, crate::proofs::Unique::only_named))]
    #[inline(always)]
    fn member_at(&self, n: NodeId, name: &[char], distance: u32) -> Option<NodeId>
        requires { n.0 < count self.now }
        ensures node { IfSome result (λ m. node_at self.now m.0 ∷ [] ≡ first_where (is_named name.now) (children (node_at self.now n.0))) }
        ensures inside { IsIn self.now result }
    {
        if distance >= self.node_count() - n.0 {
            return None;
        }
        let near = NodeId(n.0 + distance);
        if self.entry(near).up == n.0 && self.name_is(near, name) {
            Some(near)
        } else {
            None
        }
    }

    // The first of an object's members whose name means these scalar values. Names are compared by their bytes, or by words
    // where the name has any; where the bytes of one do not tell, all are looked at anew.
    #[inline(always)]
    fn first_named(&self, n: NodeId, name: &[char], words: Option<Words>) -> Option<NodeId>
        requires inside { n.0 < count self.now }
        requires object { kind_of (node_at self.now n.0).tree ≡ Kind.Object }
        requires words { IfSome words (λ words. AreWordsOf words name.now) }
        ensures node { single self.now result ≡ first_where (is_named name.now) (children (node_at self.now n.0)) }
        ensures inside { IsIn self.now result }
    {
        let object = self.entry(n);
        let end = object.after;
        let mut k = n.0 + 1;
        while k < end {
            let entry = self.entry(NodeId(k));
            match is_meant_plainly(&self.text, entry.label, name, words) {
                Some(true) => return Some(NodeId(k)),
                Some(false) => k = entry.after,
                None => return self.first_meant(n, Sought::Meant(name)),
            }
        }
        None
    }

    // The first member of a name without words, by a call of its own: its loop needs other registers.
    #[inline(never)]
    fn first_by_bytes(&self, n: NodeId, name: &[char]) -> Option<NodeId>
        requires inside { n.0 < count self.now }
        requires object { kind_of (node_at self.now n.0).tree ≡ Kind.Object }
        ensures node { single self.now result ≡ first_where (is_named name.now) (children (node_at self.now n.0)) }
        ensures inside { IsIn self.now result }
    {
        self.first_named(n, name, None)
    }

    // The first member whose name means the one that is sought.
    #[inline(never)]
    fn first_meant(&self, n: NodeId, sought: Sought<'_>) -> Option<NodeId>
        requires inside { n.0 < count self.now }
        requires object { kind_of (node_at self.now n.0).tree ≡ Kind.Object }
        ensures node { single self.now result ≡ first_where (is_named (sought_name sought.entry)) (children (node_at self.now n.0)) }
        ensures inside { IsIn self.now result }
    {
        let object = self.entry(n);
        let end = object.after;
        let mut next = n.0 + 1;
        while next < end {
            let entry = self.entry(NodeId(next));
            if is_sought(&self.text, entry.label, sought) {
                return Some(NodeId(next));
            }
            next = entry.after;
        }
        None
    }

    // The member that is sought in a wide object, by halving.
    #[inline(never)]
    fn sought_in(&self, n: NodeId, sought: Sought<'_>) -> Option<NodeId>
        requires inside { n.0 < count self.now }
        requires object { kind_of (node_at self.now n.0).tree ≡ Kind.Object }
        ensures node { single self.now result ≡ first_where (is_named (sought_name sought.entry)) (children (node_at self.now n.0)) }
        ensures inside { IsIn self.now result }
    {
        match self.run(n) {
            None => self.first_meant(n, sought),
            Some((words, factor)) => {
                match member_in(&self.text, &self.tape, words, factor, sought) {
                    Some(number) => Some(NodeId(number)),
                    None => None,
                }
            }
        }
    }

    /// The value of the object's member with the same name as this member of another object. `None` if there is none, or the value
    /// is not an object.
    pub fn twin(&self, n: NodeId, other: &Document, m: NodeId) -> Option<NodeId>
        requires inside { n.0 < count self.now }
        requires member { m.0 < count other.now }
        requires named { HasName (node_at other.now m.0) }
        ensures node { (name : List ℕ) → IsMember name (node_at other.now m.0) → single self.now result ≡ first_where (is_named name) (children (node_at self.now n.0)) }
        ensures inside { IsIn self.now result }
    {
        let value = self.entry(n);
        match value.kind {
            Kind::Object => self.sought_in(n, Sought::Spelt(other.name_inside(m))),
            Kind::Null | Kind::Bool(_) | Kind::Number | Kind::Text | Kind::Array => None,
        }
    }

    // What stands between the quotes of a member's name.
    #[tactic(auto, using(crate::proofs::Readers::member_lead, crate::proofs::Readers::member_role, json_strings::proofs::Spelled::scalars_at, json_strings::proofs::Spelled::string_short, crate::proofs::Readers::text_short))]
    fn name_inside(&self, n: NodeId) -> &str
        requires inside { n.0 < count self.now }
        requires named { HasName (node_at self.now n.0) }
        ensures value { IsMember (scalars_in (chars result.now)) (node_at self.now n.0) }
        ensures short { length (scalars_in (chars result.now)) ≤ text_limit }
    {
        let name = self.entry(n).label;
        unquoted(&self.text, name)
    }

    /// The name of a member, as scalar values.
    pub fn name_scalars(&self, n: NodeId) -> Scalars<'_>
        requires inside { n.0 < count self.now }
        requires named { HasName (node_at self.now n.0) }
        ensures value { IsMember result (node_at self.now n.0) }
        ensures short { length result ≤ text_limit }
    {
        Scalars::new(self.name_inside(n))
    }

    /// The value of a string, as scalar values.
    #[tactic(auto, using(crate::proofs::Readers::string_is, json_strings::proofs::Spelled::scalars_at, json_strings::proofs::Spelled::string_short, crate::proofs::Readers::text_short))]
    pub fn string_scalars(&self, n: NodeId) -> Scalars<'_>
        requires inside { n.0 < count self.now }
        requires string { kind_of (node_at self.now n.0).tree ≡ Kind.Text }
        ensures value { result ≡ string_meaning (node_at self.now n.0).tree }
        ensures short { length result ≤ text_limit }
    {
        let string = self.entry(n).source;
        Scalars::new(unquoted(&self.text, string))
    }
}
