//! The payload of a list's reply.

ghost use Rattle.std.specs.Prelude.{◌≡◌, ◌+◌, ◌*◌, ◌≤◌, ◌++◌, ◌∷◌, OnOk, OnErr, length, take};
ghost use Rattle.std.specs.BTreeMap.{btree_map_len};
ghost use Rattle.std.specs.Vec.{vec_capacity};
ghost use Rattle.std.specs.Map.{keys_of};
ghost use Rattle.tenant_map.specs.Kept.{AreKept, texts};
ghost use Rattle.tenant_map.specs.Listings.{names_listed, listing};
ghost use Rattle.tenant_map.specs.Quotas.{document_quota};

use crate::numbers::big_endian;
use json_tape::Document;
use std::alloc::AllocError;
use std::collections::BTreeMap;

// How many bytes the names take, each after its length.
fn names_length(documents: &BTreeMap<Vec<u8>, Document>) -> usize
    requires kept { AreKept documents.now.entries }
    requires few { btree_map_len documents.now ≤ document_quota }
    ensures value { result ≡ length (names_listed (keys_of (texts documents.now.entries))) }
    ensures short { result ≤ 129 * document_quota }
{
    let mut total = 0;
    for (name, _) in documents {
        total += 1 + name.len();
    }
    total
}

// Appends a name after its length; at a refusal the length may stand there.
fn append_name(name: &[u8], out: &mut Vec<u8>) -> Result<(), AllocError>
    requires { length name.now ≤ 128 }
    ensures written { OnOk result (out.new.items ≡ out.old.items ++ length name.now ∷ name.now) }
    ensures kept { take (length out.old.items) out.new.items ≡ out.old.items }
    ensures capacity { vec_capacity out.old ≤ vec_capacity out.new }
{
    out.push(name.len() as u8)?;
    out.extend_from_slice(name)
}

// Appends the names, each after its length; at a refusal a part of them may stand there.
fn append_names(
    documents: &BTreeMap<Vec<u8>, Document>,
    out: &mut Vec<u8>,
) -> Result<(), AllocError>
    requires { AreKept documents.now.entries }
    ensures written { OnOk result (out.new.items ≡ out.old.items ++ names_listed (keys_of (texts documents.now.entries))) }
    ensures kept { take (length out.old.items) out.new.items ≡ out.old.items }
    ensures capacity { vec_capacity out.old ≤ vec_capacity out.new }
{
    for (name, _) in documents {
        append_name(name, out)?;
    }
    Ok(())
}

// Appends the payload; at a refusal a part of it may stand there.
fn write_listing(
    documents: &BTreeMap<Vec<u8>, Document>,
    out: &mut Vec<u8>,
) -> Result<(), AllocError>
    requires kept { AreKept documents.now.entries }
    requires few { btree_map_len documents.now ≤ document_quota }
    ensures written { OnOk result (out.new.items ≡ out.old.items ++ listing (texts documents.now.entries)) }
    ensures short { OnOk result (length out.new.items ≤ length out.old.items + (4 + 129 * document_quota)) }
    ensures kept { take (length out.old.items) out.new.items ≡ out.old.items }
    ensures capacity { vec_capacity out.old ≤ vec_capacity out.new }
{
    let names = names_length(documents);
    out.reserve(4 + names)?;
    out.extend_from_slice(&big_endian(documents.len() as u32))?;
    append_names(documents, out)?;
    Ok(())
}

/// Appends the number of documents and their names, in key order. A refusal leaves the vector unchanged.
pub fn append_listing(
    documents: &BTreeMap<Vec<u8>, Document>,
    out: &mut Vec<u8>,
) -> Result<(), AllocError>
    requires kept { AreKept documents.now.entries }
    requires few { btree_map_len documents.now ≤ document_quota }
    ensures written { OnOk result (out.new.items ≡ out.old.items ++ listing (texts documents.now.entries)) }
    ensures short { OnOk result (length out.new.items ≤ length out.old.items + (4 + 129 * document_quota)) }
    ensures unchanged { OnErr result (out.new.items ≡ out.old.items) }
    ensures capacity { vec_capacity out.old ≤ vec_capacity out.new }
{
    let before = out.len();
    let written = write_listing(documents, out);
    if written.is_err() {
        out.truncate(before);
    }
    written
}
