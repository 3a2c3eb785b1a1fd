//! The lines of hits and names.

ghost use Rattle.std.specs.Prelude.{◌≡◌, ◌++◌, map, string_bytes, IfErr, IfOk, IsOk, IsUtf8, OnOk};
ghost use Rattle.json.specs.Print.{quoted};
ghost use Rattle.client_frames.specs.Readings.{found_of, name_of};
ghost use Rattle.client_lines.specs.Lines.{AreUtf8, RefusesHits, RefusesPath, documents_of, hit_line, hit_lines, json_line, json_lines, name_lines};

use crate::documents::LineFault;
use crate::pieces::{append_all, append_blanked};
use client_frames::Hit;
use serde_json::json;
use std::alloc::{AllocError, Global};
use store_names::DocName;

/// Appends the line of a hit.
pub fn append_hit(hit: &Hit<'_>, out: &mut Vec<u8>) -> Result<(), AllocError>
    ensures { OnOk result (out.new.items ≡ out.old.items ++ hit_line (found_of hit.now)) }
{
    append_all(
        &[hit.document.bytes, b"\t", hit.path, b"\t", hit.value, b"\n"],
        out,
    )
}

/// Appends a line for each hit: the document, a tab, the path, a tab and the value. A value with line feeds takes several lines.
pub fn append_hits(hits: &[Hit<'_>], out: &mut Vec<u8>) -> Result<(), AllocError>
    ensures { OnOk result (out.new.items ≡ out.old.items ++ hit_lines (map found_of hits.now)) }
{
    for hit in hits {
        append_hit(hit, out)?;
    }
    Ok(())
}

/// A text as a JSON string.
fn quote(alloc: Global, text: &str) -> Result<String, AllocError>
    ensures { IfOk result (λ s. string_bytes s ≡ quoted text.now) }
{
    json!(in alloc; text)?.to_string(alloc)
}

/// Appends the line of a hit as an object of JSON.
#[tactic(auto, unfolding(crate::specs::Lines::json_line))]
pub fn append_json_hit(alloc: Global, hit: &Hit<'_>, out: &mut Vec<u8>) -> Result<(), LineFault>
    ensures line { OnOk result (out.new.items ≡ out.old.items ++ json_line (found_of hit.now)) }
    ensures utf8 { IsOk result → IsUtf8 hit.now.path.now }
    ensures refused { IfErr result (λ fault. RefusesPath hit.now.path.now fault) }
{
    let Ok(path) = simdutf8::basic::from_utf8(hit.path) else {
        return Err(LineFault::NotUtf8);
    };
    let path = quote(alloc, path)?;
    append_all(
        &[
            b"{\"document\":\"",
            hit.document.bytes,
            b"\",\"path\":",
            path.as_bytes(),
            b",\"value\":",
        ],
        out,
    )?;
    append_blanked(hit.value, out)?;
    Ok(out.extend_from_slice(b"}\n")?)
}

/// Appends a line for each hit: a JSON object with the members `document`, `path` and `value`. The value is as in the text, with blanks for
/// line feeds.
///
/// # Errors
///
/// NotUtf8 only if a path is not UTF-8, Memory if an allocation failed.
#[tactic(auto, using(crate::proofs::Paths::passed_hit, crate::proofs::Paths::refused_hit))]
pub fn append_json_hits(alloc: Global, hits: &[Hit<'_>], out: &mut Vec<u8>) -> Result<(), LineFault>
    ensures lines { OnOk result (out.new.items ≡ out.old.items ++ json_lines (map found_of hits.now)) }
    ensures utf8 { IsOk result → AreUtf8 (map found_of hits.now) }
    ensures refused { IfErr result (λ fault. RefusesHits (map found_of hits.now) fault) }
{
    for hit in hits {
        if let Err(fault) = append_json_hit(alloc, hit, out) {
            return Err(fault);
        }
    }
    Ok(())
}

/// Appends a line for each name.
pub fn append_names(names: &[DocName<'_>], out: &mut Vec<u8>) -> Result<(), AllocError>
    ensures { OnOk result (out.new.items ≡ out.old.items ++ name_lines (map name_of names.now)) }
{
    for name in names {
        append_all(&[name.bytes, b"\n"], out)?;
    }
    Ok(())
}

/// The documents of hits, each once: in a reply, the hits of a document stand behind one another.
#[tactic(auto, unfolding(crate::specs::Lines::documents_behind))]
pub fn documents_of<'a>(alloc: Global, hits: &[Hit<'a>]) -> Result<Vec<DocName<'a>>, AllocError>
    ensures { IfOk result (λ names. map name_of names.items ≡ documents_of (map found_of hits.now)) }
{
    let mut names = Vec::new(alloc);
    let mut last: &[u8] = b"";
    for hit in hits {
        if hit.document.bytes != last {
            last = hit.document.bytes;
            names.push(hit.document)?;
        }
    }
    Ok(names)
}
