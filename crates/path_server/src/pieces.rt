//! The lines of hits, written in pieces.

ghost use Rattle.std.specs.Prelude.{◌≡◌, ◌≢◌, ◌<◌, ◌++◌, ℕ, List, [], OnErr, OnOk, length, map};
ghost use Rattle.std.specs.List.{All};
ghost use Rattle.std.specs.Io.KnownBytes.{Appends};
ghost use Rattle.json_tape.specs.Document.{count, node_at};
ghost use Rattle.tape_select.specs.Nodelists.{nodes_of};
ghost use Rattle.tenant_store.specs.Hits.{hit_of};
ghost use Rattle.standard_streams.specs.Fronts.{StopsShort, WritesBut};
ghost use Rattle.path_server.specs.Lines.{line_of, lines_of};

use crate::lines::write_head;
use json_tape::{Document, NodeId};
use standard_streams::{WriteFault, write_whole};
use std::alloc::{AllocError, Global};
use std::io::Write;

// At so many bytes a piece is written.
const PIECE: usize = 65_536;

/// Why lines are broken off.
#[derive(Clone, Copy)]
pub enum PieceFault {
    /// A growth was refused.
    Memory,
    /// The writer did not take a piece.
    Write(WriteFault),
}

impl From<AllocError> for PieceFault {
    fn from(_: AllocError) -> PieceFault {
        PieceFault::Memory
    }
}

impl From<WriteFault> for PieceFault {
    fn from(fault: WriteFault) -> PieceFault {
        PieceFault::Write(fault)
    }
}

// Writes what is held, and holds nothing then.
fn write_held<W: Write>(held: &mut Vec<u8>, writer: &mut W) -> Result<(), WriteFault>
    ensures written { OnOk result (WritesBut [] held.old.items (W.contents writer.old) (W.contents writer.new)) }
    ensures none { OnOk result (held.new.items ≡ []) }
    ensures short { OnErr result (StopsShort held.old.items (W.contents writer.old) (W.contents writer.new)) }
{
    write_whole(writer, held.as_slice())?;
    held.clear();
    Ok(())
}

// Holds bytes behind those that are held, or writes all of them where they make a piece. A fault leaves some of these and of what was to
// follow unwritten.
fn add<W: Write>(bytes: &[u8], held: &mut Vec<u8>, writer: &mut W) -> Result<(), PieceFault>
    ensures written { OnOk result (WritesBut held.new.items (held.old.items ++ bytes.now) (W.contents writer.old) (W.contents writer.new)) }
    ensures short { OnOk result (length held.new.items < 65536) }
    ensures front { OnErr result ((more : List ℕ) → bytes.now ++ more ≢ [] → StopsShort (held.old.items ++ (bytes.now ++ more)) (W.contents writer.old) (W.contents writer.new)) }
{
    if bytes.len() >= PIECE {
        write_held(held, writer)?;
        write_whole(writer, bytes)?;
        return Ok(());
    }
    held.extend_from_slice(bytes)?;
    if held.len() >= PIECE {
        write_held(held, writer)?;
    }
    Ok(())
}

// Holds the line of a node behind what is held, but for the pieces that are written.
fn add_line<W: Write>(
    alloc: Global,
    document: &Document,
    node: NodeId,
    held: &mut Vec<u8>,
    writer: &mut W,
) -> Result<(), PieceFault>
    requires { node.0 < count document.now }
    ensures written { OnOk result (WritesBut held.new.items (held.old.items ++ line_of (hit_of (node_at document.now node.0))) (W.contents writer.old) (W.contents writer.new)) }
    ensures short { OnOk result (length held.new.items < 65536) }
    ensures front { OnErr result (StopsShort (held.old.items ++ line_of (hit_of (node_at document.now node.0))) (W.contents writer.old) (W.contents writer.new)) }
{
    write_head(alloc, document, node, held)?;
    add(document.text(node), held, writer)?;
    add(b"\n", held, writer)
}

/// Writes the lines of nodes, in order and in pieces of some 65,536 bytes.
///
/// No more is held of them than a piece and a path; a value of a piece's length or more is written as it stands in the text.
/// Memory comes where a growth is refused, Write where the writer does not take a piece: a front of the lines is written then, and not all.
pub fn write_pieces<W: Write>(
    alloc: Global,
    document: &Document,
    nodes: &[NodeId],
    writer: &mut W,
) -> Result<(), PieceFault>
    requires { All (λ node. node.0 < count document.now) nodes.now }
    ensures written { OnOk result (Appends (W.contents writer.old) (W.contents writer.new) (lines_of (map hit_of (nodes_of document.now nodes.now)))) }
    ensures front { OnErr result (StopsShort (lines_of (map hit_of (nodes_of document.now nodes.now))) (W.contents writer.old) (W.contents writer.new)) }
{
    let mut held = Vec::new(alloc);
    for node in nodes {
        add_line(alloc, document, *node, &mut held, writer)?;
    }
    write_held(&mut held, writer)?;
    Ok(())
}
