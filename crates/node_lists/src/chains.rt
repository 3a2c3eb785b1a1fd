//! Singular queries (RFC 9535, section 2.3.5.1), followed from node to node without a list.

ghost use Rattle.std.specs.Prelude.{◌≡◌, ◌<◌, ◌∷◌, []};
ghost use Rattle.json_tape.specs.Document.{count, node_at, single, IsIn};
ghost use Rattle.json_tape.specs.Nodes.{children, is_named, first_where};
ghost use Rattle.node_lists.specs.Evaluation.{evaluated, selected_by};
ghost use Rattle.node_lists.specs.Charge.{charge_from};
ghost use Rattle.node_lists.specs.Paying.{FindsOne};
ghost use Rattle.node_lists.specs.Links.{link_selector, links_view};

use crate::fault::SelectFault;
use crate::meter::Meter;
use json_tape::{Document, NodeId};
use path_meaning::{Link, Name};
use tape_values::element;

// The member of this name. Objects that are made alike have it at one distance, so that it is looked for first where the last one was.
#[inline(always)]
fn member(doc: &Document, name: &Name, n: NodeId) -> Option<NodeId>
    requires inside { n.0 < count doc.now }
    ensures node { single doc.now result ≡ first_where (is_named name.now.scalars.items) (children (node_at doc.now n.0)) }
    ensures inside { IsIn doc.now result }
{
    let found = doc.member_near(n, &name.scalars, name.distance.get());
    if let Some(member) = found {
        name.distance.set(member.0.wrapping_sub(n.0));
    }
    found
}

/// The node that a name or an index selects.
pub fn step(doc: &Document, link: &Link, n: NodeId) -> Option<NodeId>
    requires inside { n.0 < count doc.now }
    ensures node { single doc.now result ≡ selected_by (node_at doc.now 0) (link_selector link.now) (node_at doc.now n.0) }
    ensures inside { IsIn doc.now result }
{
    match link {
        Link::Key(name) => member(doc, name, n),
        Link::Place(i) => element(doc, n, *i),
    }
}

/// The node that a singular query selects from a node, one unit for each segment that has a node to select from.
#[inline(always)]
pub fn followed(
    doc: &Document,
    links: &[Link],
    n: NodeId,
    meter: &mut Meter,
) -> Result<Option<NodeId>, SelectFault>
    requires inside { n.0 < count doc.now }
    ensures { FindsOne doc.now result (evaluated (node_at doc.now 0) (links_view links.now) (node_at doc.now n.0 ∷ [])) (charge_from (node_at doc.now 0) (links_view links.now) (node_at doc.now n.0 ∷ [])) meter.old.left meter.new.left }
{
    let mut node = n;
    for link in links {
        meter.spend(1)?;
        match step(doc, link, node) {
            None => return Ok(None),
            Some(found) => node = found,
        }
    }
    Ok(Some(node))
}
