//! How long the reply to what waits first on a connection may be, and whether it may take long.

ghost use Rattle.std.specs.Prelude.{◌≡◌, ◌≤◌, ◌+◌, ℕ, List, Some, false, length};
ghost use Rattle.std.specs.Option.{option_map_or};
ghost use Rattle.wire_frames.specs.Frames.{front};
ghost use Rattle.wire_frames.specs.Readings.{asked_of};
ghost use Rattle.tenant_map.specs.Maps.{text_at, documents_of};
ghost use Rattle.tenant_map.specs.Listings.{listing};
ghost use Rattle.request_replies.specs.Tenants.{map_of};
ghost use Rattle.hub_core.specs.Long.{is_long_to};
ghost use Rattle.hub_core.specs.Replies.{body_at, IsMostFor, IsMostBy, IsMostTo};

use crate::long::is_long_for;
use crate::needs::body_of;
use request_replies::{SHORT_REPLY, places_are_served};
use store_names::{CollName, DocName, LENGTH_BYTES, LONGEST_DOCUMENT_NAME};
use tenant_map::{Tenant, Tenants};
use wire_frames::{Command, MOST_REPLY, Request, read_request};

/// The bytes of a reply in front of its payload.
const BEFORE_PAYLOAD: usize = LENGTH_BYTES + store_names::BEFORE_PAYLOAD as usize;

/// The bytes of a list's reply in front of the names: their number is behind the head.
const BEFORE_NAMES: usize = BEFORE_PAYLOAD + 4;

/// The most bytes of a name in it, with its length.
const LONGEST_NAME: usize = 1 + LONGEST_DOCUMENT_NAME;

/// The bytes of a body above which it takes long to read.
const LONG_BODY: usize = 4_096;

/// The most bytes of the reply to the frame or the fault that these bytes begin with, and whether it may take long, where it is whole.
pub(crate) fn weigh(tenants: &Tenants, bytes: &[u8]) -> (usize, bool)
    ensures least { 9 ≤ result.0 }
    ensures most { (body : List ℕ) → body_at (front bytes.now) ≡ Some body → IsMostTo tenants.now body result.0 }
    ensures long { result.1 ≡ option_map_or (is_long_to tenants.now) (body_at (front bytes.now)) false }
{
    match body_of(bytes) {
        Some(body) => weigh_body(tenants, body),
        None => (SHORT_REPLY, false),
    }
}

// The most bytes of the reply to a body, and whether to answer it may take long.
fn weigh_body(tenants: &Tenants, body: &[u8]) -> (usize, bool)
    ensures least { 9 ≤ result.0 }
    ensures most { IsMostTo tenants.now body.now result.0 }
    ensures long { result.1 ≡ is_long_to tenants.now body.now }
{
    places_are_served();
    let is_long = body.len() > LONG_BODY;
    match read_request(body) {
        Ok(request) => (
            most_for(tenants, &request),
            is_long | is_long_for(tenants, &request),
        ),
        Err(_) => (SHORT_REPLY, is_long),
    }
}

// The most bytes of the reply to a request.
fn most_for(tenants: &Tenants, request: &Request<'_>) -> usize
    ensures least { 9 ≤ result }
    ensures most { IsMostBy (asked_of request.now.command) (map_of request.now.key tenants.now) result }
{
    match tenants.place_of(&request.key) {
        Some(place) => most_by(tenants.tenant(place), request.command),
        None => SHORT_REPLY,
    }
}

// The most bytes of the reply to a tenant's command that is done.
fn most_by(tenant: &Tenant, command: Command<'_>) -> usize
    ensures least { 9 ≤ result }
    ensures most { IsMostFor (asked_of command.entry) tenant.now result }
{
    match command {
        Command::Get {
            collection,
            document,
        } => most_text(tenant, collection, document),
        Command::List { collection } => most_list(tenant, collection),
        Command::Query { .. } => MOST_REPLY,
        Command::Put { .. }
        | Command::PutNew { .. }
        | Command::Remove { .. }
        | Command::DropCollection { .. }
        | Command::Usage => SHORT_REPLY,
    }
}

// The bytes of the reply with a text.
fn most_text(tenant: &Tenant, collection: CollName<'_>, document: DocName<'_>) -> usize
    ensures least { 9 ≤ result }
    ensures exact { (text : List ℕ) → text_at collection.entry.bytes.now document.entry.bytes.now tenant.now ≡ Some text → 9 + length text ≡ result }
{
    match tenant.get(collection, document) {
        Ok(text) => BEFORE_PAYLOAD + text.len(),
        Err(_) => SHORT_REPLY,
    }
}

// The most bytes of a list's reply.
fn most_list(tenant: &Tenant, collection: CollName<'_>) -> usize
    ensures { 9 + length (listing (documents_of collection.entry.bytes.now tenant.now)) ≤ result }
{
    // no collection has more documents than the tenant, whose quota is small
    let all = tenant.usage().documents as usize;
    match tenant.documents(collection) {
        Some(documents) => BEFORE_NAMES + documents.len().min(all) * LONGEST_NAME,
        None => BEFORE_NAMES,
    }
}
