//! Which requests may take long.
ghost use Rattle.std.specs.Prelude.{◌≡◌, false, length, nat_lt};
ghost use Rattle.std.specs.Option.{option_map_or};
ghost use Rattle.request_replies.specs.Tenants.{map_of};
ghost use Rattle.tenant_map.specs.Maps.{documents_of};
ghost use Rattle.wire_frames.specs.Readings.{asked_of};
ghost use Rattle.hub_core.specs.Long.{holds_long, is_long_for};

use store_names::{CollName, DocName};
use tenant_map::{Tenant, Tenants};
use wire_frames::{Command, Request};

/// The bytes of a text above which it takes long to give or to free.
const LONG_TEXT: usize = 65_536;

/// The names of a list above which it takes long to give.
const LONG_LIST: usize = 500;

/// Whether a request may take long, but for the length of its body.
pub(crate) fn is_long_for(tenants: &Tenants, request: &Request<'_>) -> bool
    ensures { result ≡ option_map_or (is_long_for (asked_of request.now.command)) (map_of request.now.key tenants.now) false }
{
    match tenants.place_of(&request.key) {
        Some(place) => is_long_in(tenants.tenant(place), request.command),
        None => false,
    }
}

// A tenant's command.
fn is_long_in(tenant: &Tenant, command: Command<'_>) -> bool
    ensures { result ≡ is_long_for (asked_of command.entry) tenant.now }
{
    match command {
        Command::Put {
            collection,
            document,
            text: _,
        } => holds_long(tenant, collection, document),
        Command::Get {
            collection,
            document,
        } => holds_long(tenant, collection, document),
        Command::Remove {
            collection,
            document,
        } => holds_long(tenant, collection, document),
        Command::List { collection } => lists_long(tenant, collection),
        Command::Query { .. } => true,
        Command::DropCollection { .. } => true,
        Command::PutNew { .. } => false,
        Command::Usage => false,
    }
}

// Whether a text is there that takes long to give or to free.
fn holds_long(tenant: &Tenant, collection: CollName<'_>, document: DocName<'_>) -> bool
    ensures { result ≡ holds_long collection.entry.bytes.now document.entry.bytes.now tenant.now }
{
    match tenant.get(collection, document) {
        Ok(text) => text.len() > LONG_TEXT,
        Err(_) => false,
    }
}

fn lists_long(tenant: &Tenant, collection: CollName<'_>) -> bool
    ensures { result ≡ nat_lt 500 (length (documents_of collection.entry.bytes.now tenant.now)) }
{
    match tenant.documents(collection) {
        Some(documents) => documents.len() > LONG_LIST,
        None => false,
    }
}
