//! What follows from the definitions: each function does nothing, and its contract is the law.
ghost use Rattle.std.specs.Prelude.{◌≡◌, ℕ, List};
ghost use Rattle.tenant_map.specs.Maps.{Map};
ghost use Rattle.request_replies.specs.Answers.{Alone};
ghost use Rattle.request_replies.specs.Laws.{KeysApart, ServesPlaces};
ghost use Rattle.request_replies.specs.Tenants.{BodiesAreServedOnce};

use path_grammar::queries_have_one_tree;
use tenant_store::laws::{puts_answer_once, queries_answer_once};

/// A tenant's requests have one list of replies: if its requests are equal in two runs, so are its replies. Among all tenants a body has one
/// reply, unless memory runs out, and leaves the maps in one way.
pub fn told_once()
    ensures alone { (m : Map) (bodies first second : List (List ℕ)) → Alone m bodies first → Alone m bodies second → first ≡ second }
    ensures among { BodiesAreServedOnce }
{
    puts_answer_once();
    queries_answer_once();
    queries_have_one_tree();
}

/// The map that is put under a key is that key's, and no other key's. Each key begins with the empty map.
pub fn tenants_are_apart()
    ensures { KeysApart }
{}

/// What a body asks of the tenant at a place is served from the map there.
pub fn places_are_served()
    ensures { ServesPlaces }
{}
