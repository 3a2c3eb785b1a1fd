//! What the steps of a loop over one hub amount to. Each function does nothing, and its contract is the law.
ghost use Rattle.hub_server.specs.Looping.{JoinsRounds, LoopIsServed};

use hub_core::{turns_are_served, wires_show_their_events};

/// A loop over one hub may accept connections, give them turns and close them in any order. Each turn is then one of those of
/// [`turns_are_served`], on the same connection and with the same output, which follows from the contracts of the loop's turns alone. So the
/// bytes written to the stream of a connection that was accepted and stays open are a prefix of the hub's replies. These answer the first requests in
/// the bytes read of it, in order, as far as the stream shows its bytes. Each tenant's replies are those of its own requests alone.
pub fn loop_is_served()
    ensures { LoopIsServed }
{
    turns_are_served();
    wires_show_their_events();
}

/// Rounds that follow one another are served as one round is, and so is no round at all. A caller of [`step`](crate::step) has what one round promises
/// of all its rounds together. The bytes written to a connection that was accepted in any of them and is served at the end are a prefix of the
/// replies to its requests.
pub fn rounds_join()
    ensures { JoinsRounds }
{
    turns_are_served();
    wires_show_their_events();
}
