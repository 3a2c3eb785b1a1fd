//! What follows from the definitions: each function does nothing, and its contract is the law.
ghost use Rattle.open_connections.specs.Laws.{JoinsStates, JoinsSteps, PassesTurns};

use connection_turns::LoopCore;

/// A step of a loop is the same step if nothing changes before it or behind it.
pub fn steps_join<C: LoopCore>()
    ensures { JoinsSteps C.steps }
{}

/// States of connections that stay twice stay, and so do those of all but one. The latter stay if all do.
pub fn states_join<S, C, T>()
    ensures { JoinsStates S C T }
{}

/// If one connection is woken, nobody is forgotten. A turn that is had is passed.
pub fn turns_pass<S, C, T>()
    ensures { PassesTurns S C T }
{}
