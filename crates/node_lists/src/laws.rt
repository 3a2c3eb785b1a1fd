//! What follows from the definitions: each function does nothing, and its contract is the law.
ghost use Rattle.node_lists.specs.Laws.{PaysInParts, SplitsNodes, StepsOn};

/// Selectors are charged a unit each, and more for what they go over. From a node without children they select nothing, and go over nothing.
pub fn selectors_pay_in_parts()
    ensures { PaysInParts }
{}

/// The nodes from one number up to another stand in two parts at each number between them.
pub fn numbers_split_nodes()
    ensures { SplitsNodes }
{}

/// What stands at the places of a step is the node at the first of them, and what stands at the others.
pub fn places_step_on()
    ensures { StepsOn }
{}
