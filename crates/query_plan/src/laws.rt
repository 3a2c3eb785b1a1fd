//! What follows from the definitions: each function does nothing, and its contract is the law.
ghost use Rattle.query_plan.specs.Laws.{FindsSlots, FollowsLinks, MeansConditions};

/// A decided condition is charged its side as often as it is written. Operands in parts hold and are charged as they do in a row.
pub fn means_conditions()
    ensures { MeansConditions }
{}

/// A query is evaluated and charged as its names and indexes are, and then the segments behind them.
pub fn follows_links()
    ensures { FollowsLinks }
{}

/// Slots that are numbered in order are found under their numbers.
pub fn finds_slots()
    ensures { FindsSlots }
{}
