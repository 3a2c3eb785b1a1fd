//! That each request has an answer: the function does nothing, and its contract is the law.
ghost use Rattle.answer_law.specs.Law.{BodiesAreAnswered, ListsAreAnswered};

/// From each map of accepted texts, each body of a request has a reply, and a map of accepted texts after it. So each list of bodies has
/// replies from the empty map. [`request_replies::told_once`] says that there is at most one answer.
pub fn bodies_are_answered()
    ensures one { BodiesAreAnswered }
    ensures all { ListsAreAnswered }
{}
