//! Laws of answers over a log.

ghost use Rattle.shared_desk.specs.Laws.{IsNoOlder};

/// Proves that an answer is never of a history before that of an earlier answer, whichever machines
/// gave the two: if each history was the whole log at some instant of its call, and the second call
/// came after the first, the first history leads to the second.
pub fn is_no_older()
    ensures { IsNoOlder }
{}
