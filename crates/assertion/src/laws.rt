//! What holds of the definitions alone.

ghost use Rattle.assertion.specs.Laws.{KeepsTruthAfterChange, KeepsTruthAfterChanges, ListsBadRoots, IsFalseAtBadRoots, IsKnownUnlessSingle, NamesLeastBad, AnswersLeastBad, AnswersVerdict};

/// A root that is no candidate of a change is bad after it exactly where it was bad before, and so with a list of
/// changes that are put in one after the other.
pub fn untouched_roots_keep_their_truth()
    ensures one { KeepsTruthAfterChange }
    ensures list { KeepsTruthAfterChanges }
{}

/// The bad roots from scratch are the roots that are bad of themselves. So an assertion is false exactly where some
/// root is bad, one by rows or by groups is never unknown, and the least bad root is bad and no other is below it.
pub fn bad_roots_are_those_that_are_bad()
    ensures list { ListsBadRoots }
    ensures verdict { IsFalseAtBadRoots }
    ensures known { IsKnownUnlessSingle }
    ensures least { NamesLeastBad }
{}

/// A list in order that has exactly the bad roots answers for the assertion: its first is the least bad root, and by
/// rows or by groups the verdict is whether it is empty.
pub fn bad_roots_answer()
    ensures least { AnswersLeastBad }
    ensures verdict { AnswersVerdict }
{}
