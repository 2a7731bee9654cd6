//! What follows from the contract of `read`, each theorem as the contract of a function that does nothing.
ghost use Rattle.recipe.specs.Laws.{OneTree, CountedText, OneAnswer, AcceptedExactly, StepsCarry, StepsAgree};

/// A text has at most one tree.
pub fn one_tree()
    ensures { OneTree }
{}

/// The bytes at which the limits are counted are those of the text.
pub fn counted_text()
    ensures { CountedText }
{}

/// `read` has one answer that it may give.
pub fn one_answer()
    ensures { OneAnswer }
{}

/// A script is accepted exactly if it is the text of a tree within the limits.
pub fn accepted_exactly()
    ensures { AcceptedExactly }
{}

/// The steps of an accepted script can be carried out with at most six waiting pictures, and leave none.
pub fn steps_carry()
    ensures { StepsCarry }
{}

/// Carrying out the steps of a script does what its lines say, whatever the operations are.
pub fn steps_agree<V, E>()
    ensures { StepsAgree V E }
{}
