//! What follows from the rules, for every written kind: each theorem as the contract of a function that does nothing.
ghost use Rattle.book.specs.Faith.{ListsFaithful};
ghost use Rattle.book.specs.Statements.{OneOutcome, AnswersLines, EnteredBack, WrittenBack, LawEqual};

use weight::Written;

/// The rules name one outcome at most for each call, and for an accepted run the number of its lines.
pub fn one_outcome<W: Written>()
    ensures one { OneOutcome {W = W} W.kind W.writing }
    ensures lines { AnswersLines {W = W} W.kind W.writing }
{}

/// Words that were entered are written back the same, and words that are written enter as the same body.
pub fn words_come_back<W: Written>()
    ensures entered { EnteredBack {W = W} W.kind W.writing }
    ensures written { WrittenBack {W = W} W.kind W.writing }
{}

/// Every list of calls on a fresh rack agrees with the book.
pub fn calls_agree_with_the_book<W: Written>()
    ensures { ListsFaithful {W = W} W.kind W.writing }
{}

/// Scripts that differ by uses of the picture laws print alike.
pub fn law_equal_scripts_print_alike<W: Written>()
    ensures { LawEqual {W = W} W.kind W.writing }
{}
