//! Theorems about pictures and bodies, each as the contract of a function that does nothing.
ghost use Rattle.picture.specs.OperationStatements.{SoundResults, Sums, Products, Turns, Mirrors, Zooms, Piecings};
ghost use Rattle.picture.specs.PictureLaws.{PictureLaws};
ghost use Rattle.picture.specs.Statements.{RowsByArcs, ColumnsByArcs, MeetInTheMiddle};

use weight::Weight;

/// A row times a digit's matrix goes by the arcs that reach a state, and the matrix times a column by those that leave.
pub fn steps_by_arcs<W: Weight>()
    ensures rows { RowsByArcs {W = W} W.kind }
    ensures columns { ColumnsByArcs {W = W} W.kind }
{}

/// The picture at one address behind another is a row times a column.
pub fn meet_in_the_middle<W: Weight>()
    ensures { MeetInTheMiddle {W = W} W.kind }
{}

/// Each operation on bodies has the picture of the operation on pictures; products do on kinds that exchange.
pub fn operations_stand<W: Weight>()
    ensures sound { SoundResults {W = W} W.kind }
    ensures sums { Sums {W = W} W.kind }
    ensures products { Products {W = W} W.kind }
    ensures turns { Turns {W = W} W.kind }
    ensures mirrors { Mirrors {W = W} W.kind }
    ensures zooms { Zooms {W = W} W.kind }
    ensures piecings { Piecings {W = W} W.kind }
{}

/// The laws of the operations on pictures; those of products on kinds that exchange.
pub fn picture_laws_stand<W: Weight>()
    ensures { PictureLaws {W = W} W.kind }
{}
