ghost use Rattle.std.specs.Prelude.{◌≡◌, ◌≤◌};
ghost use Rattle.picture.specs.Lent.{lent};
ghost use Rattle.piece.specs.Parts.{part_size};

use picture::{Quadrant, Stored};
use weight::Weight;

/// A body in memory, with the quadrant that it fills.
#[derive(Clone, Copy)]
pub(crate) struct Part<'a, W> {
    pub quadrant: Quadrant,
    pub body: Stored<'a, W>,
}

/// How many arcs a part gives: one to each of its states, and its own.
pub(crate) fn part_size<W: Weight>(part: Stored<'_, W>) -> usize
    ensures size { result ≡ part_size (lent part.entry) }
    ensures small { result ≤ 576 }
{
    part.states() + part.arcs().len()
}
