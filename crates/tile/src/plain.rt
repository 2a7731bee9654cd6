//! One cell, by taking the first row along its address.
ghost use Rattle.std.specs.Prelude.{◌≡◌, length};
ghost use Rattle.picture.specs.Lent.{lent};
ghost use Rattle.picture.specs.Pictures.{picture};
ghost use Rattle.picture.specs.Steps.{carried};

use picture::{MAX_STATES, Quadrant, Stored};
use steps::{advance, meet};
use weight::Weight;

/// Takes a row along an address; `next` is room for one row.
// That the lengths agree is a fact of two slices, and of no one type.
fn travel<W: Weight>(body: Stored<'_, W>, address: &[Quadrant], row: &mut [W], next: &mut [W])
    requires row { length row.old ≡ (lent body).states }
    requires next { length next.old ≡ length row.old }
    ensures { row.new ≡ carried W.kind (lent body.entry).arcs (length row.old) address.now row.old }
{
    let arcs = body.arcs();
    let weights = body.arc_weights();
    for quadrant in address {
        advance(arcs, weights, row, *quadrant, next);
        row.copy_from_slice(next);
    }
}

/// The cell of a body at an address; `scratch` is room for two rows.
// The length is a clause, and no array type: memory is lent as one slice and cut while the program runs.
pub fn cell<W: Weight>(body: Stored<'_, W>, address: &[Quadrant], scratch: &mut [W]) -> W
    requires scratch { length scratch.old ≡ 128 }
    ensures { result ≡ picture W.kind (lent body.entry) address.now }
{
    let (first, second) = scratch.split_at_mut(MAX_STATES);
    let row = &mut first[0..body.states()];
    let next = &mut second[0..body.states()];
    row.copy_from_slice(body.first());
    travel(body, address, row, next);
    meet(row, body.last())
}
