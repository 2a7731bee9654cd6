ghost use Rattle.std.specs.Prelude.{◌≡◌, length};
ghost use Rattle.picture.specs.BodyOperations.{zoomed_body};
ghost use Rattle.picture.specs.Lent.{lent};
ghost use Rattle.picture.specs.Operations.{zoomed_picture};
ghost use Rattle.picture.specs.OperationStatements.{Shows};
ghost use Rattle.picture.specs.Pictures.{picture};
ghost use Rattle.picture.specs.Stored.{stored, Kept};

use picture::{Quadrant, Record, Stored};
use steps::advance;
use weight::Weight;

/// The body zoomed into a quadrant: its first row takes one step, all else stays.
// The length is a clause, and no array type: memory is lent as one slice and cut while the program runs.
pub fn zoom<W: Weight>(a: Stored<'_, W>, quadrant: Quadrant, out: &mut [W]) -> Record
    requires room { length out.old ≡ 640 }
    ensures body { stored result out.new ≡ zoomed_body W.kind quadrant (lent a.entry) }
    ensures kept { Kept result }
    ensures shows { Shows W.kind (stored result out.new) (zoomed_picture quadrant (picture W.kind (lent a.entry))) }
{
    let n = a.states();
    out.copy_from_slice(a.weights);
    advance(
        a.arcs(),
        a.arc_weights(),
        a.first(),
        quadrant,
        &mut out[0..n],
    );
    *a.record
}
