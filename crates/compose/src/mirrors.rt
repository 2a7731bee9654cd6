ghost use Rattle.std.specs.Prelude.{◌≡◌, length};
ghost use Rattle.picture.specs.BodyOperations.{mirrored_body};
ghost use Rattle.picture.specs.Lent.{lent};
ghost use Rattle.picture.specs.Operations.{mirrored, mirrored_picture};
ghost use Rattle.picture.specs.OperationStatements.{Shows};
ghost use Rattle.picture.specs.Pictures.{picture};
ghost use Rattle.picture.specs.Stored.{stored, Kept};

use crate::digits::displace;
use picture::{Quadrant, Record, Stored};
use weight::Weight;

/// Where the exchange of left and right takes a quadrant.
fn mirror_quadrant(quadrant: Quadrant) -> Quadrant
    ensures { result ≡ mirrored quadrant }
{
    match quadrant {
        Quadrant::UpperLeft => Quadrant::UpperRight,
        Quadrant::UpperRight => Quadrant::UpperLeft,
        Quadrant::LowerLeft => Quadrant::LowerRight,
        Quadrant::LowerRight => Quadrant::LowerLeft,
    }
}

/// The body with left and right exchanged.
// The length is a clause, and no array type: memory is lent as one slice and cut while the program runs.
pub fn mirror<W: Weight>(a: Stored<'_, W>, out: &mut [W]) -> Record
    requires room { length out.old ≡ 640 }
    ensures body { stored result out.new ≡ mirrored_body (lent a.entry) }
    ensures kept { Kept result }
    ensures shows { Shows W.kind (stored result out.new) (mirrored_picture (picture W.kind (lent a.entry))) }
{
    displace(a, mirror_quadrant, out)
}
