ghost use Rattle.std.specs.Prelude.{◌≡◌, length};
ghost use Rattle.picture.specs.BodyOperations.{unturned, turned_body};
ghost use Rattle.picture.specs.Lent.{lent};
ghost use Rattle.picture.specs.Operations.{turned_picture};
ghost use Rattle.picture.specs.OperationStatements.{Shows};
ghost use Rattle.picture.specs.Pictures.{picture};
ghost use Rattle.picture.specs.Stored.{stored, Kept};

use crate::digits::displace;
use picture::{Quadrant, Record, Stored};
use weight::Weight;

/// Where a clockwise quarter turn takes a quadrant.
pub(crate) fn turn_quadrant(quadrant: Quadrant) -> Quadrant
    ensures { result ≡ unturned quadrant }
{
    match quadrant {
        Quadrant::UpperLeft => Quadrant::UpperRight,
        Quadrant::UpperRight => Quadrant::LowerRight,
        Quadrant::LowerLeft => Quadrant::UpperLeft,
        Quadrant::LowerRight => Quadrant::LowerLeft,
    }
}

/// The body turned clockwise by a quarter.
// The length is a clause, and no array type: memory is lent as one slice and cut while the program runs.
pub fn turn<W: Weight>(a: Stored<'_, W>, out: &mut [W]) -> Record
    requires room { length out.old ≡ 640 }
    ensures body { stored result out.new ≡ turned_body (lent a.entry) }
    ensures kept { Kept result }
    ensures shows { Shows W.kind (stored result out.new) (turned_picture (picture W.kind (lent a.entry))) }
{
    displace(a, turn_quadrant, out)
}
