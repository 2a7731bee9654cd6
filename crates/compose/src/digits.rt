ghost use Rattle.std.specs.Prelude.{◌≡◌, map, length};
ghost use Rattle.picture.specs.BodyOperations.{redirected, redirected_body};
ghost use Rattle.picture.specs.Lent.{lent};
ghost use Rattle.picture.specs.Stored.{stored, Kept};
ghost use Rattle.compose.specs.Motions.{Computes};

use picture::{Arc, Quadrant, Record, Stored};
use weight::Weight;

/// Gives each arc the digit that its own becomes.
fn redirect<F: Fn(Quadrant) -> Quadrant>(arcs: &mut [Arc], becomes: F)
    requires { F.IsAlwaysCallable becomes }
    ensures { (g : _) → Computes (F.post becomes) g → arcs.new ≡ map (redirected g) arcs.old }
{
    for arc in arcs {
        arc.quadrant = becomes(arc.quadrant);
    }
}

/// The body with each arc's digit replaced by what it becomes: all else stays.
// The length is a clause, and no array type: memory is lent as one slice and cut while the program runs.
pub(crate) fn displace<W: Weight, F: Fn(Quadrant) -> Quadrant>(
    a: Stored<'_, W>,
    becomes: F,
    out: &mut [W],
) -> Record
    requires callable { F.IsAlwaysCallable becomes }
    requires room { length out.old ≡ 640 }
    ensures body { (g : _) → Computes (F.post becomes) g → stored result out.new ≡ redirected_body g (lent a.entry) }
    ensures kept { (g : _) → Computes (F.post becomes) g → Kept result }
{
    let mut record = *a.record;
    let all = &mut record.arcs[..];
    redirect(&mut all[0..a.arcs().len()], becomes);
    out.copy_from_slice(a.weights);
    record
}
