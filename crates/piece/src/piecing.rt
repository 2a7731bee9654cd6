ghost use Rattle.std.specs.Prelude.{◌≡◌, length, IfOk};
ghost use Rattle.picture.specs.BodyOperations.{pieced_body};
ghost use Rattle.picture.specs.Lent.{lent};
ghost use Rattle.picture.specs.Operations.{four, pieced_picture};
ghost use Rattle.picture.specs.OperationStatements.{Shows};
ghost use Rattle.picture.specs.Pictures.{picture};
ghost use Rattle.picture.specs.Stored.{stored};
ghost use Rattle.compose.specs.Faults.{over_limit};
ghost use Rattle.compose.specs.Outcomes.{Outcome};
ghost use Rattle.piece.specs.Parts.{four_stored};

use crate::entries::enter_all;
use crate::parts::{Part, part_size};
use crate::rows::{write_firsts, write_lasts};
use compose::{Fault, check_limits};
use picture::{ARC_WEIGHTS, LAST_WEIGHTS, Quadrant, Record, Stored};
use weight::Weight;

/// The piecing of four bodies, for the quadrants 0 to 3.
// The length is a clause, and no array type: memory is lent as one slice and cut while the program runs.
pub fn piece<W: Weight>(
    a: Stored<'_, W>,
    b: Stored<'_, W>,
    c: Stored<'_, W>,
    d: Stored<'_, W>,
    out: &mut [W],
) -> Result<Record, Fault>
    requires room { length out.old ≡ 640 }
    ensures body { Outcome (over_limit (pieced_body W.kind (four_stored a.entry b.entry c.entry d.entry))) (pieced_body W.kind (four_stored a.entry b.entry c.entry d.entry)) out.old out.new result }
    ensures shows { IfOk result (λ p. Shows W.kind (stored p out.new) (pieced_picture W.kind (four (picture W.kind (lent a.entry)) (picture W.kind (lent b.entry)) (picture W.kind (lent c.entry)) (picture W.kind (lent d.entry))))) }
{
    let parts = [
        Part {
            quadrant: Quadrant::UpperLeft,
            body: a,
        },
        Part {
            quadrant: Quadrant::UpperRight,
            body: b,
        },
        Part {
            quadrant: Quadrant::LowerLeft,
            body: c,
        },
        Part {
            quadrant: Quadrant::LowerRight,
            body: d,
        },
    ];
    let n = 1 + (a.states() + b.states() + (c.states() + d.states()));
    let m = part_size(a) + part_size(b) + (part_size(c) + part_size(d));
    check_limits(n, m)?;
    write_firsts(&mut out[0..n]);
    write_lasts(&parts, &mut out[LAST_WEIGHTS..LAST_WEIGHTS + n]);
    let mut record = *a.record;
    let all = &mut record.arcs[..];
    enter_all(
        &parts,
        1,
        &mut all[0..m],
        &mut out[ARC_WEIGHTS..ARC_WEIGHTS + m],
    );
    record.states = n as u8;
    record.count = m as u16;
    Ok(record)
}
