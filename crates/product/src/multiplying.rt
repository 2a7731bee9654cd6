ghost use Rattle.std.specs.Prelude.{◌≡◌, length, IfOk};
ghost use Rattle.picture.specs.BodyOperations.{product_body};
ghost use Rattle.picture.specs.Lent.{lent};
ghost use Rattle.picture.specs.Operations.{product_picture};
ghost use Rattle.picture.specs.OperationStatements.{Shows};
ghost use Rattle.picture.specs.Pictures.{picture};
ghost use Rattle.picture.specs.Stored.{stored};
ghost use Rattle.compose.specs.Faults.{product_fault};
ghost use Rattle.compose.specs.Outcomes.{Outcome};

use crate::counts::count_matches;
use crate::pairs::{pair_arcs, pair_weights};
use compose::{Fault, check_product};
use picture::{ARC_WEIGHTS, LAST_WEIGHTS, Record, Stored};
use weight::Weight;

/// The product of two bodies, on a kind that exchanges.
// The length is a clause, and no array type: memory is lent as one slice and cut while the program runs.
pub fn multiply<W: Weight>(
    a: Stored<'_, W>,
    b: Stored<'_, W>,
    out: &mut [W],
) -> Result<Record, Fault>
    requires room { length out.old ≡ 640 }
    ensures body { Outcome (product_fault W.kind (product_body W.kind (lent a.entry) (lent b.entry))) (product_body W.kind (lent a.entry) (lent b.entry)) out.old out.new result }
    ensures shows { IfOk result (λ c. Shows W.kind (stored c out.new) (product_picture W.kind (picture W.kind (lent a.entry)) (picture W.kind (lent b.entry)))) }
{
    let n = a.states() * b.states();
    let own = a.arcs();
    let others = b.arcs();
    let m = count_matches(own, others);
    check_product::<W>(n, m)?;
    pair_weights(a.first(), b.first(), &mut out[0..n]);
    pair_weights(a.last(), b.last(), &mut out[LAST_WEIGHTS..LAST_WEIGHTS + n]);
    let mut record = *a.record;
    let all = &mut record.arcs[..];
    pair_arcs(a, b, &mut all[0..m], &mut out[ARC_WEIGHTS..ARC_WEIGHTS + m]);
    record.states = n as u8;
    record.count = m as u16;
    Ok(record)
}
