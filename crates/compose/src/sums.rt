ghost use Rattle.std.specs.Prelude.{◌≡◌, length, IfOk};
ghost use Rattle.picture.specs.BodyOperations.{sum_body};
ghost use Rattle.picture.specs.Lent.{lent};
ghost use Rattle.picture.specs.Operations.{sum_picture};
ghost use Rattle.picture.specs.OperationStatements.{Shows};
ghost use Rattle.picture.specs.Pictures.{picture};
ghost use Rattle.picture.specs.Stored.{stored};
ghost use Rattle.compose.specs.Faults.{over_limit};
ghost use Rattle.compose.specs.Outcomes.{Outcome};

use crate::limits::{Fault, check_limits};
use crate::lists::{join, raise};
use picture::{ARC_WEIGHTS, LAST_WEIGHTS, Record, Stored};
use weight::Weight;

/// The sum of two bodies.
// The length is a clause, and no array type: memory is lent as one slice and cut while the program runs.
pub fn add<W: Weight>(a: Stored<'_, W>, b: Stored<'_, W>, out: &mut [W]) -> Result<Record, Fault>
    requires room { length out.old ≡ 640 }
    ensures body { Outcome (over_limit (sum_body (lent a.entry) (lent b.entry))) (sum_body (lent a.entry) (lent b.entry)) out.old out.new result }
    ensures shows { IfOk result (λ c. Shows W.kind (stored c out.new) (sum_picture W.kind (picture W.kind (lent a.entry)) (picture W.kind (lent b.entry)))) }
{
    let own = a.arcs();
    let others = b.arcs();
    let n = a.states() + b.states();
    let m = own.len() + others.len();
    check_limits(n, m)?;
    join(a.first(), b.first(), &mut out[0..n]);
    join(a.last(), b.last(), &mut out[LAST_WEIGHTS..LAST_WEIGHTS + n]);
    join(
        a.arc_weights(),
        b.arc_weights(),
        &mut out[ARC_WEIGHTS..ARC_WEIGHTS + m],
    );
    // `multiply` and `piece` end so too: a function for it would take a closure for each write, and promise of the arcs
    // that they stay.
    let mut record = *a.record;
    let all = &mut record.arcs[..];
    raise(others, a.record.states, &mut all[own.len()..m]);
    record.states = n as u8;
    record.count = m as u16;
    Ok(record)
}
