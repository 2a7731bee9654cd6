ghost use Rattle.std.specs.Prelude.{◌≡◌, ◌<◌, length};
ghost use Rattle.std.specs.List.{zip, range_with_len, AllByRecursion};
ghost use Rattle.picture.specs.Steps.{gathered, stepped, at_state};
ghost use Rattle.weight.specs.Sums.{total};

use picture::{Arc, Quadrant};
use weight::Weight;

// Slices of arcs and of weights, and no `Stored`: who takes a row through arcs need not have a record.

/// One entry of a row times the digit's matrix: the sum, over the arcs that reach state `q` with the digit, of the
/// row's weight at the arc's start times the arc's.
fn gather<W: Weight>(arcs: &[Arc], weights: &[W], row: &[W], quadrant: Quadrant, q: usize) -> W
    requires { AllByRecursion (λ e. e.0.from < length row.now) (zip arcs.now weights.now) }
    ensures { result ≡ gathered W.kind (zip arcs.now weights.now) (at_state W.kind row.now) quadrant q }
{
    let mut sum = W::zero();
    for (arc, weight) in arcs.iter().zip(weights) {
        if arc.to as usize == q && arc.quadrant == quadrant {
            sum = sum.plus(row[arc.from as usize].times(*weight));
        }
    }
    sum
}

/// A row times the digit's matrix.
pub fn advance<W: Weight>(
    arcs: &[Arc],
    weights: &[W],
    row: &[W],
    quadrant: Quadrant,
    next: &mut [W],
)
    requires { AllByRecursion (λ e. e.0.from < length row.now) (zip arcs.now weights.now) }
    ensures { next.new ≡ stepped W.kind (zip arcs.now weights.now) (length next.old) row.now quadrant }
{
    for (q, entry) in next.iter_mut().enumerate() {
        *entry = gather(arcs, weights, row, quadrant, q);
    }
}

/// A row times a column.
// That they are equally long is a fact of two slices, and of no one type.
pub fn meet<W: Weight>(row: &[W], column: &[W]) -> W
    requires { length row.now ≡ length column.now }
    ensures { result ≡ total W.kind (range_with_len 0 (length row.now)) (λ q. W.kind.times (at_state W.kind row.now q) (at_state W.kind column.now q)) }
{
    let mut sum = W::zero();
    for (weight, other) in row.iter().zip(column) {
        sum = sum.plus(weight.times(*other));
    }
    sum
}
