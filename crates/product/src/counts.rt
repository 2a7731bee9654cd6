ghost use Rattle.std.specs.Prelude.{◌≡◌, ◌≤◌, length};
ghost use Rattle.product.specs.Counts.{tally, matches};

use picture::{Arc, Quadrant};

/// How many arcs have a digit.
fn count(arcs: &[Arc], quadrant: Quadrant) -> usize
    ensures number { result ≡ tally quadrant arcs.now }
    ensures few { result ≤ length arcs.now }
{
    // A loop, and no `filter` and `count`: they take half as long again.
    let mut n: usize = 0;
    for arc in arcs {
        if quadrant == arc.quadrant {
            n += 1;
        }
    }
    n
}

/// How many pairs of arcs have one digit.
// At most 512 arcs is a clause: callers have theirs as a plain slice.
pub(crate) fn count_matches(arcs: &[Arc], others: &[Arc]) -> usize
    requires left { length arcs.now ≤ 512 }
    requires right { length others.now ≤ 512 }
    ensures { result ≡ matches arcs.now others.now }
{
    // Four terms: a loop would first write the four quadrants into an array, and then add by hand.
    count(arcs, Quadrant::UpperLeft) * count(others, Quadrant::UpperLeft)
        + count(arcs, Quadrant::UpperRight) * count(others, Quadrant::UpperRight)
        + count(arcs, Quadrant::LowerLeft) * count(others, Quadrant::LowerLeft)
        + count(arcs, Quadrant::LowerRight) * count(others, Quadrant::LowerRight)
}
