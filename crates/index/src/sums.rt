ghost use Rattle.std.specs.Prelude.{◌≡◌, ℕ, ◌<◌, length, slice_index};
ghost use Rattle.weight.specs.Sums.{total};

use weight::Weight;

/// The sum of what a function gives at each of some places.
pub(crate) fn sum_at<W: Weight, F: Fn(usize) -> W>(places: &[u16], term: F) -> W
    requires { (j : ℕ) → j < length places.now → F.pre term (slice_index places.now j) }
    ensures { (f : ℕ → W) → ((j : ℕ) (w : W) → j < length places.now → F.post term (slice_index places.now j) w → w ≡ f (slice_index places.now j)) → result ≡ total W.kind places.now f }
{
    // A rule of the project: a sum over arcs is a `for` over them in the kind's sum.
    let mut found = W::zero();
    for place in places {
        found = found.plus(term(*place as usize));
    }
    found
}
