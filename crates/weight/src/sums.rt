ghost use Rattle.std.specs.Prelude.{◌≡◌};
ghost use Rattle.weight.specs.Sums.{SumLaws};
ghost use Rattle.weight.specs.Sums as sums;

use crate::kind::Weight;

// Two loops: one fold for both would be handed its operation, and promise in more words what these two do.
/// The sum of a row of weights.
pub fn total<W: Weight>(weights: &[W]) -> W
    ensures { result ≡ sums.total W.kind weights.now (λ w. w) }
{
    let mut sum = W::zero();
    for weight in weights {
        sum = sum.plus(*weight);
    }
    sum
}

/// The product of a row of weights, in their order.
pub fn product<W: Weight>(weights: &[W]) -> W
    ensures { result ≡ sums.product W.kind weights.now }
{
    let mut factors = W::one();
    for weight in weights {
        factors = factors.times(*weight);
    }
    factors
}

/// Two sums may be exchanged, and a factor distributes over a sum.
pub fn sum_laws<W: Weight, A, B>()
    ensures { SumLaws {W = W} W.kind A B }
{}
