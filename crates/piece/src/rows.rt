ghost use Rattle.std.specs.Prelude.{◌≡◌, ◌+◌, ◌-◌, ◌<◌, ◌∷◌, map, length, replicate};
ghost use Rattle.std.specs.List.{flat_map};
ghost use Rattle.picture.specs.BodyOperations.{states_of};
ghost use Rattle.picture.specs.Operations.{whole_value};
ghost use Rattle.piece.specs.Parts.{filled};

use crate::parts::Part;
use crate::whole::whole_value;
use weight::Weight;

/// One for the new state, then zeros.
pub(crate) fn write_firsts<W: Weight>(out: &mut [W])
    requires { 0 < length out.old }
    ensures { out.new ≡ W.kind.one ∷ replicate (length out.old - 1) W.kind.zero }
{
    let zero = W::zero();
    out.fill_with(|| zero);
    out[0] = W::one();
}

/// The last weights of parts, one part after the other.
fn join_lasts<W: Weight>(parts: &[Part<'_, W>], out: &mut [W])
    requires { length out.old ≡ states_of (map filled parts.now) }
    ensures { out.new ≡ flat_map (λ p. p.1.last) (map filled parts.now) }
{
    if let [part, rest @ ..] = parts {
        let (front, back) = out.split_at_mut(part.body.states());
        front.copy_from_slice(part.body.last());
        join_lasts(rest, back);
    }
}

/// The last weight of the new state, then those of the parts.
pub(crate) fn write_lasts<W: Weight>(parts: &[Part<'_, W>], out: &mut [W])
    requires { length out.old ≡ 1 + states_of (map filled parts.now) }
    ensures { out.new ≡ whole_value W.kind ∷ flat_map (λ p. p.1.last) (map filled parts.now) }
{
    out[0] = whole_value();
    join_lasts(parts, &mut out[1..]);
}
