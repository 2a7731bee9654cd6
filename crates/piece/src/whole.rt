ghost use Rattle.std.specs.Prelude.{◌≡◌};
ghost use Rattle.picture.specs.Operations.{whole_value};

use weight::Weight;

/// The value of a piecing at the empty address.
pub(crate) fn whole_value<W: Weight>() -> W
    ensures { result ≡ whole_value W.kind }
{
    W::zero()
}
