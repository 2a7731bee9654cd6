ghost use Rattle.std.specs.Prelude.{◌≡◌, ⊤, length};
ghost use Rattle.std.proofs.Props.{props};
ghost use Rattle.picture.specs.Stored.{Kept};

use crate::body::Record;
use std::alloc::AllocError;

/// A body in memory: its record, and the 640 weights that the caller lends.
pub struct Stored<'a, W> {
    pub record: &'a Record,
    pub weights: &'a [W],
    ghost kept: { Kept record.now } by { Prim.hlevel props },
    ghost room: { length weights.now ≡ 640 },
}

// By hand: a derive asks for `W: Copy`, and much that holds a body has no bound on `W`.
impl<W> Clone for Stored<'_, W> {
    ghost is_clone = { λ x y. y ≡ x };

    ghost is_infallible = { λ _. ⊤ };

    fn clone(&self) -> Result<Self, AllocError> {
        Ok(*self)
    }
}

impl<W> Copy for Stored<'_, W> {}
