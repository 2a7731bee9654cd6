ghost use Rattle.std.specs.Prelude.{◌<◌};

mod kind;

/// A number that stops at 16,777,215, in three bytes, so that there is no larger one.
#[derive(Clone, Copy, Debug, PartialEq, Eq)]
pub struct Height {
    high: u8,
    middle: u8,
    low: u8,
    ghost fits: { (high < 256) × (middle < 256) × (low < 256) },
}
