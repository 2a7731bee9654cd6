ghost use Rattle.std.specs.Prelude.{◌<◌};

mod kind;

/// A number that stops at 255.
#[derive(Clone, Copy, Debug, PartialEq, Eq)]
pub struct Ink {
    amount: u8,
    ghost fits: { amount < 256 },
}
