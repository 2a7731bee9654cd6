ghost use Rattle.std.specs.Prelude.{◌<◌};

mod kind;

/// A number modulo 65,536.
#[derive(Clone, Copy, Debug, PartialEq, Eq)]
pub struct Grey {
    level: u16,
    ghost fits: { level < 65536 },
}
