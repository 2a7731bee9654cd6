ghost use Rattle.std.specs.Prelude.{◌≤◌};

/// A square of cells that can be printed: those at a depth below a prefix of so many digits.
#[derive(Clone, Copy)]
pub(crate) struct Square {
    pub prefix: usize,
    pub digits: u8,
    pub depth: u8,
    ghost few: { digits ≤ 12 },
    ghost deep: { depth ≤ 6 },
}
