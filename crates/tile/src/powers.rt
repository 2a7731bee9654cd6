//! Powers of two and four.
ghost use Rattle.std.specs.Prelude.{◌≡◌, ◌^◌, ◌≤◌};

/// The side of a tile: 2 to its depth.
pub(crate) fn side(depth: u8) -> usize
    requires { depth ≤ 6 }
    ensures { result ≡ 2 ^ depth }
{
    1 << depth
}

/// How many addresses of so many digits there are: 4 to that number.
pub(crate) fn power(digits: u8) -> usize
    requires { digits ≤ 12 }
    ensures { result ≡ 4 ^ digits }
{
    1 << (2 * digits)
}
