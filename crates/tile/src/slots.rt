//! Rows and columns laid out one after the other.
ghost use Rattle.std.specs.Prelude.{◌≡◌, ◌+◌, ◌*◌, ◌≤◌, length};
ghost use Rattle.tile.specs.Bands as bands;

/// The `i`-th of equally long rows or columns, of `n` weights each.
// The weights and how long a row is are two parameters: a struct of them, at three calls, is no shorter.
pub(crate) fn slot<W>(weights: &[W], i: usize, n: usize) -> &[W]
    requires { i * n + n ≤ length weights.now }
    ensures { result.now ≡ bands.slot n i weights.now }
{
    &weights[i * n..i * n + n]
}
