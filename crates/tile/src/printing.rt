//! Printing: the cells of a tile of a stored body, or of one row of it.
ghost use Rattle.std.specs.Prelude.{◌≡◌, ◌-◌, length, Some, MatchResult};
ghost use Rattle.picture.specs.Cells.{Printable};
ghost use Rattle.picture.specs.Lent.{lent};
ghost use Rattle.picture.specs.Pictures.{picture};
ghost use Rattle.tile.specs.Faults.{number, text};
ghost use Rattle.tile.specs.Outcomes.{Outcome, RowOutcome};
ghost use Rattle.tile.specs.declared.printing.Fault.TheVariants.{NoTile};

use crate::automaton::Automaton;
use crate::grid::Grid;
use crate::powers::{power, side};
use crate::room::GRID;
use crate::square::Square;
use picture::Stored;
use std::error::Error;
use std::fmt;
use weight::Weight;

/// The largest depth.
const MAX_DEPTH: usize = 12;

/// The largest depth of a tile.
const MAX_TILE: usize = 6;

/// A tile: the cells at a depth under a prefix of so many digits.
#[derive(Clone, Copy, Debug, PartialEq, Eq)]
pub struct Tile {
    pub depth: usize,
    pub digits: usize,
    pub prefix: usize,
}

impl Tile {
    /// The square of cells of the tile, if it can be printed.
    fn square(self) -> Result<Square, Fault>
        ensures { MatchResult result (λ square. Printable self.depth self.digits self.prefix × (square.prefix ≡ self.prefix) × (square.digits ≡ self.digits) × (square.depth ≡ self.depth - self.digits)) (λ fault. (Printable self.depth self.digits self.prefix → ⊥) × (fault ≡ NoTile)) }
    {
        if self.depth > MAX_DEPTH
            || self.digits > self.depth
            || self.depth - self.digits > MAX_TILE
            || self.prefix >= power(self.digits as u8)
        {
            return Err(Fault::NoTile);
        }
        Ok(Square {
            prefix: self.prefix,
            digits: self.digits as u8,
            depth: (self.depth - self.digits) as u8,
        })
    }
}

/// Why a tile or a row of it is not printed.
#[derive(Clone, Copy, Debug, PartialEq, Eq)]
pub enum Fault {
    /// The depth, the prefix's length and the prefix name no tile that can be printed, or it has no such row.
    NoTile,
    /// The output has no room for the cells.
    ShortOutput,
}

impl Fault {
    /// The refusal's number.
    // No `From`: `fault.number()` says which number is meant.
    pub fn number(self) -> u8
        ensures { result ≡ number self }
    {
        match self {
            Fault::NoTile => 15,
            Fault::ShortOutput => 16,
        }
    }
}

// By hand: what a derive of `thiserror` writes promises nothing of the text.
impl fmt::Display for Fault {
    ghost output = { λ f. Some (text f) };

    fn fmt<W: fmt::Write>(&self, f: &mut fmt::Formatter<W>) -> fmt::Result {
        f.write_str(match self {
            Fault::NoTile => "the numbers name no tile that can be printed",
            Fault::ShortOutput => "the output has no room for the cells",
        })
    }
}

impl Error for Fault {}

/// Writes the cells of a tile, and answers how many they are.
// The length is a clause, and no array type: memory is lent as one slice and cut while the program runs.
pub fn print<W: Weight>(
    body: Stored<'_, W>,
    tile: Tile,
    scratch: &mut [W],
    cells: &mut [W],
) -> Result<usize, Fault>
    requires scratch { length scratch.old ≡ 2688 }
    ensures { Outcome (picture W.kind (lent body.entry)) tile.depth tile.digits tile.prefix cells.old cells.new result }
{
    let square = tile.square()?;
    let count = power(square.depth);
    if cells.len() < count {
        return Err(Fault::ShortOutput);
    }
    let body = Automaton::new(body);
    let (room, rest) = scratch.split_at_mut(GRID);
    Grid::new(&body, square, room).all(rest, &mut cells[0..count]);
    Ok(count)
}

/// Writes row `y` of the cells of a tile, and answers how many they are.
// Beside `print`: they share `square` and `Grid::new`, and differ in what they refuse and write.
pub fn print_row<W: Weight>(
    body: Stored<'_, W>,
    tile: Tile,
    y: usize,
    scratch: &mut [W],
    cells: &mut [W],
) -> Result<usize, Fault>
    requires scratch { length scratch.old ≡ 2688 }
    ensures { RowOutcome (picture W.kind (lent body.entry)) tile.depth tile.digits tile.prefix y cells.old cells.new result }
{
    let square = tile.square()?;
    let wide = side(square.depth);
    if y >= wide {
        return Err(Fault::NoTile);
    }
    if cells.len() < wide {
        return Err(Fault::ShortOutput);
    }
    let body = Automaton::new(body);
    let (room, rest) = scratch.split_at_mut(GRID);
    Grid::new(&body, square, room).row(y, rest, &mut cells[0..wide]);
    Ok(wide)
}
