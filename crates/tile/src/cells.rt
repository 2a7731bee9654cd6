//! The cells of a grid, each a row times a column.
ghost use Rattle.std.specs.Prelude.{◌≡◌, ◌+◌, ◌*◌, ◌/◌, ◌^◌, ◌<◌, ◌≤◌, length};
ghost use Rattle.std.specs.List.{range_with_len, flat_map};
ghost use Rattle.tile.specs.Bands as bands;
ghost use Rattle.tile.specs.Grids.{depth_of, rows_of, row_of};

use crate::grid::Grid;
use crate::powers::side;
use crate::room::ROWS;
use crate::slots::slot;
use picture::MAX_STATES;
use steps::meet;
use weight::Weight;

/// The number whose digits are those of the cell in column `x` and row `y`, at most two of them.
fn interleave(digits: u8, x: usize, y: usize) -> usize
    requires { digits ≤ 2 }
    ensures { result ≡ bands.interleaved digits x y }
{
    let last = x % 2 + 2 * (y % 2);
    // At most two digits: a recursion over them is no plainer than three cases.
    match digits {
        0 => 0,
        1 => last,
        _ => 4 * (x / 2 % 2 + 2 * (y / 2 % 2)) + last,
    }
}

// The room is lent by the caller, for no heap is used: its length stands at each function that it goes through.
impl<W: Weight> Grid<'_, '_, W> {
    /// What the row becomes along each cell in row `y` of the coarse digits.
    fn rows<'r>(&self, y: usize, room: &'r mut [W]) -> &'r [W]
        requires room { length room.old ≡ 1280 }
        ensures { result.now ≡ rows_of self.now y }
    {
        let (rows, way) = room.split_at_mut(ROWS);
        let rows = &mut rows[0..side(self.coarse) * self.body.arcs.states];
        let way = &mut way[0..MAX_STATES * self.coarse as usize];
        self.body.carry(self.row, self.coarse, y, way, rows);
        rows
    }

    /// Writes row `y` of the cells, each one of these rows times a column.
    fn line(&self, rows: &[W], y: usize, cells: &mut [W])
        requires rows { rows.now ≡ rows_of self.now (y / 2 ^ self.now.fine) }
        requires cells { length cells.old ≡ 2 ^ depth_of self.now }
        ensures { cells.new ≡ row_of self.now y }
    {
        let states = self.body.arcs.states;
        for (x, cell) in cells.iter_mut().enumerate() {
            let row = slot(rows, x >> self.fine, states);
            let column = slot(self.columns, interleave(self.fine, x, y), states);
            *cell = meet(row, column);
        }
    }

    /// Writes row `y` of the cells.
    pub(crate) fn row(&self, y: usize, room: &mut [W], cells: &mut [W])
        requires room { length room.old ≡ 1280 }
        requires cells { length cells.old ≡ 2 ^ depth_of self.now }
        ensures { cells.new ≡ row_of self.now y }
    {
        self.line(self.rows(y >> self.fine, room), y, cells);
    }

    /// Writes the rows of cells that share the row `y` of their coarse digits.
    fn band(&self, y: usize, room: &mut [W], cells: &mut [W])
        requires y { y < 2 ^ self.now.coarse }
        requires room { length room.old ≡ 1280 }
        requires cells { length cells.old ≡ 2 ^ self.now.fine * 2 ^ depth_of self.now }
        ensures { cells.new ≡ flat_map (λ i. row_of self.now (y * 2 ^ self.now.fine + i)) (range_with_len 0 (2 ^ self.now.fine)) }
    {
        let rows = self.rows(y, room);
        let high = side(self.fine);
        let wide = side(self.coarse + self.fine);
        // By index: `chunks_exact_mut` promises nothing of what the slice holds once its chunks are written.
        for i in 0..high {
            let part = &mut cells[i * wide..i * wide + wide];
            self.line(rows, y * high + i, part);
        }
    }

    /// Writes all cells, band by band.
    pub(crate) fn all(&self, room: &mut [W], cells: &mut [W])
        requires room { length room.old ≡ 1280 }
        requires cells { length cells.old ≡ 2 ^ self.now.coarse * (2 ^ self.now.fine * 2 ^ depth_of self.now) }
        ensures { cells.new ≡ flat_map (row_of self.now) (range_with_len 0 (2 ^ depth_of self.now)) }
    {
        let size = side(self.fine) * side(self.coarse + self.fine);
        let count = side(self.coarse);
        // By index: `chunks_exact_mut` promises nothing of what the slice holds once its chunks are written.
        for y in 0..count {
            let part = &mut cells[y * size..y * size + size];
            self.band(y, room, part);
        }
    }
}
