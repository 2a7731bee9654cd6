//! How the room that a caller lends for printing is divided.
use picture::MAX_STATES;

/// How many of a cell's digits are taken from its end, by columns.
pub(crate) const FINE: u8 = 2;

/// The weights of the columns along the fine digits, 16 at the most.
pub(crate) const COLUMNS: usize = 16 * MAX_STATES;

/// The weights of the rows along the coarse digits in a row of them, 16 at the most.
pub(crate) const ROWS: usize = 16 * MAX_STATES;

/// The weights of the columns along one fine digit, on the way to those along two.
const SPARE: usize = 4 * MAX_STATES;

/// The weights of one row for each coarse digit, on the way to the rows.
const WAY: usize = 4 * MAX_STATES;

/// The weights of the two rows with which a prefix is followed.
pub(crate) const PAIR: usize = 2 * MAX_STATES;

/// The weights that a grid keeps, or is made with: two rows, its columns and those on the way to them.
pub(crate) const GRID: usize = PAIR + COLUMNS + SPARE;

/// How many weights of scratch a print needs.
pub const SCRATCH: usize = GRID + ROWS + WAY;
