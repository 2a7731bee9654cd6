ghost use Rattle.std.specs.Prelude.{◌≡◌, ◌+◌, ◌≤◌, ◌++◌, length};
ghost use Rattle.index.specs.Terms.{edges};
ghost use Rattle.picture.specs.Cells.{base_four};
ghost use Rattle.picture.specs.Pictures.{value, picture};
ghost use Rattle.picture.specs.Quadrants.{Address};
ghost use Rattle.picture.specs.Steps.{at_state};
ghost use Rattle.tile.specs.Automata as automata;
ghost use Rattle.tile.specs.Bands.{columns_along};

use crate::automaton::Automaton;
use crate::powers::power;
use crate::room::{COLUMNS, FINE, PAIR};
use crate::square::Square;
use weight::Weight;

/// The cells below a row: their coarse digits are taken by rows, and their last and fine ones by columns.
#[derive(Drop)]
pub(crate) struct Grid<'s, 'a, W: Weight> {
    pub body: &'s Automaton<'a, W>,
    pub row: &'s [W],
    pub coarse: u8,
    pub fine: u8,
    pub columns: &'s [W],
    ghost row_long: { length row.now ≡ body.now.arcs.states },
    ghost few_coarse: { coarse ≤ 4 },
    ghost few_fine: { fine ≤ 2 },
    ghost all_columns: { columns.now ≡ columns_along W.kind (edges body.now.arcs) body.now.arcs.states body.now.last.now fine },
}

// The length is a clause, and no array type: memory is lent as one slice and cut while the program runs.
impl<'s, 'a, W: Weight> Grid<'s, 'a, W> {
    /// The grid of a square of cells of a body; `room` is for two rows, for its columns, and for four more.
    pub(crate) fn new(
        body: &'s Automaton<'a, W>,
        square: Square,
        room: &'s mut [W],
    ) -> Grid<'s, 'a, W>
        requires { length room.old ≡ 1408 }
        ensures body { result.body.now ≡ body.now }
        ensures depth { result.coarse + result.fine ≡ square.depth }
        ensures value { (w : Address) → value W.kind (automata.body result.body.now) (at_state W.kind result.row.now) w ≡ picture W.kind (automata.body result.body.now) (base_four square.digits square.prefix ++ w) }
    {
        let (pair, rest) = room.split_at_mut(PAIR);
        let row = body.along(square, pair);
        let fine = square.depth.min(FINE);
        let (columns, spare) = rest.split_at_mut(COLUMNS);
        let columns = &mut columns[0..power(fine) * body.arcs.states];
        body.columns(body.last, fine, spare, columns);
        Grid {
            body,
            row,
            coarse: square.depth - fine,
            fine,
            columns,
        }
    }
}
