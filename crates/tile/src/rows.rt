//! Rows along a prefix, and along the cells in a row of cells.
ghost use Rattle.std.specs.Prelude.{◌≡◌, ◌*◌, ◌^◌, ◌≤◌, ◌++◌, length};
ghost use Rattle.index.specs.Terms.{edges};
ghost use Rattle.picture.specs.Cells.{base_four};
ghost use Rattle.picture.specs.Pictures.{value, picture};
ghost use Rattle.picture.specs.Quadrants.{Address};
ghost use Rattle.picture.specs.Steps.{at_state};
ghost use Rattle.tile.specs.Automata.{body};
ghost use Rattle.tile.specs.Bands.{rows_along};

use crate::automaton::Automaton;
use crate::powers::power;
use crate::square::Square;
use picture::{MAX_STATES, Quadrant};
use weight::Weight;

// How long a row is, is a fact of it and of the automaton, and of no one type; the length of the room is a clause, since
// memory is lent as one slice.
impl<W: Weight> Automaton<'_, W> {
    /// Takes a row along the digits of a prefix; `next` is room for one row.
    fn follow(&self, square: Square, row: &mut [W], next: &mut [W])
        requires row { length row.old ≡ self.now.arcs.states }
        requires next { length next.old ≡ self.now.arcs.states }
        ensures { (w : Address) → value W.kind (body self.now) (at_state W.kind row.new) w ≡ value W.kind (body self.now) (at_state W.kind row.old) (base_four square.digits square.prefix ++ w) }
    {
        // Counted down: a number has no iterator over its digits.
        for left in (0..square.digits).rev() {
            let digit = Quadrant::named(square.prefix / power(left) % 4);
            self.arcs.step_row(row, digit, next);
            row.copy_from_slice(next);
        }
    }

    /// The row that the first row becomes along the prefix of a square; `room` is for two rows.
    pub(crate) fn along<'s>(&self, square: Square, room: &'s mut [W]) -> &'s [W]
        requires room { length room.old ≡ 128 }
        ensures long { length result.now ≡ self.now.arcs.states }
        ensures value { (w : Address) → value W.kind (body self.now) (at_state W.kind result.now) w ≡ picture W.kind (body self.now) (base_four square.digits square.prefix ++ w) }
    {
        let (first, second) = room.split_at_mut(MAX_STATES);
        let row = &mut first[0..self.arcs.states];
        row.copy_from_slice(self.first);
        self.follow(square, row, &mut second[0..self.arcs.states]);
        row
    }

    /// Writes what a row becomes along each cell in row `y` at a depth; `way` has room for a row a level.
    pub(crate) fn carry(&self, row: &[W], depth: u8, y: usize, way: &mut [W], rows: &mut [W])
        requires row { length row.now ≡ self.now.arcs.states }
        requires deep { depth ≤ 6 }
        requires way { length way.old ≡ 64 * depth }
        requires rows { length rows.old ≡ 2 ^ depth * self.now.arcs.states }
        ensures { rows.new ≡ rows_along W.kind (edges self.now.arcs) self.now.arcs.states row.now depth y }
    {
        if depth == 0 {
            rows.copy_from_slice(row);
            return;
        }
        let lower = 2 * ((y >> (depth - 1)) % 2);
        let half = rows.len() / 2;
        let (here, rest) = way.split_at_mut(MAX_STATES);
        let next = &mut here[0..self.arcs.states];
        let (left, right) = rows.split_at_mut(half);
        self.arcs.step_row(row, Quadrant::named(lower), next);
        self.carry(next, depth - 1, y, rest, left);
        self.arcs.step_row(row, Quadrant::named(1 + lower), next);
        self.carry(next, depth - 1, y, rest, right);
    }
}
