//! Columns along the addresses of a few digits.
ghost use Rattle.std.specs.Prelude.{◌≡◌, ◌+◌, ◌*◌, ◌/◌, ◌%◌, ◌^◌, ◌≤◌, length};
ghost use Rattle.std.specs.List.{range_with_len, flat_map};
ghost use Rattle.index.specs.Terms.{edges};
ghost use Rattle.picture.specs.Quadrants.{named};
ghost use Rattle.picture.specs.Steps.{spreads};
ghost use Rattle.tile.specs.Bands.{slot, columns_along};

use crate::automaton::Automaton;
use crate::powers::power;
use crate::slots::slot;
use picture::Quadrant;
use weight::Weight;

// How long a column is, is a fact of it and of the automaton, and of no one type.
impl<W: Weight> Automaton<'_, W> {
    /// Writes what the columns of so many digits become under each digit in front.
    fn lift(&self, columns: &[W], digits: u8, longer: &mut [W])
        requires few { digits ≤ 1 }
        requires columns { length columns.now ≡ 4 ^ digits * self.now.arcs.states }
        requires longer { length longer.old ≡ 4 ^ (digits + 1) * self.now.arcs.states }
        ensures { longer.new ≡ flat_map (λ c. spreads W.kind (edges self.now.arcs) self.now.arcs.states (slot self.now.arcs.states (c % 4 ^ digits) columns.now) (named (c / 4 ^ digits))) (range_with_len 0 (4 ^ (digits + 1))) }
    {
        let n = self.arcs.states;
        let count = power(digits);
        // By index: `chunks_exact_mut` promises nothing of what the slice holds once its chunks are written.
        for c in 0..4 * count {
            let column = slot(columns, c % count, n);
            let next = &mut longer[c * n..c * n + n];
            let digit = Quadrant::named(c / count);
            self.arcs.step_column(column, digit, next);
        }
    }

    /// Writes what a column becomes along each address of at most two digits; `spare` has room for four columns.
    pub(crate) fn columns(&self, column: &[W], digits: u8, spare: &mut [W], columns: &mut [W])
        requires few { digits ≤ 2 }
        requires column { length column.now ≡ self.now.arcs.states }
        requires spare { length spare.old ≡ 256 }
        requires columns { length columns.old ≡ 4 ^ digits * self.now.arcs.states }
        ensures { columns.new ≡ columns_along W.kind (edges self.now.arcs) self.now.arcs.states column.now digits }
    {
        // At most two digits: a recursion over them needs its room divided by level, and is no plainer than three cases.
        match digits {
            0 => columns.copy_from_slice(column),
            1 => self.lift(column, 0, columns),
            _ => {
                let four = &mut spare[0..4 * self.arcs.states];
                self.lift(column, 0, four);
                self.lift(four, 1, columns);
            }
        }
    }
}
