//! Steps on the bodies of the places and on those that wait.
ghost use Rattle.std.specs.Prelude.{◌≡◌, ◌-◌, ◌≤◌, [], drop, length, OnOk};
ghost use Rattle.picture.specs.Lent.{lent};
ghost use Rattle.recipe.specs.Evaluations as recipe;
ghost use Rattle.recipe.specs.Evaluations.{carry};
ghost use Rattle.recipe.specs.Steps.{Carries};
ghost use Rattle.stack.specs.Drawing.{drawing};
ghost use Rattle.stack.specs.Stacks.{bodies};
ghost use Rattle.stack.specs.Waiting.{body_at};
ghost use Rattle.table.specs.Limits.{AllKept};
ghost use Rattle.table.specs.Performing.{left_waiting, Fits, Stepped, Performed};
ghost use Rattle.table.specs.Tables.{body_of};

use crate::table::{PLACES, Table};
use picture::{BAY, Stored};
use recipe::{MAX_WAITING, Place, Step};
use stack::{LineFault, Stack, StepFault, Working};
use weight::Weight;

/// How many weights the bays of the places have; the working bays lie behind them.
pub const PLACE_WEIGHTS: usize = PLACES * BAY;

/// How many weights the working bays have.
const WORK_WEIGHTS: usize = MAX_WAITING * BAY;

// The bays and the stack at work are parameters: a struct that lends them with the table would promise of each that it
// stays.
impl Table {
    /// The body of a place.
    pub fn body<'a, W: Weight>(&'a self, place: Place, bays: &'a [W]) -> Stored<'a, W>
        requires kept { AllKept self.now }
        requires bays { 5120 ≤ length bays.now }
        ensures { lent result ≡ body_of self.now bays.now place }
    {
        let at = BAY * usize::from(place);
        Stored {
            record: self.record(place),
            weights: &bays[at..at + BAY],
        }
    }

    /// Puts the latest body on a place.
    fn store<W: Weight>(&mut self, place: Place, bays: &mut [W], working: &mut Working<'_, '_, W>)
        requires kept { AllKept self.old }
        requires bays { length bays.old ≡ 5120 }
        requires some { 1 ≤ working.old.stack.now.height }
        ensures places { body_of self.new bays.new ≡ recipe.put place (body_at (bodies working.old) 0) (body_of self.old bays.old) }
        ensures waiting { bodies working.new ≡ drop 1 (bodies working.old) }
        ensures height { working.new.stack.now.height ≡ working.old.stack.now.height - 1 }
        ensures kept { AllKept self.new }
    {
        let at = BAY * usize::from(place);
        let latest = working.pop(&mut bays[at..at + BAY]);
        self.put(place, latest);
    }

    /// Carries out a step.
    fn step<W: Weight>(
        &mut self,
        step: Step,
        bays: &mut [W],
        working: &mut Working<'_, '_, W>,
    ) -> Result<(), StepFault>
        requires fits { Fits step working.old.stack.now.height }
        requires kept { AllKept self.old }
        requires bays { length bays.old ≡ 5120 }
        ensures stepped { Stepped W.kind step (body_of self.old bays.old) (body_of self.new bays.new) (bodies working.old) (bodies working.new) result }
        ensures height { OnOk result (working.new.stack.now.height ≡ left_waiting step working.old.stack.now.height) }
        ensures kept { AllKept self.new }
    {
        // Steps are data, read from a script: an enum, and no closures.
        match step {
            Step::Name(place) => working.push(self.body(place, bays)),
            Step::Turn => working.turn(),
            Step::Mirror => working.mirror(),
            Step::Zoom(quadrant) => working.zoom(quadrant),
            Step::Add(mark) => working.add(mark)?,
            Step::Multiply(mark) => working.multiply(mark)?,
            Step::Piece(mark) => working.piece(mark)?,
            Step::Store(place) => self.store(place, bays, working),
        }
        Ok(())
    }

    /// Carries out the steps of a script, line by line, and answers how many lines they are.
    pub fn perform<W: Weight>(
        &mut self,
        steps: &[Step],
        memory: &mut [W],
    ) -> Result<usize, LineFault>
        requires carries { Carries 0 steps.now 0 }
        requires kept { AllKept self.old }
        requires bays { length memory.old ≡ 10240 }
        ensures performed { Performed (carry (drawing W.kind) steps.now [] (body_of self.old memory.old)) (body_of self.new memory.new) result }
        ensures kept { AllKept self.new }
    {
        let (bays, rest) = memory.split_at_mut(PLACE_WEIGHTS);
        let mut stack = Stack::new();
        let mut working = stack.over(&mut rest[0..WORK_WEIGHTS]);
        let mut lines = 0;
        for step in steps {
            // No `map_err` and `?`: in this loop the proof did not close.
            if let Err(step) = self.step(*step, bays, &mut working) {
                return Err(LineFault { line: lines, step });
            }
            if let Step::Store(_) = step {
                lines += 1;
            }
        }
        Ok(lines)
    }
}
