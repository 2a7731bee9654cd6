//! The reader: a position in a script, and the steps of what has been read.
ghost use Rattle.std.specs.Prelude.{◌≡◌, ◌<◌, ◌≤◌, length};
ghost use Rattle.recipe.specs.Limits.{max_bytes, max_waiting};
ghost use Rattle.recipe.specs.Outcomes.{Outcome};

use crate::fault::Fault;
use crate::limits::MAX_BYTES;
use crate::place::Place;
use crate::step::{Recipe, Step};
use picture::Quadrant;

mod grammar;
mod nesting;

/// A script, the index of its next byte, how many pictures wait there, and the steps so far.
#[derive(Drop)]
struct Reader<'a> {
    src: &'a [u8],
    pos: usize,
    waiting: usize,
    recipe: Recipe,
    ghost inside: { pos ≤ length src.now },
    ghost short: { length src.now ≤ max_bytes },
    ghost room: { recipe.count ≤ pos },
    ghost few: { waiting ≤ max_waiting },
}

impl Reader<'_> {
    ghost use Rattle.recipe.specs.Devices.Reading.{first, left, name_at, digit_at, Taken, Expected, Pushed};

    /// The next byte, if there is one.
    fn peek(&self) -> Option<u8>
        ensures { result ≡ first (left self.now) }
    {
        self.src.get(self.pos).copied()
    }

    /// The place that the next byte names, if it names one.
    // Beside `peek_quadrant`: what each names has its own type, first byte and clause.
    fn peek_place(&self) -> Option<Place>
        ensures { result ≡ name_at (left self.now) }
    {
        let number = self.peek()?.checked_sub(b'A')?;
        Place::try_from(usize::from(number)).ok()
    }

    /// The quadrant whose digit is the next byte, if it is a digit of one.
    fn peek_quadrant(&self) -> Option<Quadrant>
        ensures { result ≡ digit_at (left self.now) }
    {
        let digit = self.peek()?.checked_sub(b'0')?;
        Quadrant::try_from(digit).ok()
    }

    /// Reads `b` if it is the next byte, and says whether it was.
    fn take(&mut self, b: u8) -> bool
        ensures { Taken b self.old self.new result }
    {
        if self.peek() == Some(b) {
            self.pos += 1;
            true
        } else {
            false
        }
    }

    /// Reads `b`, which has to be the next byte.
    fn expect(&mut self, b: u8) -> Result<(), Fault>
        ensures { Expected b self.old self.new result }
    {
        if self.take(b) {
            Ok(())
        } else {
            Err(Fault::Grammar(self.pos))
        }
    }

    /// Adds a step, after which `waiting` pictures wait.
    fn push(&mut self, step: Step, waiting: usize)
        requires room { self.old.recipe.count < self.old.pos }
        requires few { waiting ≤ max_waiting }
        ensures { Pushed step waiting self.old self.new }
    {
        self.recipe.push(step);
        self.waiting = waiting;
    }
}

/// Reads a script whole: its steps, or the fault at the earliest byte.
pub fn read(script: &[u8]) -> Result<Recipe, Fault>
    ensures { Outcome script.now result }
{
    if script.len() > MAX_BYTES {
        return Err(Fault::TooLong);
    }
    let mut reader = Reader {
        src: script,
        pos: 0,
        waiting: 0,
        recipe: Recipe::new(),
    };
    reader.script()?;
    Ok(reader.recipe)
}
