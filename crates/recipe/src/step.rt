//! The steps of a script.
ghost use Rattle.std.specs.Prelude.{◌≡◌, ◌+◌, ◌<◌, ◌≤◌, [], ◌∷◌, ◌++◌};
ghost use Rattle.recipe.specs.Limits.{max_bytes};

use crate::limits::MAX_BYTES;
use crate::place::Place;
use picture::Quadrant;

/// A step on the waiting pictures. `Add`, `Multiply` and `Piece` carry the byte index of their '+', '*' and ']'.
#[derive(Clone, Copy, Debug, PartialEq, Eq)]
pub enum Step {
    /// The place's picture waits too.
    Name(Place),
    /// The latest is turned by a quarter.
    Turn,
    /// The latest is mirrored.
    Mirror,
    /// The latest becomes one of its quadrants.
    Zoom(Quadrant),
    /// The latest two become their sum.
    Add(usize),
    /// The latest two become their product.
    Multiply(usize),
    /// The latest four become the quadrants of one.
    Piece(usize),
    /// The latest goes to the place, and the line ends.
    Store(Place),
}

/// The steps of a script, in the order in which they are carried out.
#[derive(Clone, Copy)]
pub struct Recipe {
    // An array and a count, and no `Vec`: the library has no heap.
    steps: [Step; MAX_BYTES],
    count: usize,
    ghost room: { count ≤ max_bytes },
}

impl Recipe {
    ghost use Rattle.recipe.specs.Steps.{listed};

    /// No steps yet.
    pub(crate) fn new() -> Recipe
        ensures { result.count ≡ 0 }
    {
        Recipe {
            steps: [Step::Turn; MAX_BYTES],
            count: 0,
        }
    }

    /// The steps.
    pub fn steps(&self) -> &[Step]
        ensures { result.now ≡ listed self.now }
    {
        &self.steps[..self.count]
    }

    /// Adds a step.
    pub(crate) fn push(&mut self, step: Step)
        requires { self.old.count < max_bytes }
        ensures count { self.new.count ≡ self.old.count + 1 }
        ensures adds { listed self.new ≡ listed self.old ++ step ∷ [] }
    {
        self.steps[self.count] = step;
        self.count += 1;
    }
}
