//! The parts of a body in memory.
ghost use Rattle.std.specs.Prelude.{◌≡◌, ◌≤◌, length};
ghost use Rattle.std.specs.List.{zip, AllByRecursion};
ghost use Rattle.picture.specs.Bodies.{Within};
ghost use Rattle.picture.specs.Lent.{lent, arcs_of};

use crate::body::{ARC_WEIGHTS, Arc, LAST_WEIGHTS};
use crate::stored::Stored;

impl<'a, W> Stored<'a, W> {
    /// How many states there are.
    pub fn states(&self) -> usize
        ensures { result ≡ (lent self.now).states }
    {
        self.record.states as usize
    }

    /// The first weight of each state.
    pub fn first(&self) -> &'a [W]
        ensures first { result.now ≡ (lent self.now).first }
        ensures count { length result.now ≡ (lent self.now).states }
    {
        &self.weights[0..self.states()]
    }

    /// The last weight of each state.
    pub fn last(&self) -> &'a [W]
        ensures last { result.now ≡ (lent self.now).last }
        ensures count { length result.now ≡ (lent self.now).states }
    {
        &self.weights[LAST_WEIGHTS..LAST_WEIGHTS + self.states()]
    }

    /// The arcs, in order.
    pub fn arcs(&self) -> &'a [Arc]
        ensures arcs { result.now ≡ arcs_of self.now }
        ensures count { length result.now ≡ self.now.record.now.count }
    {
        let all = &self.record.arcs[..];
        &all[0..self.record.count as usize]
    }

    /// The weight of each arc.
    pub fn arc_weights(&self) -> &'a [W]
        ensures arcs { zip (arcs_of self.now) result.now ≡ (lent self.now).arcs }
        ensures count { length result.now ≡ length (arcs_of self.now) }
    {
        &self.weights[ARC_WEIGHTS..ARC_WEIGHTS + self.arcs().len()]
    }
}
