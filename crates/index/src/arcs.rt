ghost use Rattle.std.specs.Prelude.{◌≡◌, ◌≤◌, length};
ghost use Rattle.std.specs.List.{AllByRecursion};
ghost use Rattle.std.proofs.Props.{props};
ghost use Rattle.picture.specs.Bodies.{Within};
ghost use Rattle.index.specs.Indexes.{Indexed};
ghost use Rattle.index.specs.declared.index.End.TheVariants.{From, To};

use crate::index::{End, Index, build};
use picture::Arc;

/// The arcs of a body of so many states, with their weights, indexed by digit and by either end.
#[derive(Drop)]
pub struct Arcs<'a, W> {
    pub states: usize,
    // Two slices: arcs lie in the record, and weights in lent memory.
    pub arcs: &'a [Arc],
    pub weights: &'a [W],
    pub into: Index,
    pub out_of: Index,
    ghost few: { states ≤ 64 },
    ghost ends: { AllByRecursion (Within states) arcs.now } by { Prim.hlevel props },
    ghost weighted: { length weights.now ≡ length arcs.now },
    ghost by_target: { Indexed To arcs.now into } by { Prim.hlevel props },
    ghost by_source: { Indexed From arcs.now out_of } by { Prim.hlevel props },
}

impl<'a, W> Arcs<'a, W> {
    /// The arcs and their weights with both indexes.
    // At most 512 arcs is a clause: callers have theirs as a plain slice.
    pub fn new(states: usize, arcs: &'a [Arc], weights: &'a [W]) -> Arcs<'a, W>
        requires states { states ≤ 64 }
        requires few { length arcs.now ≤ 512 }
        requires ends { AllByRecursion (Within states) arcs.now }
        requires weighted { length weights.now ≡ length arcs.now }
        ensures states { result.states ≡ states }
        ensures arcs { result.arcs.now ≡ arcs.now }
        ensures weights { result.weights.now ≡ weights.now }
    {
        Arcs {
            states,
            arcs,
            weights,
            into: build(arcs, End::To),
            out_of: build(arcs, End::From),
        }
    }
}
