ghost use Rattle.std.specs.Prelude.{◌≡◌, ◌<◌, ◌≤◌, length};
ghost use Rattle.std.specs.List.{zip, AllByRecursion};
ghost use Rattle.picture.specs.Bodies.{Within};
ghost use Rattle.picture.specs.Steps.{at_state, stepped, spreads};
ghost use Rattle.index.specs.Indexes.{Indexed};
ghost use Rattle.index.specs.Terms.{edges, edge_at, row_term as row_part, column_term as column_part};
ghost use Rattle.index.specs.declared.index.End.TheVariants.{From, To};

use crate::arcs::Arcs;
use crate::index::Index;
use crate::sums::sum_at;
use picture::{Arc, Quadrant};
use weight::Weight;

// Two loops, which share `sum_at`: one for both would be handed the term with clauses over every key. A term has its own
// function: with its body in the closure the sum's proof did not close. Arcs, weights and an index are three parameters,
// for who steps one way alone needs no more than one index.

/// A row times the digit's matrix, by an index of the arcs by their targets.
pub fn step_row<W: Weight>(
    index: &Index,
    arcs: &[Arc],
    weights: &[W],
    row: &[W],
    quadrant: Quadrant,
    next: &mut [W],
)
    requires indexed { Indexed To arcs.now index.now }
    requires weighted { length weights.now ≡ length arcs.now }
    requires few { AllByRecursion (Within 64) arcs.now }
    requires ends { AllByRecursion (Within (length row.now)) arcs.now }
    requires below { length next.old ≤ 64 }
    ensures { next.new ≡ stepped W.kind (zip arcs.now weights.now) (length next.old) row.now quadrant }
{
    for (q, entry) in next.iter_mut().enumerate() {
        let places = index.places(quadrant, q);
        *entry = sum_at(places, |at| row_term(arcs, weights, row, at));
    }
}

/// The digit's matrix times a column, by an index of the arcs by their sources.
pub fn step_column<W: Weight>(
    index: &Index,
    arcs: &[Arc],
    weights: &[W],
    column: &[W],
    quadrant: Quadrant,
    next: &mut [W],
)
    requires indexed { Indexed From arcs.now index.now }
    requires weighted { length weights.now ≡ length arcs.now }
    requires few { AllByRecursion (Within 64) arcs.now }
    requires ends { AllByRecursion (Within (length column.now)) arcs.now }
    requires below { length next.old ≤ 64 }
    ensures { next.new ≡ spreads W.kind (zip arcs.now weights.now) (length next.old) column.now quadrant }
{
    for (p, entry) in next.iter_mut().enumerate() {
        let places = index.places(quadrant, p);
        *entry = sum_at(places, |at| column_term(arcs, weights, column, at));
    }
}

/// The row at the source of an arc times the arc's weight.
fn row_term<W: Weight>(arcs: &[Arc], weights: &[W], row: &[W], at: usize) -> W
    requires within { at < length arcs.now }
    requires weighted { length weights.now ≡ length arcs.now }
    requires ends { AllByRecursion (Within (length row.now)) arcs.now }
    ensures { result ≡ row_part W.kind (at_state W.kind row.now) (edge_at W.kind arcs.now weights.now at) }
{
    let from = arcs[at].from as usize;
    row[from].times(weights[at])
}

/// The weight of an arc times the column at its target.
fn column_term<W: Weight>(arcs: &[Arc], weights: &[W], column: &[W], at: usize) -> W
    requires within { at < length arcs.now }
    requires weighted { length weights.now ≡ length arcs.now }
    requires ends { AllByRecursion (Within (length column.now)) arcs.now }
    ensures { result ≡ column_part W.kind (at_state W.kind column.now) (edge_at W.kind arcs.now weights.now at) }
{
    let to = arcs[at].to as usize;
    weights[at].times(column[to])
}

// How long a row is, is a fact of it and of the arcs, and of no one type.
impl<W: Weight> Arcs<'_, W> {
    /// A row times the digit's matrix.
    pub fn step_row(&self, row: &[W], quadrant: Quadrant, next: &mut [W])
        requires states { self.now.states ≤ length row.now }
        requires below { length next.old ≤ 64 }
        ensures { next.new ≡ stepped W.kind (edges self.now) (length next.old) row.now quadrant }
    {
        step_row(&self.into, self.arcs, self.weights, row, quadrant, next);
    }

    /// The digit's matrix times a column.
    pub fn step_column(&self, column: &[W], quadrant: Quadrant, next: &mut [W])
        requires states { self.now.states ≤ length column.now }
        requires below { length next.old ≤ 64 }
        ensures { next.new ≡ spreads W.kind (edges self.now) (length next.old) column.now quadrant }
    {
        step_column(
            &self.out_of,
            self.arcs,
            self.weights,
            column,
            quadrant,
            next,
        );
    }
}
