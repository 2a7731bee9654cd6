ghost use Rattle.table.specs.Limits.{FewStates, FewArcs, EndsAreStates};

use std::marker::PhantomData;
use table::Table;

/// Eight places for bodies of one kind of weight.
pub struct Rack<W> {
    pub(crate) table: Table,
    pub(crate) kind: PhantomData<W>,
    ghost few_states: { FewStates table },
    ghost few_arcs: { FewArcs table },
    ghost ends: { EndsAreStates table },
}
