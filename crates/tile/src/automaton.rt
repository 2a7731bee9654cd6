ghost use Rattle.std.specs.Prelude.{◌≡◌, length};
ghost use Rattle.picture.specs.Lent.{lent};

use index::Arcs;
use picture::Stored;

/// A stored body, taken apart for row and column steps.
#[derive(Drop)]
pub(crate) struct Automaton<'a, W> {
    pub first: &'a [W],
    pub last: &'a [W],
    pub arcs: Arcs<'a, W>,
    ghost firsts: { length first.now ≡ arcs.states },
    ghost lasts: { length last.now ≡ arcs.states },
}

impl<'a, W> Automaton<'a, W> {
    ghost use Rattle.tile.specs.Automata as automata;

    /// The automaton of a body in memory.
    pub(crate) fn new(body: Stored<'a, W>) -> Automaton<'a, W>
        ensures { automata.body result ≡ lent body.entry }
    {
        Automaton {
            first: body.first(),
            last: body.last(),
            arcs: Arcs::new(body.states(), body.arcs(), body.arc_weights()),
        }
    }
}
