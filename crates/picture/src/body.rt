ghost use Rattle.std.specs.Prelude.{MatchBool, MatchOption};
ghost use Rattle.std.specs.List.{AllByRecursion};
ghost use Rattle.picture.specs.Bodies.{Within};
ghost use Rattle.picture.specs.Stored.{Fits, Holds};

use crate::quadrant::Quadrant;

/// How many states a body may have.
pub const MAX_STATES: usize = 64;

/// How many arcs a body may have.
pub const MAX_ARCS: usize = 512;

/// How many weights a body has room for: a first and a last weight for each state, one for each arc.
pub const BAY: usize = 640;

/// Where the last weights of a body begin among its 640 weights; its first weights begin at 0.
pub const LAST_WEIGHTS: usize = MAX_STATES;

/// Where the arc weights of a body begin among its 640 weights.
pub const ARC_WEIGHTS: usize = 2 * MAX_STATES;

/// An arc of a body, without its weight.
#[derive(Clone, Copy, Debug, PartialEq, Eq)]
pub struct Arc {
    pub from: u8,
    pub to: u8,
    pub quadrant: Quadrant,
}

/// A body without its weights, which lie in memory that the caller lends.
// Arcs in an array with their count, and no `Vec`: the library has no heap. What holds of a record stands in `Stored`
// and in `Rack`: a record is plain.
#[derive(Clone, Copy)]
pub struct Record {
    pub states: u8,
    pub count: u16,
    pub arcs: [Arc; MAX_ARCS],
}

/// What a record's array holds past its arcs.
pub const NO_ARC: Arc = Arc {
    from: 0,
    to: 0,
    quadrant: Quadrant::UpperLeft,
};

/// The record of a blank body: no states and no arcs.
pub const BLANK: Record = Record {
    states: 0,
    count: 0,
    arcs: [NO_ARC; MAX_ARCS],
};

impl Record {
    /// The record of so many states and these arcs, if they are within the limits and the arcs between states.
    pub fn new(states: u8, arcs: &[Arc]) -> Option<Record>
        ensures { MatchOption result (Fits states arcs.now → ⊥) (λ p. Holds states arcs.now p) }
    {
        if states as usize > MAX_STATES || arcs.len() > MAX_ARCS || !within(states, arcs) {
            return None;
        }
        let mut all = [NO_ARC; MAX_ARCS];
        let room = &mut all[..];
        let used = &mut room[0..arcs.len()];
        used.copy_from_slice(arcs);
        Some(Record {
            states,
            count: arcs.len() as u16,
            arcs: all,
        })
    }
}

/// Whether both ends of each arc are states.
fn within(states: u8, arcs: &[Arc]) -> bool
    ensures { MatchBool result (AllByRecursion (Within states) arcs.now) (AllByRecursion (Within states) arcs.now → ⊥) }
{
    arcs.iter().all(|arc| arc.from < states && arc.to < states)
}
