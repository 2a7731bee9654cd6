//! Pictures over quadrant addresses, and the weighted automata that store them.
#![tactic(auto)]

mod body;
mod parts;
mod quadrant;
mod stored;
mod theorems;

pub use body::{ARC_WEIGHTS, Arc, BAY, BLANK, LAST_WEIGHTS, MAX_ARCS, MAX_STATES, NO_ARC, Record};
pub use quadrant::{NoQuadrant, Quadrant};
pub use stored::Stored;
pub use theorems::{meet_in_the_middle, operations_stand, picture_laws_stand, steps_by_arcs};
