//! Cells and tiles of a body in lent memory.
#![tactic(auto)]

mod automaton;
mod cells;
mod columns;
mod grid;
mod plain;
mod powers;
mod printing;
mod room;
mod rows;
mod slots;
mod square;

pub use plain::cell;
pub use printing::{Fault, Tile, print, print_row};
pub use room::SCRATCH;
