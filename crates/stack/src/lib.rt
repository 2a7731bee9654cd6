//! The bodies that wait while a line is carried out, in working bays.
#![tactic(auto)]

mod fault;
mod operations;
mod stack;

pub use fault::{LineFault, StepFault};
pub use stack::{Stack, Working};
