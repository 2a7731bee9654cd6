//! A body as words: reading, writing, and the round trip.
#![tactic(auto)]

mod arc;
mod fault;
mod head;
mod reader;
mod reading;
mod trip;
mod writer;
mod writing;

pub use fault::{ArcFault, Fault, PieceFault, TripFault, WeightFault, WordFault, WriteFault};
pub use reading::read;
pub use trip::{reread, rewrite, words_are_one};
pub use writing::write;
