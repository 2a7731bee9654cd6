//! The piecing of four bodies in memory that the caller lends.
#![tactic(auto)]

mod entries;
mod parts;
mod piecing;
mod rows;
mod whole;

pub use piecing::piece;
