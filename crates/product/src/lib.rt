//! The product of two bodies in memory that the caller lends.
#![tactic(auto)]

mod counts;
mod multiplying;
mod pairs;

pub use multiplying::multiply;
