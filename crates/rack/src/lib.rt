//! The rack: eight places for one kind of weight, in memory that the caller lends with each call.
#![tactic(auto)]

mod call;
mod calls;
mod rack;
mod running;
