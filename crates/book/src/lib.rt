//! The rules of the five calls on eight bodies, the book of pictures, and that every list of calls agrees with it.
#![tactic(auto)]

mod refusal;
mod theorems;

pub use refusal::{Refusal, RunFault};
pub use theorems::{
    calls_agree_with_the_book, law_equal_scripts_print_alike, one_outcome, words_come_back,
};
