// The readers of a score: whether a list of sign words is one, and what its runs come to.

#![tactic(auto)]

mod first;
mod part;
mod place;
mod run;
mod stretch;
mod tally;
mod whole;

pub use place::Halt;
pub use tally::{Tally, add};
pub use whole::{Whole, read_score};
