// Signs: what they are, how they are kept as words, and how one is read from a text.

#![tactic(auto)]

mod next;
mod number;
mod sign;
mod spelling;
mod text;
mod word;

pub use next::{Next, next_sign};
pub use sign::{Jumped, Sign};
pub use spelling::letters;
pub use word::NotASign;
