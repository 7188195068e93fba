// Every way to be refused, and document 01's number and place for each.

#![tactic(auto)]

mod limits;

ghost use Rattle.std.specs.Prelude.{◌≡◌, Some};
ghost use Rattle.refusals.specs.Limits.{document01};
ghost use Rattle.refusals.specs.Refusals.{number_of, place_of};
ghost use Rattle.refusals.specs.Printed.{printed};

pub use limits::{BEAT, BLOCKS, BYTES, DEPTH, INSTRUCTIONS, LABELS, LOOPS, NUMBER, SIGNS, TIMES};
use std::error::Error;
use std::fmt;

// A case for each way to be refused. Two have the number 5: what is wrong with a score's number and what the writer can't spell are
// mended at different desks; a text, a list or a buffer that is too long or too short is mended in the same way whoever says so.
#[derive(Clone, Copy, Debug, PartialEq, Eq)]
pub enum Refusal {
    // The text is too long.
    TextTooLong,
    // No sign can be read at this byte.
    Unreadable(u64),
    // There are too many signs.
    TooManySigns,
    // No score begins with the signs up to this one; the number of signs where the score is only unfinished.
    NoScore(u64),
    // A number of this sign breaks its rule.
    BadNumber(u64),
    // This left repeat stands too deep.
    TooDeep(u64),
    // There are too many loops.
    TooManyLoops,
    // Too many blocks would be played.
    TooManyPlayed,
    // The lent buffer is short: this many entries are needed.
    NoRoom(u64),
    // The performed beat is past the last: the total.
    PastTotal(u64),
    // The listing breaks a rule at this instruction.
    BadListing(u64),
    // The saved position does not fit its listing.
    BadPosition,
    // The writer cannot spell this sign.
    Unwritable(u64),
}

impl Refusal {
    // The refusal's number in document 01.
    pub fn number(self) -> u8
        ensures { result ≡ number_of self }
    {
        match self {
            Refusal::TextTooLong => 1,
            Refusal::Unreadable(_) => 2,
            Refusal::TooManySigns => 3,
            Refusal::NoScore(_) => 4,
            Refusal::BadNumber(_) => 5,
            Refusal::TooDeep(_) => 6,
            Refusal::TooManyLoops => 7,
            Refusal::TooManyPlayed => 8,
            Refusal::NoRoom(_) => 9,
            Refusal::PastTotal(_) => 10,
            Refusal::BadListing(_) => 11,
            Refusal::BadPosition => 12,
            Refusal::Unwritable(_) => 5,
        }
    }

    // The refusal's place in document 01.
    pub fn place(self) -> u64
        ensures { result ≡ place_of document01 self }
    {
        match self {
            Refusal::TextTooLong => BYTES as u64,
            Refusal::Unreadable(byte) => byte,
            Refusal::TooManySigns => SIGNS as u64,
            Refusal::NoScore(sign) => sign,
            Refusal::BadNumber(sign) => sign,
            Refusal::TooDeep(sign) => sign,
            Refusal::TooManyLoops => LOOPS as u64,
            Refusal::TooManyPlayed => BLOCKS as u64,
            Refusal::NoRoom(needed) => needed,
            Refusal::PastTotal(total) => total,
            Refusal::BadListing(instruction) => instruction,
            Refusal::BadPosition => 0,
            Refusal::Unwritable(sign) => sign,
        }
    }
}

impl fmt::Display for Refusal {
    ghost output = { λ r. Some (printed document01 r) };

    fn fmt<W: fmt::Write>(&self, f: &mut fmt::Formatter<W>) -> fmt::Result {
        let number = self.number();
        let place = self.place();
        write!(f, "refused {number} {place}")
    }
}

impl Error for Refusal {}
