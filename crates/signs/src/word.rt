// A sign as a word of 64 bits: its kind in 8 bits, then two numbers of 28 bits each.
ghost use Rattle.std.specs.Prelude.{◌≡◌, Some, ok_or};
ghost use Rattle.signs.specs.Words.{parts_of, plain_sign, word_of, sign_of, not_a_sign};

use crate::sign::{Jumped, Sign};
use std::error::Error;
use std::fmt;
use words::Parts;

// A word that packs no sign.
#[derive(Clone, Copy, Debug, PartialEq, Eq)]
pub struct NotASign(pub u64);

impl fmt::Display for NotASign {
    ghost output = { λ e. Some (not_a_sign e) };

    fn fmt<W: fmt::Write>(&self, f: &mut fmt::Formatter<W>) -> fmt::Result {
        write!(f, "no sign has the word {}", self.0)
    }
}

impl Error for NotASign {}

// The kind of a sign and the numbers that it carries, 0 where it carries none.
impl From<Sign> for Parts {
    ghost from_gives = { λ s p. p ≡ parts_of s };

    fn from(sign: Sign) -> Parts {
        let (kind, first, second) = match sign {
            Sign::Block(k, l) => (1, k, l),
            Sign::Time(m, n) => (2, m, n),
            Sign::LeftRepeat => (3, 0, 0),
            Sign::RightRepeat => (4, 0, 0),
            Sign::OpenEnding => (5, 0, 0),
            Sign::CloseEnding => (6, 0, 0),
            Sign::Jump(jump) => (jump as u8, 0, 0),
            Sign::Segno => (13, 0, 0),
            Sign::Coda => (14, 0, 0),
            Sign::ToCoda => (15, 0, 0),
            Sign::Fine => (16, 0, 0),
        };
        Parts {
            kind,
            first,
            second,
        }
    }
}

// The word of a sign, its kind where it carries no number; 0, which is no sign's, where a number does not fit.
impl From<Sign> for u64 {
    ghost from_gives = { λ s w. w ≡ word_of s };

    fn from(sign: Sign) -> u64 {
        match sign {
            Sign::Block(_, _) | Sign::Time(_, _) => u64::from(Parts::from(sign)),
            _ => Parts::from(sign).kind as u64,
        }
    }
}

// The sign that a word packs; where that carries no number, the word is its kind.
impl TryFrom<u64> for Sign {
    type Error = NotASign;

    ghost try_from_gives = { λ w s. s ≡ ok_or (sign_of w) (record { 0 = w }) };

    #[tactic(auto, using(crate::proofs::Packing::word_alone, crate::proofs::Packing::word_with_numbers))]
    fn try_from(word: u64) -> Result<Sign, NotASign> {
        let Parts {
            kind,
            first,
            second,
        } = Parts::from(word);
        match (kind, first, second) {
            (1, k, l) => Ok(Sign::Block(k, l)),
            (2, m, n) => Ok(Sign::Time(m, n)),
            _ if word == kind as u64 => plain(kind).ok_or(NotASign(word)),
            _ => Err(NotASign(word)),
        }
    }
}

// The sign of a kind that carries no number, or nothing.
pub(crate) fn plain(kind: u8) -> Option<Sign>
    ensures { result ≡ plain_sign kind }
{
    match kind {
        3 => Some(Sign::LeftRepeat),
        4 => Some(Sign::RightRepeat),
        5 => Some(Sign::OpenEnding),
        6 => Some(Sign::CloseEnding),
        7 => Some(Sign::Jump(Jumped::DcCoda)),
        8 => Some(Sign::Jump(Jumped::DcFine)),
        9 => Some(Sign::Jump(Jumped::DsCoda)),
        10 => Some(Sign::Jump(Jumped::DsFine)),
        11 => Some(Sign::Jump(Jumped::Dc)),
        12 => Some(Sign::Jump(Jumped::Ds)),
        13 => Some(Sign::Segno),
        14 => Some(Sign::Coda),
        15 => Some(Sign::ToCoda),
        16 => Some(Sign::Fine),
        _ => None,
    }
}
