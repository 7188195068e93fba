// Words of 64 bits that hold a kind and two numbers.

#![tactic(auto)]

ghost use Rattle.std.specs.Prelude.{◌≡◌};
ghost use Rattle.words.specs.Words.{packed, parts_in};

// A kind and two numbers.
#[derive(Clone, Copy, Debug, PartialEq, Eq)]
pub struct Parts {
    pub kind: u8,
    pub first: u32,
    pub second: u32,
}

// The numbers that a word holds are below 2^28.
const NUMBERS: u32 = 268435456;

// The word of a kind and two numbers; 0 where a number does not fit.
impl From<Parts> for u64 {
    ghost from_gives = { λ p w. w ≡ packed p };

    fn from(parts: Parts) -> u64 {
        let Parts {
            kind,
            first,
            second,
        } = parts;
        if first < NUMBERS && second < NUMBERS {
            kind as u64 + 256 * (first as u64) + 68719476736 * (second as u64)
        } else {
            0
        }
    }
}

// The kind and the numbers of a word.
impl From<u64> for Parts {
    ghost from_gives = { λ w p. p ≡ parts_in w };

    fn from(word: u64) -> Parts {
        Parts {
            kind: (word % 256) as u8,
            first: (word / 256 % NUMBERS as u64) as u32,
            second: (word / 68719476736) as u32,
        }
    }
}
