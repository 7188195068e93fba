// The sixteen spellings, and the longest of them that stands at a place.
ghost use Rattle.std.specs.Prelude.{◌≡◌, ℕ, ◌<◌, ◌≤◌};
ghost use Rattle.signs.specs.declared.sign.Sign.{Sign};
ghost use Rattle.signs.specs.Numbers.{pair_at};
ghost use Rattle.signs.specs.Spellings.{made, spellings, letter_of, letters_of, finished_by, longest};

use crate::number::read_pair;
use crate::sign::Sign;
use crate::text::peek;
use crate::word::plain;

// The letters of spelling i; none past the last spelling.
#[tactic(auto, unfolding(crate::specs::Spellings::spellings))]
pub fn letters(i: usize) -> &'static [u8]
    ensures { result.now ≡ letters_of i }
{
    match i {
        0 => b"(b,",
        1 => b"(ts,",
        2 => b"|:",
        3 => b":|",
        4 => b"[",
        5 => b"]",
        6 => b"DC.Coda",
        7 => b"DC.Fine",
        8 => b"DS.Coda",
        9 => b"DS.Fine",
        10 => b"DC",
        11 => b"DS",
        12 => b"Segno",
        13 => b"Coda",
        14 => b"ToCoda",
        15 => b"Fine",
        _ => b"",
    }
}

// A spelling before which none begins with this byte.
#[tactic(auto, using(crate::proofs::First::none_before), unfolding(crate::specs::Spellings::spellings))]
fn first_with(b: u8) -> usize
    ensures within { result ≤ 16 }
    ensures before { (i : ℕ) → i < result → letter_of i 0 ≡ b → ⊥ }
{
    match b {
        b'|' => 2,
        b':' => 3,
        b'[' => 4,
        b']' => 5,
        b'D' => 6,
        b'S' => 12,
        b'C' => 13,
        b'T' => 14,
        b'F' => 15,
        _ => 0,
    }
}

// The sign that the two numbers at a place make, and the place after them.
fn numbered<F: Fn(u32, u32) -> Sign>(text: &[u8], at: usize, make: F) -> Option<(Sign, usize)>
    requires { F.IsAlwaysCallable make }
    ensures { (f : ℕ → ℕ → Sign) → ((a b : ℕ) (s : Sign) → F.post make a b s → s ≡ f a b) → result ≡ made f (pair_at text.now at) }
{
    let (a, b, end) = read_pair(text, at)?;
    Some((make(a, b), end))
}

// The sign of spelling i, whose letters stand before a place, and the place after it: where it carries numbers, they follow there.
#[tactic(auto, using(crate::proofs::Finish::finish_plain))]
fn finished(text: &[u8], i: usize, at: usize) -> Option<(Sign, usize)>
    requires { i < 16 }
    ensures { result ≡ finished_by text.now at i }
{
    match i {
        0 => numbered(text, at, Sign::Block),
        1 => numbered(text, at, Sign::Time),
        _ => Some((plain(i as u8 + 1)?, at)),
    }
}

// The longest sign that stands at a place, and the place after it.
#[tactic(auto, using(crate::proofs::Scan::known_none, crate::proofs::Scan::known_more, crate::proofs::Scan::known_stands, crate::proofs::Scan::known_start, crate::proofs::Scan::agrees_none, crate::proofs::Scan::agrees_more, crate::proofs::Scan::differs, crate::proofs::Scan::agrees_all))]
pub(crate) fn sign_at(text: &[u8], at: usize) -> Option<(Sign, usize)>
    ensures { result ≡ longest text.now at spellings }
{
    let mut i = first_with(peek(text, at));
    let standing = 'scan: loop {
        if i == 16 {
            break 'scan None;
        }
        let letters = letters(i);
        for (j, letter) in letters.iter().enumerate() {
            if peek(text, at + j) != *letter {
                i += 1;
                continue 'scan;
            }
        }
        let Some((sign, end)) = finished(text, i, at + letters.len()) else {
            i += 1;
            continue 'scan;
        };
        break 'scan Some((sign, end));
    };
    standing
}
