// Numbers in a text: their digits, and the two numbers that a sign carries.
ghost use Rattle.std.specs.Prelude.{◌≡◌, ◌≤◌, length};
ghost use Rattle.signs.specs.Numbers.{digit, decimal, numeral, AreDigits, number_at, pair_at};

use crate::text::{is_space, past, peek};

fn is_digit(b: u8) -> bool
    ensures { result ≡ digit b }
{
    b.is_ascii_digit()
}

// Whether digits are a number: 1 to 6 of them, no leading zero except 0 alone.
#[tactic(auto, unfolding(crate::specs::Numbers::numeral))]
fn is_numeral(digits: &[u8]) -> bool
    ensures { result ≡ numeral digits.now }
{
    1 <= digits.len() && digits.len() <= 6 && (digits.len() == 1 || digits[0] != b'0')
}

// What digits say in decimal.
#[tactic(auto, using(crate::proofs::Digits::none_said, crate::proofs::Digits::one_more, crate::proofs::Digits::all_said, crate::proofs::Digits::digit_range, crate::proofs::Digits::room))]
fn value_of(digits: &[u8]) -> u32
    requires few { length digits.now ≤ 6 }
    requires all { AreDigits digits.now }
    ensures { result ≡ decimal 0 digits.now }
{
    let mut value = 0;
    for digit in digits {
        value = value * 10 + (*digit as u32 - b'0' as u32);
    }
    value
}

// The number that all digits from a place on are, and the place after it.
#[tactic(auto, using(crate::proofs::Digits::digits_there, crate::proofs::Digits::digits_end, crate::proofs::Digits::number_none, crate::proofs::Digits::digits_all, crate::proofs::Digits::numeral_few))]
fn read_digits(text: &[u8], at: usize) -> Option<(u32, usize)>
    ensures { result ≡ number_at text.now at }
{
    let end = past(text, at, is_digit);
    let digits = text.get(at..end)?;
    if !is_numeral(digits) {
        return None;
    }
    Some((value_of(digits), end))
}

// The number at the front of a text, and the place after it: seven digits are no number, however many follow.
#[tactic(auto, using(crate::proofs::Digits::number_near))]
#[inline(always)]
fn read_front(text: &[u8]) -> Option<(u32, usize)>
    ensures { result ≡ number_at text.now 0 }
{
    if 7 < text.len() {
        read_digits(&text[..7], 0)
    } else {
        read_digits(text, 0)
    }
}

// The number at a place, and the place after it.
#[tactic(auto, using(crate::proofs::Digits::number_past, crate::proofs::Digits::number_absent, crate::proofs::Digits::number_from, crate::proofs::Digits::number_reach))]
#[inline(always)]
fn read_number(text: &[u8], at: usize) -> Option<(u32, usize)>
    ensures { result ≡ number_at text.now at }
{
    if text.len() <= at {
        return None;
    }
    let (value, count) = read_front(&text[at..])?;
    Some((value, at + count))
}

// The two numbers at a place, and the place after them: spaces, a number, a comma, spaces, a number and a closing bracket.
#[tactic(auto, using(crate::proofs::Digits::pair_none, crate::proofs::Digits::pair_no_comma, crate::proofs::Digits::pair_second, crate::proofs::Digits::pair_open, crate::proofs::Digits::pair_closed))]
pub(crate) fn read_pair(text: &[u8], at: usize) -> Option<(u32, u32, usize)>
    ensures { result ≡ pair_at text.now at }
{
    let (k, p) = read_number(text, past(text, at, is_space))?;
    if peek(text, p) != b',' {
        return None;
    }
    let (l, q) = read_number(text, past(text, p + 1, is_space))?;
    if peek(text, q) != b')' {
        return None;
    }
    Some((k, l, q + 1))
}
