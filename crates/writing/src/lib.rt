// Signs written as text, into a lent buffer.

#![tactic(auto)]

mod page;

ghost use Rattle.std.specs.Prelude.{◌≡◌, ◌≤◌, T, length, not, position};
ghost use Rattle.refusals.specs.Limits.{document01};
ghost use Rattle.signs.specs.Text.{front};
ghost use Rattle.writing.specs.Spell.{spell, text_of};
ghost use Rattle.writing.specs.Laid.{Holds};
ghost use Rattle.writing.specs.Writing.{both_small, small, writable, fitted, signs_in, measured, writing_of, content_of, writing_one, content_one, said_written, writing_said, writing_said_one};

use page::Page;
use refusals::{BYTES, NUMBER, Refusal, SIGNS};
use signs::Sign;
use words::Parts;

// Whether two numbers are at most the largest that a sign carries.
fn both_small(a: u32, b: u32) -> bool
    ensures { result ≡ both_small document01 a b }
{
    a <= NUMBER && b <= NUMBER
}

// Whether a sign's numbers are so.
fn is_small(sign: &Sign) -> bool
    ensures { result ≡ small document01 sign.now }
{
    match *sign {
        Sign::Block(a, b) | Sign::Time(a, b) => both_small(a, b),
        _ => true,
    }
}

// Whether a word is a sign that can be written.
fn is_writable(word: u64) -> bool
    ensures { result ≡ writable document01 word }
{
    let Parts { first, second, .. } = Parts::from(word);
    Sign::try_from(word).is_ok() && both_small(first, second)
}

// Lays signs that can be written, one space between them and one byte 10 behind, and answers how many bytes that takes.
#[inline(always)]
fn lay_signs(words: &[u64], out: &mut [u8]) -> usize
    requires few { length words.now ≤ document01.signs }
    requires good { length words.now ≤ front (writable document01) words.now }
    ensures answer { result ≡ length (text_of (signs_in words.now)) }
    ensures laid { Holds out.old (text_of (signs_in words.now)) out.new }
{
    let mut page = Page::new(out);
    for (i, word) in words.iter().enumerate() {
        if i > 0 {
            page.put(b" ");
        }
        page.put_sign(Parts::from(*word));
    }
    page.put(b"\n");
    page.at
}

// The first word that can't be written.
fn first_unwritable(words: &[u64]) -> Option<usize>
    ensures { result ≡ position (λ w. not (writable document01 w)) words.now }
{
    words.iter().position(|word| !is_writable(*word))
}

// How many bytes signs take; refuses the first that can't be written, before any is measured.
#[tactic(auto, using(std::proofs::lemmas::Bool::Decides::nat_tests, crate::proofs::Lining::first_bad))]
fn measure(words: &[u64]) -> Result<usize, Refusal>
    requires { length words.now ≤ document01.signs }
    ensures { result ≡ measured document01 words.now }
{
    if let Some(i) = first_unwritable(words) {
        return Err(Refusal::Unwritable(i as u64));
    }
    // laid into a buffer without room for it, the text is only measured
    Ok(lay_signs(words, &mut []))
}

// Lays one sign, and answers how many bytes that takes.
#[tactic(auto, using(crate::proofs::Spelling::spell_length))]
fn lay_sign(sign: Sign, out: &mut [u8]) -> usize
    requires { T (small document01 sign) }
    ensures answer { result ≡ length (spell sign) }
    ensures laid { Holds out.old (spell sign) out.new }
{
    let mut page = Page::new(out);
    page.put_sign(Parts::from(sign));
    page.at
}

// So many bytes, if they may be written.
fn fit(room: usize, needed: usize) -> Result<usize, Refusal>
    ensures { result ≡ fitted document01 room needed }
{
    if needed > BYTES {
        return Err(Refusal::TextTooLong);
    }
    if needed > room {
        return Err(Refusal::NoRoom(needed as u64));
    }
    Ok(needed)
}

// Writes signs into a buffer, which a refusal leaves as it was; answers how many bytes there are.
#[tactic(auto, using(std::proofs::lemmas::Bool::Decides::nat_tests), unfolding(crate::specs::Writing::writing_of, crate::specs::Writing::content_of))]
pub fn write_signs(words: &[u64], out: &mut [u8]) -> Result<usize, Refusal>
    ensures answer { result ≡ writing_of document01 words.now (length out.old) }
    ensures numbers { said_written document01 result ≡ writing_said document01 words.now (length out.old) }
    ensures buffer { out.new ≡ content_of document01 words.now out.old }
{
    if words.len() > SIGNS {
        return Err(Refusal::TooManySigns);
    }
    let needed = measure(words)?;
    fit(out.len(), needed)?;
    Ok(lay_signs(words, out))
}

// Writes one sign into a buffer, which a refusal leaves as it was; answers how many bytes there are.
#[tactic(auto, using(std::proofs::lemmas::Bool::Decides::nat_tests), unfolding(crate::specs::Writing::writing_one, crate::specs::Writing::content_one))]
pub fn write_sign(sign: Sign, out: &mut [u8]) -> Result<usize, Refusal>
    ensures answer { result ≡ writing_one document01 sign (length out.old) }
    ensures numbers { said_written document01 result ≡ writing_said_one document01 sign (length out.old) }
    ensures buffer { out.new ≡ content_one document01 sign out.old }
{
    if !is_small(&sign) {
        return Err(Refusal::Unwritable(0));
    }
    let needed = lay_sign(sign, &mut []);
    fit(out.len(), needed)?;
    Ok(lay_sign(sign, out))
}
