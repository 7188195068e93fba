// All signs of a text, a word each, into a lent buffer.

#![tactic(auto)]

ghost use Rattle.std.specs.Prelude.{◌≡◌, map, ◌≤◌, length, set};
ghost use Rattle.std.proofs.lemmas.List.Edits.{sets};
ghost use Rattle.refusals.specs.Limits.{document01};
ghost use Rattle.signs.specs.Words.{word_of};
ghost use Rattle.reading.specs.Reading.{signs_of, counted, reading_of, said_reading, reading_said, buffer_of};

use refusals::{Refusal, SIGNS};
use signs::Sign;

// Keeps the word of sign n, if there is room.
fn keep(words: &mut [u64], n: usize, sign: Sign)
    ensures { words.new ≡ set words.old n (word_of sign) }
{
    if n < words.len() {
        words[n] = u64::from(sign);
    }
}

// How many signs there are, however many, with the words of those for which there is room.
fn scan(text: &[u8], words: &mut [u64]) -> Result<usize, Refusal>
    requires { length text.now ≤ document01.bytes }
    ensures count { result ≡ counted text.now }
    ensures kept { words.new ≡ sets words.old 0 (map word_of (signs_of text.now)) }
{
    let mut at: usize = 0;
    let mut n: usize = 0;
    loop {
        let Some((sign, end)) = signs::next_sign(text, at)? else {
            return Ok(n);
        };
        keep(words, n, sign);
        at = end;
        n += 1;
    }
}

// Reads all signs of a text into a buffer, which a refusal leaves as it was; answers how many there are.
#[tactic(auto, using(std::proofs::lemmas::Bool::Decides::nat_tests), unfolding(crate::specs::Reading::reading_of, crate::specs::Reading::buffer_of))]
pub fn read_signs(text: &[u8], out: &mut [u64]) -> Result<usize, Refusal>
    ensures answer { result ≡ reading_of document01 text.now (length out.old) }
    ensures numbers { said_reading document01 result ≡ reading_said document01 text.now (length out.old) }
    ensures buffer { out.new ≡ buffer_of document01 text.now out.old }
{
    if refusals::BYTES < text.len() {
        return Err(Refusal::TextTooLong);
    }
    let mut words = [0u64; SIGNS];
    let n = scan(text, &mut words)?;
    if SIGNS < n {
        return Err(Refusal::TooManySigns);
    }
    if out.len() < n {
        return Err(Refusal::NoRoom(n as u64));
    }
    out[..n].copy_from_slice(&words[..n]);
    Ok(n)
}
