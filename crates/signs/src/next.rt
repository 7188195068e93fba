// The next sign of a text, from a place on.
ghost use Rattle.std.specs.Prelude.{◌≡◌};
ghost use Rattle.refusals.specs.Limits.{document01};
ghost use Rattle.signs.specs.Next.{next_sign, said_next, next_said};

use crate::sign::Sign;
use crate::spelling::sign_at;
use crate::text::{is_separator, past};
use refusals::Refusal;

// What comes next: a sign and the place after it, nothing at the end of the text, or a refusal.
pub type Next = Result<Option<(Sign, usize)>, Refusal>;

// The next sign from a place on.
#[tactic(auto, using(crate::proofs::Coming::coming_end, crate::proofs::Coming::coming_as_lem, crate::proofs::Coming::next_long, crate::proofs::Coming::next_short))]
pub fn next_sign(text: &[u8], at: usize) -> Next
    ensures answer { result ≡ next_sign document01 text.now at }
    ensures numbers { said_next document01 result ≡ next_said document01 text.now at }
{
    if refusals::BYTES < text.len() {
        return Err(Refusal::TextTooLong);
    }
    let begin = past(text, at, is_separator);
    if text.len() <= begin {
        return Ok(None);
    }
    let Some((sign, end)) = sign_at(text, begin) else {
        return Err(Refusal::Unreadable(begin as u64));
    };
    Ok(Some((sign, end)))
}
