// The sign at a place of a list of words, and what the readers ask of it.
ghost use Rattle.std.specs.Prelude.{◌≡◌, ◌≤◌, length};
ghost use Rattle.grammar.specs.Kinds.{sign_at, halt_at, goes_on, ends_here};

use crate::stretch::Last;
use signs::Sign;

// Where no score goes on.
#[derive(Clone, Copy, Debug, PartialEq, Eq)]
pub struct Halt {
    pub at: usize,
}

// The sign at a place, if one stands there.
#[tactic(auto, unfolding(crate::specs::Kinds::sign_at))]
pub(crate) fn sign_at(words: &[u64], at: usize) -> Option<Sign>
    ensures { result ≡ sign_at words.now at }
{
    Sign::try_from(*words.get(at)?).ok()
}

// Where the readers halt at a sign that cannot stand at a place: one later for a `:|` directly after a group, which a `[` could have followed.
pub(crate) fn halt_at(words: &[u64], last: Last, at: usize) -> Halt
    requires { at ≤ length words.now }
    ensures { result ≡ halt_at words.now last at }
{
    match (last, sign_at(words, at)) {
        (Last::Group, Some(Sign::RightRepeat)) => Halt { at: at + 1 },
        _ => Halt { at },
    }
}

// Whether `:|` and `[` stand at a place.
pub(crate) fn goes_on(words: &[u64], at: usize) -> bool
    requires { at ≤ length words.now }
    ensures { result ≡ goes_on words.now at }
{
    sign_at(words, at) == Some(Sign::RightRepeat)
        && sign_at(words, at + 1) == Some(Sign::OpenEnding)
}

// Whether the last run of a part ends at a place: at a sign between runs, or where the signs end.
pub(crate) fn ends_here(words: &[u64], at: usize) -> bool
    ensures { result ≡ ends_here words.now at }
{
    match sign_at(words, at) {
        Some(Sign::Jump(_) | Sign::Segno | Sign::Coda | Sign::ToCoda | Sign::Fine) => true,
        Some(_) => false,
        None => words.len() <= at,
    }
}
