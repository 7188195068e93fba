// The numbers in the signs: the first sign that breaks its rule, and the beats that the signs write.

#![tactic(auto)]

mod rules;

ghost use Rattle.std.specs.Prelude.{◌≡◌, ◌-◌, ◌^◌, min};
ghost use Rattle.refusals.specs.Limits.{document01};
ghost use Rattle.score.specs.Numbers.{written, first_break};
ghost use Rattle.numbers.specs.Listed.{listed};

use rules::{beats_of, keeps};
use signs::Sign;

// The place of the first sign that breaks its rule for numbers, if one does before a word that is no sign.
#[tactic(auto, using(crate::proofs::Onward::on_start, crate::proofs::Onward::listed_none, crate::proofs::Onward::breaks_here, crate::proofs::Onward::breaks_later, crate::proofs::Listed::keeps_within))]
pub fn first_break(words: &[u64]) -> Option<usize>
    ensures { result ≡ first_break document01 0 (listed words.now) }
{
    let mut end = 0;
    for (place, word) in words.iter().enumerate() {
        let sign = Sign::try_from(*word).ok()?;
        if !keeps(sign, end) {
            return Some(place);
        }
        end += beats_of(sign);
    }
    None
}

// The beats that the signs write before a word that is none, or the most that 64 bits hold.
#[tactic(auto, using(crate::proofs::Onward::listed_none))]
pub fn written_beats(words: &[u64]) -> u64
    ensures { result ≡ min (written (listed words.now)) (2 ^ 64 - 1) }
{
    let mut beats: u64 = 0;
    for word in words {
        let Ok(sign) = Sign::try_from(*word) else {
            break;
        };
        beats = beats.saturating_add(beats_of(sign) as u64);
    }
    beats
}
