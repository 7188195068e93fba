// What is answered for a list of sign words: the figures of a score, or a refusal.

#![tactic(auto)]

mod figures;

ghost use Rattle.std.specs.Prelude.{◌≡◌};
ghost use Rattle.refusals.specs.Limits.{document01};
ghost use Rattle.score.specs.Examined.{Examines};
ghost use Rattle.examining.specs.Judged.{sized, judged};

use grammar::Whole;
use refusals::{BLOCKS, LOOPS, Refusal, SIGNS};
use score::Figures;

// The figures, unless there are too many loops or too many blocks played.
fn sized(figures: Figures) -> Result<Figures, Refusal>
    ensures { result ≡ sized figures }
{
    if figures.loops > LOOPS as u64 {
        return Err(Refusal::TooManyLoops);
    }
    if figures.blocks > BLOCKS as u64 {
        return Err(Refusal::TooManyPlayed);
    }
    Ok(figures)
}

// What is answered for words that are a score: its first wrong number, its depth, the limits, and else its figures.
fn judged(words: &[u64], whole: Whole) -> Result<Figures, Refusal>
    ensures { result ≡ judged words.now whole }
{
    if let Some(at) = numbers::first_break(words) {
        return Err(Refusal::BadNumber(at as u64));
    }
    if let Some(at) = whole.deep {
        return Err(Refusal::TooDeep(at as u64));
    }
    sized(figures::of_score(words, whole, numbers::written_beats(words)))
}

// What is answered for a list of sign words: a score with its figures, or a refusal.
#[tactic(auto, using(crate::proofs::Answering::too_many, crate::proofs::Answering::no_score, crate::proofs::Answering::a_score))]
pub fn examine(words: &[u64]) -> Result<Figures, Refusal>
    ensures { Examines document01 words.now result }
{
    if words.len() > SIGNS {
        return Err(Refusal::TooManySigns);
    }
    match grammar::read_score(words) {
        Ok(whole) => judged(words, whole),
        Err(halt) => Err(Refusal::NoScore(halt.at as u64)),
    }
}
