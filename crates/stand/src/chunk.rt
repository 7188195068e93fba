// Runs for callers that lend no buffer: what is played comes by value.
ghost use Rattle.std.specs.Prelude.{◌≡◌};
ghost use Rattle.refusals.specs.Limits.{document01};
ghost use Rattle.stand.specs.Runs.{blanks, outcome, running};

use crate::Ended;
use crate::runner::run;
use machine::Position;
use played::Played;
use refusals::Refusal;

// How many entries the buffer has that most callers want.
pub const CHUNK: usize = 64;

// A run's answer, and the entries that it wrote; those behind them are all zero.
#[derive(Clone, Copy, Debug, PartialEq, Eq)]
pub struct Chunk<const N: usize> {
    pub answer: Result<Ended, Refusal>,
    pub entries: [Played; N],
}

// A run with a buffer of so many entries.
pub fn run_chunk<const N: usize>(listing: &[u64], position: Position, allowance: u32) -> Chunk<N>
    ensures { outcome result.answer result.entries ≡ running document01 listing.now position allowance (blanks N) }
{
    let mut entries = [Played::default(); N];
    let answer = run(listing, position, allowance, &mut entries);
    Chunk { answer, entries }
}
