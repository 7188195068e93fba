// The rule of each sign for its numbers, and the beats that it writes.
ghost use Rattle.std.specs.Prelude.{◌≡◌};
ghost use Rattle.refusals.specs.Limits.{document01};
ghost use Rattle.score.specs.Numbers.{block_keeps, time_keeps, keeps, beats_of};

use refusals::NUMBER;
use signs::Sign;

// Whether a block keeps its rule: it begins where the one before ends, has a beat, and its end is within the limit.
fn block_keeps(end: u32, begin: u32, length: u32) -> bool
    ensures { result ≡ block_keeps document01 end begin length }
{
    begin == end && 0 < length && begin.saturating_add(length) <= NUMBER
}

// Whether a time sign keeps its rule: up to 99 beats to the bar, each a power of two of the note, up to 64.
fn time_keeps(m: u32, n: u32) -> bool
    ensures { result ≡ time_keeps m n }
{
    0 < m && m < 100 && matches!(n, 1 | 2 | 4 | 8 | 16 | 32 | 64)
}

// Whether a sign keeps its rule, where the blocks before it end at a beat.
pub fn keeps(sign: Sign, end: u32) -> bool
    ensures { result ≡ keeps document01 end sign }
{
    match sign {
        Sign::Block(k, l) => block_keeps(end, k, l),
        Sign::Time(m, n) => time_keeps(m, n),
        _ => true,
    }
}

// The beats that a sign writes: a block's.
pub fn beats_of(sign: Sign) -> u32
    ensures { result ≡ beats_of sign }
{
    match sign {
        Sign::Block(_, l) => l,
        _ => 0,
    }
}
