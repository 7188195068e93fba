// The figures of a score that was read.
ghost use Rattle.std.specs.Prelude.{◌≡◌};
ghost use Rattle.examining.specs.Figured.{marks, instructions, time_in, blocks_in, figured};

use grammar::{Tally, Whole, add};
use score::{Figures, Shape};
use signs::Sign;

// What the signs between the runs of a shape come to.
fn marks(shape: Shape) -> Tally
    ensures { result ≡ marks shape }
{
    let (loops, labels, steps) = match shape {
        Shape::Straight => (0, 0, 0),
        Shape::DaCapo | Shape::DalSegno => (1, 0, 3),
        Shape::DaCapoFine | Shape::DalSegnoFine | Shape::DaCapoCoda | Shape::DalSegnoCoda => {
            (1, 1, 5)
        }
    };
    Tally {
        loops,
        labels,
        steps,
        ..Tally::default()
    }
}

// The instructions of a listing: a block is one; a loop two, its mark and its `rep`; a label two, its mark and the jump to it.
fn instructions(blocks: u64, written: Tally) -> u64
    ensures { result ≡ instructions blocks written }
{
    let marks = add(written.loops, written.labels);
    add(blocks, add(marks, marks))
}

// The time sign that stands first, if one does.
fn time_in(words: &[u64]) -> Option<(u32, u32)>
    ensures { result ≡ time_in words.now }
{
    match Sign::try_from(*words.first()?) {
        Ok(Sign::Time(m, n)) => Some((m, n)),
        _ => None,
    }
}

// The blocks of words.
fn blocks_in(words: &[u64]) -> u64
    ensures { result ≡ blocks_in words.now }
{
    words
        .iter()
        .filter(|word| matches!(Sign::try_from(**word), Ok(Sign::Block(_, _))))
        .count() as u64
}

// What a score is, of which this is kept; so many beats are written.
pub fn of_score(words: &[u64], whole: Whole, beats: u64) -> Figures
    ensures { result ≡ figured words.now whole beats }
{
    let written = whole.once.join(marks(whole.shape));
    let played = written.join(whole.again);
    Figures {
        shape: whole.shape,
        time: time_in(words),
        loops: written.loops,
        implied: written.implied,
        labels: written.labels,
        instructions: instructions(blocks_in(words), written),
        blocks: played.blocks,
        written: beats,
        beats: played.beats,
        steps: played.steps,
    }
}
