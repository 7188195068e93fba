// The reader of a whole score: its runs and the signs between them.
ghost use Rattle.std.specs.Prelude.{◌≡◌, ◌≤◌, ◌<◌, length};
ghost use Rattle.grammar.specs.Parts.{moved_as, ended_as};
ghost use Rattle.grammar.specs.Wholes.{start_at, opened_as, FromIs, LeaveIs, RestIs, ScoreIs};

use crate::part::Part;
use crate::place::Halt;
use crate::stretch::Stretch;
use crate::tally::Tally;
use crate::{first, place, run};
use score::Shape;
use signs::Sign;

// What was read of a score: the place behind it, the part that follows, the place of the first `|:` that is too deep, the tally of all runs, and that of the run that is replayed.
#[derive(Clone, Copy)]
struct Sofar {
    at: usize,
    part: Part,
    deep: Option<usize>,
    once: Tally,
    again: Tally,
}

// A whole score: its shape, and the rest as of what was read.
#[derive(Clone, Copy, Debug, PartialEq, Eq)]
pub struct Whole {
    pub at: usize,
    pub shape: Shape,
    pub deep: Option<usize>,
    pub once: Tally,
    pub again: Tally,
}

impl Sofar {
    // Nothing but a time sign was read.
    fn opened(start: usize) -> Sofar
        ensures { result ≡ opened_as start }
    {
        Sofar {
            at: start,
            part: Part::A,
            deep: None,
            once: Tally::default(),
            again: Tally::default(),
        }
    }

    // On to a part behind the run of this one and the sign after it; the first run is replayed, unless a Segno leads to the second.
    fn moved(self, part: Part, run: Stretch) -> Sofar
        requires { run.at < usize.MAX }
        ensures { result ≡ moved_as part self run }
    {
        let again = match self.part {
            Part::A | Part::BehindSegno => run.tally,
            _ => self.again,
        };
        Sofar {
            at: run.at + 1,
            part,
            deep: self.deep.or(run.deep),
            once: self.once.join(run.tally),
            again,
        }
    }

    // The score ends behind the run of this part.
    fn ended(self, shape: Shape, run: Stretch) -> Whole
        ensures { result ≡ ended_as shape self run }
    {
        Whole {
            at: run.at,
            shape,
            deep: self.deep.or(run.deep),
            once: self.once.join(run.tally),
            again: self.again,
        }
    }
}

// Behind a run of a part: where the sign there leads, or the end.
#[cycle(leave_read_from)]
fn leave(words: &[u64], s: Sofar, run: Stretch) -> Result<Whole, Halt>
    requires { run.at ≤ length words.now }
    ensures { LeaveIs words.now s run result }
{
    let halt = Halt { at: run.at };
    if run.at == words.len() {
        let shape = s.part.shape().ok_or(halt)?;
        return Ok(s.ended(shape, run));
    }
    let sign = place::sign_at(words, run.at).ok_or(halt)?;
    let part = s.part.leads_to(sign).ok_or(halt)?;
    read_from(words, s.moved(part, run))
}

// On from a part.
#[cycle(leave_read_from)]
fn read_from(words: &[u64], s: Sofar) -> Result<Whole, Halt>
    requires { s.at ≤ length words.now }
    ensures { FromIs words.now s result }
{
    if !s.part.has_run() {
        return leave(words, s, Stretch::empty(s.at));
    }
    let run = run::read_items(words, 0, s.at)?;
    if !place::ends_here(words, run.at) {
        return Err(place::halt_at(words, run.last, run.at));
    }
    leave(words, s, run)
}

// The place of the first item: behind a time sign, if one stands first.
fn start_of(words: &[u64]) -> usize
    ensures { result ≡ start_at words.now }
{
    match place::sign_at(words, 0) {
        Some(Sign::Time(_, _)) => 1,
        _ => 0,
    }
}

// On behind the first item, which stands at `start`.
fn read_rest(words: &[u64], start: usize, item: Stretch) -> Result<Whole, Halt>
    requires { item.at ≤ length words.now }
    ensures { RestIs words.now start item result }
{
    let run = first::read_first(words, item)?;
    leave(words, Sofar::opened(start), run)
}

// The score that a list of words is.
#[tactic(auto, using(crate::proofs::Heads::stands))]
pub fn read_score(words: &[u64]) -> Result<Whole, Halt>
    ensures { ScoreIs words.now result }
{
    let start = start_of(words);
    match place::sign_at(words, start) {
        Some(Sign::Block(_, beats)) => {
            read_rest(words, start, Stretch::block(start + 1, beats as u64))
        }
        Some(Sign::LeftRepeat) => {
            let item = run::read_group(words, 0, start)?;
            read_rest(words, start, item)
        }
        _ => Err(Halt { at: start }),
    }
}
