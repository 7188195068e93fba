// The readers of runs, groups and endings, which call each other; the number of signs left falls in each round of calls.
ghost use Rattle.std.specs.Prelude.{◌≤◌, ◌<◌, length};
ghost use Rattle.grammar.specs.Promises.{RunIs, ItemsIs, GroupIs, EndsIs};

use crate::place;
use crate::place::Halt;
use crate::stretch::{Begun, Last, Left, Stretch};
use signs::Sign;

// On in a run of which some was read, where `depth` are open.
#[cycle(read_endings_read_group_read_items_read_run)]
#[tactic(auto, using(crate::proofs::Heads::stands))]
pub(crate) fn read_run(words: &[u64], depth: usize, run: Stretch) -> Result<Stretch, Halt>
    requires { (run.at ≤ length words.now) × (depth ≤ run.at) }
    ensures { RunIs words.now depth run result }
{
    let mut read = run;
    'items: loop {
        match place::sign_at(words, read.at) {
            Some(Sign::Block(_, beats)) => {
                let block = Stretch::block(read.at + 1, beats as u64);
                read = read.follow(block);
            }
            Some(Sign::LeftRepeat) => {
                let item = read_group(words, depth, read.at)?;
                read = read.follow(item);
            }
            _ => return Ok(read),
        }
    }
}

// The items of a run that begins at a place; it has one at least.
#[cycle(read_endings_read_group_read_items_read_run)]
#[inline(always)]
pub(crate) fn read_items(words: &[u64], depth: usize, at: usize) -> Result<Stretch, Halt>
    requires { (at ≤ length words.now) × (depth ≤ at) }
    ensures { ItemsIs words.now depth at result }
{
    let run = read_run(words, depth, Stretch::empty(at))?;
    match run.last {
        Last::NoItem => Err(Halt { at: run.at }),
        _ => Ok(run),
    }
}

// A repeat or a group whose `|:` stands at a place.
#[cycle(read_endings_read_group_read_items_read_run)]
#[tactic(auto, using(crate::proofs::Heads::stands))]
pub(crate) fn read_group(words: &[u64], depth: usize, at: usize) -> Result<Stretch, Halt>
    requires { (at < length words.now) × (depth ≤ at) }
    ensures { GroupIs words.now depth at result }
{
    let run = read_items(words, depth + 1, at + 1)?;
    let left = Left::Written(depth, at);
    match place::sign_at(words, run.at) {
        Some(Sign::RightRepeat) => Ok(run.close(left)),
        Some(Sign::OpenEnding) => read_endings(words, depth + 1, run.begin(left)),
        _ => Err(Halt { at: run.at }),
    }
}

// The endings of a group, from behind a `[` on.
#[cycle(read_endings_read_group_read_items_read_run)]
#[tactic(auto, using(crate::proofs::Heads::stands, crate::proofs::Heads::goes_within))]
pub(crate) fn read_endings(words: &[u64], depth: usize, group: Begun) -> Result<Stretch, Halt>
    requires { (group.at ≤ length words.now) × (depth ≤ group.at) }
    ensures { EndsIs words.now depth group result }
{
    let mut begun = group;
    'endings: loop {
        let ending = read_items(words, depth, begun.at)?;
        let Some(Sign::CloseEnding) = place::sign_at(words, ending.at) else {
            return Err(place::halt_at(words, ending.last, ending.at));
        };
        let next = ending.at + 1;
        if place::goes_on(words, next) {
            begun = begun.go_on(ending);
            continue;
        }
        if begun.endings == 0 {
            return Err(place::halt_at(words, Last::Group, next));
        }
        return Ok(begun.finish(ending));
    }
}
