// The reader of the first run, in which a `|:` may lack.
ghost use Rattle.std.specs.Prelude.{◌≤◌, length};
ghost use Rattle.grammar.specs.First.{FirstIs};

use crate::place::Halt;
use crate::stretch::{Last, Left, Stretch};
use crate::{place, run};
use signs::Sign;

// On in the first run, of which some was read: a `:|` closes all of it, a `[` begins endings after it.
#[tactic(auto, using(crate::proofs::Heads::stands))]
pub(crate) fn read_first(words: &[u64], run: Stretch) -> Result<Stretch, Halt>
    requires { run.at ≤ length words.now }
    ensures { FirstIs words.now run result }
{
    let mut read = run;
    'closes: loop {
        let first = run::read_run(words, 0, read)?;
        if let Last::NoItem = first.last {
            return Err(Halt { at: first.at });
        }
        match place::sign_at(words, first.at) {
            Some(Sign::RightRepeat) => read = first.close(Left::Lacking),
            Some(Sign::OpenEnding) => {
                read = run::read_endings(words, 0, first.begin(Left::Lacking))?;
            }
            _ if place::ends_here(words, first.at) => return Ok(first),
            _ => return Err(Halt { at: first.at }),
        }
    }
}
