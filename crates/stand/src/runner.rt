// A run into a lent play buffer.
ghost use Rattle.std.specs.Prelude.{◌≡◌, ◌+◌, ◌*◌, ◌<◌, ◌≤◌, ◌^◌, length, Ok};
ghost use Rattle.refusals.specs.Limits.{document01};
ghost use Rattle.machine.specs.Machine.{run};
ghost use Rattle.stand.specs.Runs.{outcome, ran, running};
ghost use Rattle.stand.specs.Steps.{program};
ghost use Rattle.stand.specs.Turns.{Turned};

use crate::program::Program;
use crate::{Ended, Stop};
use instructions::{Instruction, Operation};
use machine::Position;
use played::Played;
use refusals::Refusal;

impl Program<'_> {
    // Halted, allowance used or play buffer full, tested in that order; else one step, and the entry that it plays.
    #[tactic(auto, using(crate::proofs::Turning::halts, crate::proofs::Turning::uses, crate::proofs::Turning::fills))]
    fn turn(
        &self,
        position: &mut Position,
        allowance: u32,
        room: usize,
    ) -> Result<Option<Played>, Stop>
        requires { position.old.beat + allowance * document01.number < 2 ^ 64 }
        ensures { Turned document01 (program self.now.listing.now) allowance room position.old result position.new }
    {
        let Some(word) = self.listing.get(position.next as usize) else {
            return Err(Stop::Halted);
        };
        if allowance == 0 {
            return Err(Stop::AllowanceUsed);
        }
        let instruction = Instruction::decode(*word);
        let entry = match instruction.operation {
            Operation::Block(_, _) if room == 0 => return Err(Stop::BufferFull),
            Operation::Block(k, l) => Some(Played {
                k,
                l,
                z: position.beat,
            }),
            _ => None,
        };
        self.execute(instruction, position);
        Ok(entry)
    }

    // Runs from the position, and writes each block that it plays into the buffer.
    fn run(&self, mut position: Position, allowance: u32, play: &mut [Played]) -> Ended
        requires { position.beat ≤ document01.beat }
        ensures { outcome (Ok result) play.new ≡ ran (run (program self.now.listing.now) allowance (length play.old) position) play.old }
    {
        let mut entries = 0;
        for steps in 0..=allowance {
            match self.turn(&mut position, allowance - steps, play.len() - entries) {
                Ok(Some(entry)) => {
                    play[entries] = entry;
                    entries += 1;
                }
                Ok(None) => {}
                Err(stop) => {
                    return Ended {
                        stop,
                        steps,
                        entries,
                        position,
                    };
                }
            }
        }
        unreachable!()
    }
}

// Runs a listing from a position for at most so many steps, and writes each block that it plays into the buffer.
pub fn run(
    listing: &[u64],
    position: Position,
    allowance: u32,
    play: &mut [Played],
) -> Result<Ended, Refusal>
    ensures { outcome result play.new ≡ running document01 listing.now position allowance play.old }
{
    let program = Program::open(listing, &position)?;
    Ok(program.run(position, allowance, play))
}
