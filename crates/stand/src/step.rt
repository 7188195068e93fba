// One step: what an instruction does to the position.
ghost use Rattle.std.specs.Prelude.{◌≡◌, ◌<◌, ◌==◌, length, position};
ghost use Rattle.refusals.specs.Limits.{document01};
ghost use Rattle.instructions.specs.Places.{label_place};
ghost use Rattle.machine.specs.Machine.{label_at, step};
ghost use Rattle.stand.specs.Steps.{program, Stepping};

use crate::program::Program;
use instructions::{Instruction, Operation};
use machine::Position;

// The first place of the word in the listing.
fn first_place(listing: &[u64], word: u64) -> Option<usize>
    ensures { result ≡ position (λ w. w == word) listing.now }
{
    listing.iter().position(|w| *w == word)
}

impl Program<'_> {
    // The place of the label's mark.
    fn find_label(&self, label: u32) -> u32
        requires { label_place self.now.listing.now label < length self.now.listing.now }
        ensures { result ≡ label_at (program self.now.listing.now) label }
    {
        let mark = u64::from(Instruction {
            operation: Operation::Label,
            loop_number: 0,
            label_number: label,
        });
        first_place(self.listing, mark).unwrap() as u32
    }

    // One step of the instruction that stands at the position.
    #[tactic(auto, using(std::proofs::lemmas::Bool::Decides::nat_tests, crate::proofs::Stepping::step_rules), unfolding(machine::specs::Machine::step))]
    pub(crate) fn execute(&self, instruction: Instruction, position: &mut Position)
        requires { Stepping document01 self.now.listing.now instruction position.old }
        ensures { position.new ≡ step (program self.now.listing.now) position.old instruction }
    {
        let lp = instruction.loop_number as usize;
        let label = instruction.label_number;
        let count = position.counts[lp];
        position.next += 1;
        match instruction.operation {
            Operation::Block(_, l) => position.beat += l as u64,
            Operation::Loop => position.counts[lp] = 1,
            Operation::Repeat(t) => {
                if count < t {
                    position.counts[lp] = count + 1;
                    position.next = self.loops[lp].mark as u32 + 1;
                }
            }
            Operation::Label => {}
            Operation::Jump(t) => {
                if count == t {
                    position.next = self.find_label(label);
                }
            }
            Operation::JumpUnless(t) => {
                if count != t {
                    position.next = self.find_label(label);
                }
            }
        }
    }
}
