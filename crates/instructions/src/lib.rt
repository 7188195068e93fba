// The six instructions, one word each in a listing.
#![tactic(auto)]

pub mod listing;

ghost use Rattle.std.specs.Prelude.{◌≡◌, Some, ok_or};
ghost use Rattle.instructions.specs.Words.{word, packed, decoded, unpacked, not_an_instruction};

use std::error::Error;
use std::fmt;
use words::Parts;

// What an instruction does; the loop and the label that it names stand beside it.
#[derive(Clone, Copy, Debug, PartialEq, Eq)]
pub enum Operation {
    // Play the block of these two numbers, k and l.
    Block(u32, u32),
    // Set the loop's count to 1.
    Loop,
    // Go back behind the loop's mark until the count is this number.
    Repeat(u16),
    // Nothing: jumps come here.
    Label,
    // Go to the label if the loop's count is this number.
    Jump(u16),
    // Go to the label if the loop's count is not this number.
    JumpUnless(u16),
}

// A number that the operation does not use is 0.
#[derive(Clone, Copy, Debug, PartialEq, Eq)]
pub struct Instruction {
    pub operation: Operation,
    pub loop_number: u8,
    pub label_number: u32,
}

// The kind in 8 bits, the loop in 8, T in 16 and the label in 32.
fn join(kind: u8, lp: u8, t: u16, label: u32) -> u64
    ensures { result ≡ word kind lp t label }
{
    let parts = kind as u64 + 256 * (lp as u64) + 65536 * (t as u64);
    parts + 4294967296 * (label as u64)
}

// A word that packs no instruction.
#[derive(Clone, Copy, Debug, PartialEq, Eq)]
pub struct NotAnInstruction(pub u64);

impl fmt::Display for NotAnInstruction {
    ghost output = { λ e. Some (not_an_instruction e) };

    fn fmt<W: fmt::Write>(&self, f: &mut fmt::Formatter<W>) -> fmt::Result {
        write!(f, "no instruction has the word {}", self.0)
    }
}

impl Error for NotAnInstruction {}

// The instruction's word; 0 where a number does not fit or an unused one is not 0.
impl From<Instruction> for u64 {
    ghost from_gives = { λ i w. w ≡ packed i };

    #[tactic(auto, unfolding(crate::specs::Words::packed))]
    fn from(i: Instruction) -> u64 {
        let lp = i.loop_number;
        let label = i.label_number;
        match i.operation {
            Operation::Block(k, l) if lp == 0 && label == 0 => {
                u64::from(Parts {
                    kind: 1,
                    first: k,
                    second: l,
                })
            }
            Operation::Loop if label == 0 => join(2, lp, 0, 0),
            Operation::Repeat(t) if label == 0 => join(3, lp, t, 0),
            Operation::Label if lp == 0 => join(4, 0, 0, label),
            Operation::Jump(t) => join(5, lp, t, label),
            Operation::JumpUnless(t) => join(6, lp, t, label),
            _ => 0,
        }
    }
}

impl Instruction {
    // The instruction that the word's kind and numbers make.
    #[tactic(auto, unfolding(crate::specs::Words::decoded))]
    pub fn decode(word: u64) -> Instruction
        ensures { result ≡ decoded word }
    {
        let Parts {
            kind,
            first: k,
            second: l,
        } = Parts::from(word);
        let lp = (word / 256 % 256) as u8;
        let t = (word / 65536 % 65536) as u16;
        let label = (word / 4294967296) as u32;
        let (operation, loop_number, label_number) = match kind {
            1 => (Operation::Block(k, l), 0, 0),
            2 => (Operation::Loop, lp, 0),
            3 => (Operation::Repeat(t), lp, 0),
            4 => (Operation::Label, 0, label),
            5 => (Operation::Jump(t), lp, label),
            _ => (Operation::JumpUnless(t), lp, label),
        };
        Instruction {
            operation,
            loop_number,
            label_number,
        }
    }
}

// A word is an instruction exactly when it is the packing of one.
impl TryFrom<u64> for Instruction {
    type Error = NotAnInstruction;

    ghost try_from_gives = { λ w i. i ≡ ok_or (unpacked w) (record { 0 = w }) };

    #[tactic(auto, unfolding(crate::specs::Words::unpacked))]
    fn try_from(word: u64) -> Result<Instruction, NotAnInstruction> {
        let i = Instruction::decode(word);
        if word != 0 && u64::from(i) == word {
            Ok(i)
        } else {
            Err(NotAnInstruction(word))
        }
    }
}
