// The stand: runs a listing, and writes what it plays into a lent buffer.
#![tactic(auto)]

ghost use Rattle.std.specs.Prelude.{Some};
ghost use Rattle.stand.specs.Printed.{printed_stop, printed};

mod chunk;
mod program;
mod runner;
mod step;

pub use chunk::{CHUNK, Chunk, run_chunk};
use machine::Position;
pub use runner::run;
use std::fmt;

// Why a run stopped.
#[derive(Clone, Copy, Debug, PartialEq, Eq)]
pub enum Stop {
    // Past the last instruction.
    Halted,
    // The allowance is used.
    AllowanceUsed,
    // The next instruction is a block, and the play buffer has no room.
    BufferFull,
}

impl fmt::Display for Stop {
    ghost output = { λ s. Some (printed_stop s) };

    fn fmt<W: fmt::Write>(&self, f: &mut fmt::Formatter<W>) -> fmt::Result {
        f.write_str(match self {
            Stop::Halted => "halted",
            Stop::AllowanceUsed => "used",
            Stop::BufferFull => "full",
        })
    }
}

// What a run reports: why it stopped, the steps done, the entries written, and the new position.
#[derive(Clone, Copy, Debug, PartialEq, Eq)]
pub struct Ended {
    pub stop: Stop,
    pub steps: u32,
    pub entries: usize,
    pub position: Position,
}

impl fmt::Display for Ended {
    ghost output = { λ e. Some (printed e) };

    fn fmt<W: fmt::Write>(&self, f: &mut fmt::Formatter<W>) -> fmt::Result {
        let Ended {
            stop,
            steps,
            entries,
            position,
        } = self;
        let Position { next, beat, .. } = position;
        write!(f, "{stop} {steps} {entries} {next} {beat}")
    }
}
