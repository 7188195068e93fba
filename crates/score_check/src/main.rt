// Vectors for the reading of a score: the scores to check by, each refusal at its edge, and scores as long as the limit of signs allows.
#![tactic(auto)]

mod cases;

use std::io;

fn main(rt: HostRuntime) -> io::Result<()> {
    cases::repeats(&rt)?;
    cases::jumps(&rt)?;
    cases::worked(&rt)?;
    cases::refused(&rt)?;
    cases::numbers(&rt)?;
    cases::limits(&rt)?;
    cases::long(&rt)
}
