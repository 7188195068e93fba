// Vectors for the stand: each rule of refusal 11 and each cause of 12, the limits at their edges, and runs.
#![tactic(auto)]

mod cases;
mod shorthand;

use std::io;

fn main(rt: HostRuntime) -> io::Result<()> {
    cases::marks(&rt)?;
    cases::loops(&rt)?;
    cases::numbers(&rt)?;
    cases::lengths(&rt)?;
    cases::positions(&rt)?;
    cases::beats(&rt)?;
    cases::runs(&rt)?;
    cases::splits(&rt)
}
