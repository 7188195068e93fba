// The machine that runs a listing: where it stands.
#![tactic(auto)]

ghost use Rattle.std.specs.Prelude.{◌≡◌};
ghost use Rattle.refusals.specs.Limits.{document01};
ghost use Rattle.machine.specs.Machine.{fresh_of};

// A saved position: the next instruction's place, the loops' counts, and the performed beat.
#[derive(Clone, Copy, Debug, PartialEq, Eq)]
pub struct Position {
    pub next: u32,
    pub counts: [u16; refusals::LOOPS],
    pub beat: u64,
}

impl Position {
    // The position from which a listing is begun.
    pub fn fresh() -> Position
        ensures { result ≡ fresh_of document01 }
    {
        Position {
            next: 0,
            counts: [0; refusals::LOOPS],
            beat: 0,
        }
    }
}
