// The reading of a score: its grammar, what it plays, its numbers and limits, and the laws of all these.

#![tactic(auto)]

// The seven shapes of a score.
#[derive(Clone, Copy, Debug, PartialEq, Eq)]
pub enum Shape {
    Straight,
    DaCapo,
    DalSegno,
    DaCapoFine,
    DalSegnoFine,
    DaCapoCoda,
    DalSegnoCoda,
}

// What is told of a score that is taken.
#[derive(Clone, Copy, Debug, PartialEq, Eq)]
pub struct Figures {
    pub shape: Shape,
    // The time sign, if it has one: m beats to the bar, each a 1/n note.
    pub time: Option<(u32, u32)>,
    // The loops of its listing, and those of them whose left repeat lacks.
    pub loops: u64,
    pub implied: u64,
    pub labels: u64,
    pub instructions: u64,
    // The blocks it plays.
    pub blocks: u64,
    // The beats written, and the beats played.
    pub written: u64,
    pub beats: u64,
    pub steps: u64,
}
