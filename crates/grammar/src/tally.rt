// Sums over what was read; they stop at a bound that no score within the limits comes near, so that none wraps.
ghost use Rattle.std.specs.Prelude.{◌≡◌, ◌+◌, ◌*◌};
ghost use Rattle.grammar.specs.Tallies.{capped, block_tally, joined, repeated, grouped};

// The bound.
pub(crate) const MOST: u64 = 1000000000000;

// The sum, up to the bound.
#[tactic(auto, unfolding(crate::specs::Tallies::capped))]
pub fn add(a: u64, b: u64) -> u64
    ensures { result ≡ capped (a + b) }
{
    a.saturating_add(b).min(MOST)
}

// The product, up to the bound.
#[tactic(auto, unfolding(crate::specs::Tallies::capped))]
pub(crate) fn times(n: u64, a: u64) -> u64
    ensures { result ≡ capped (n * a) }
{
    n.saturating_mul(a).min(MOST)
}

// What is counted of a run: loops, those of them that are implied, labels, blocks and beats played, and steps.
#[derive(Clone, Copy, Debug, Default, PartialEq, Eq)]
pub struct Tally {
    pub loops: u64,
    pub implied: u64,
    pub labels: u64,
    pub blocks: u64,
    pub beats: u64,
    pub steps: u64,
}

impl Tally {
    // A block.
    pub(crate) fn block(beats: u64) -> Tally
        ensures { result ≡ block_tally beats }
    {
        Tally {
            blocks: 1,
            beats: add(beats, 0),
            steps: 1,
            ..Tally::default()
        }
    }

    // One after the other.
    pub fn join(self, next: Tally) -> Tally
        ensures { result ≡ joined self next }
    {
        Tally {
            loops: add(self.loops, next.loops),
            implied: add(self.implied, next.implied),
            labels: add(self.labels, next.labels),
            blocks: add(self.blocks, next.blocks),
            beats: add(self.beats, next.beats),
            steps: add(self.steps, next.steps),
        }
    }

    // A plain repeat of the run; `lacks` is 1 where its `|:` lacks.
    pub(crate) fn repeat(self, lacks: u64) -> Tally
        ensures { result ≡ repeated lacks self }
    {
        Tally {
            loops: add(1, self.loops),
            implied: add(lacks, self.implied),
            labels: self.labels,
            blocks: times(2, self.blocks),
            beats: times(2, self.beats),
            steps: add(3, times(2, self.steps)),
        }
    }

    // A group of n endings after the run; `lacks` is 1 where its `|:` lacks.
    pub(crate) fn group(self, lacks: u64, n: u64, ends: Tally) -> Tally
        ensures { result ≡ grouped lacks n self ends }
    {
        let turn = add(self.steps, add(times(2, n), 1));
        Tally {
            loops: add(1, add(self.loops, ends.loops)),
            implied: add(lacks, add(self.implied, ends.implied)),
            labels: add(n, add(self.labels, ends.labels)),
            blocks: add(times(n, self.blocks), ends.blocks),
            beats: add(times(n, self.beats), ends.beats),
            steps: add(1, add(times(n, turn), ends.steps)),
        }
    }
}
