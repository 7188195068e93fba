// A program: a listing that passed test 11; and test 12, whether a saved position fits it.
ghost use Rattle.std.specs.Prelude.{◌≡◌, get_or, leb, Ok, Some, None, MatchResult};
ghost use Rattle.std.specs.List.{list_all, zip};
ghost use Rattle.refusals.specs.Limits.{document01};
ghost use Rattle.instructions.specs.Words.{unpacked};
ghost use Rattle.instructions.specs.Test.{test_listing, table, places};
ghost use Rattle.stand.specs.Positions.{times_of, position_fits};
ghost use Rattle.stand.specs.Runs.{refusal};

use instructions::listing::{Checked, Looped, check};
use instructions::{Instruction, Operation};
use machine::Position;
use refusals::{BEAT, LOOPS, Refusal};

// A listing that passed test 11, and the places of each loop.
#[derive(Clone, Copy)]
pub(crate) struct Program<'a> {
    pub(crate) listing: &'a [u64],
    pub(crate) loops: [Looped; LOOPS],
    pub ghost good: { test_listing document01 listing.now ≡ Ok tt },
    pub ghost placed: { loops ≡ table document01.loops (places listing.now) },
}

impl<'a> Program<'a> {
    // Tests 11 and 12.
    #[tactic(auto, unfolding(instructions::specs::Test::checking))]
    pub(crate) fn open(listing: &'a [u64], position: &Position) -> Result<Self, Refusal>
        ensures { MatchResult result
            (λ p. (refusal document01 listing.now position.now ≡ None) × (p.listing.now ≡ listing.now))
            (λ why. refusal document01 listing.now position.now ≡ Some why) }
    {
        let Checked { tested, loops } = check(listing);
        tested?;
        let program = Program { listing, loops };
        if program.fits(position) {
            Ok(program)
        } else {
            Err(Refusal::BadPosition)
        }
    }

    // T of the `rep` at this place, 0 where there is none.
    #[tactic(auto, using(crate::proofs::Positions::times_out))]
    fn times(&self, rep: usize) -> u16
        ensures { result ≡ times_of (unpacked (get_or self.now.listing.now rep 0)) }
    {
        let Some(word) = self.listing.get(rep) else {
            return 0;
        };
        match Instruction::try_from(*word).map(|i| i.operation) {
            Ok(Operation::Repeat(t)) => t,
            _ => 0,
        }
    }

    // Whether no count is above its `rep`'s T.
    fn counts_fit(&self, counts: &[u16; LOOPS]) -> bool
        ensures { result ≡ list_all (λ x. leb x.1 (times_of (unpacked (get_or self.now.listing.now x.0.rep 0)))) (zip self.now.loops counts.now) }
    {
        self.loops
            .iter()
            .zip(counts)
            .all(|(places, count)| *count <= self.times(places.rep))
    }

    // Test 12.
    #[tactic(auto, unfolding(crate::specs::Positions::position_fits))]
    fn fits(&self, position: &Position) -> bool
        ensures { result ≡ position_fits document01 self.now.listing.now position.now }
    {
        position.next as usize <= self.listing.len()
            && position.beat <= BEAT
            && self.counts_fit(&position.counts)
    }
}
