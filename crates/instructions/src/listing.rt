// Test 11: the first instruction of a listing that breaks a rule, in two passes over it.
ghost use Rattle.std.specs.Prelude.{◌≡◌, ◌&&◌, ltb, length};
ghost use Rattle.refusals.specs.Limits.{document01};
ghost use Rattle.instructions.specs.Forms.{loop_of, label_of};
ghost use Rattle.instructions.specs.Words.{unpacked};
ghost use Rattle.instructions.specs.Test.{kept_by, test_listing, checking};
ghost use Rattle.instructions.specs.Tables.{mark_in, rep_in, label_in, put_in, Filled};

use crate::{Instruction, Operation};
use refusals::{INSTRUCTIONS, LABELS, LOOPS, NUMBER, Refusal, TIMES};

// The places of a loop's first mark and first `rep`; the listing's length where it has none.
#[derive(Clone, Copy, Debug, PartialEq, Eq)]
pub struct Looped {
    pub mark: usize,
    pub rep: usize,
}

// The answer of test 11, and beside it the places of each loop.
#[derive(Clone, Copy, Debug, PartialEq, Eq)]
pub struct Checked {
    pub tested: Result<(), Refusal>,
    pub loops: [Looped; LOOPS],
}

// The places of each loop and of each label's first mark.
#[derive(Clone, Copy)]
struct Tables {
    loops: [Looped; LOOPS],
    labels: [usize; LABELS],
}

impl Tables {
    // Fills the tables in place with those of a listing, going up from its end.
    fn fill(&mut self, listing: &[u64])
        ensures { Filled document01 listing.now 0 self.new }
    {
        let n = listing.len();
        self.loops = [Looped { mark: n, rep: n }; LOOPS];
        self.labels.fill(n);
        for i in (0..n).rev() {
            if let Ok(x) = Instruction::try_from(listing[i]) {
                self.put(i, x);
            }
        }
    }

    // Puts the place i of an instruction that marks or repeats a loop, or marks a label.
    fn put(&mut self, i: usize, x: Instruction)
        ensures { self.new ≡ put_in self.old i (loop_of x) (label_of x) x.operation }
    {
        let lp = x.loop_number as usize;
        let label = x.label_number as usize;
        match x.operation {
            Operation::Loop if lp < LOOPS => self.loops[lp].mark = i,
            Operation::Repeat(_) if lp < LOOPS => self.loops[lp].rep = i,
            Operation::Label if label < LABELS => self.labels[label] = i,
            _ => {}
        }
    }

    // Whether the word at i, of n, keeps the rules.
    fn keeps(&self, n: usize, i: usize, word: u64) -> bool
        ensures { result ≡ (ltb i document01.instructions && kept_by document01 n i (mark_in self.now) (rep_in self.now) (label_in self.now) (unpacked word)) }
    {
        let Ok(x) = Instruction::try_from(word) else {
            return false;
        };
        let lp = x.loop_number as usize;
        let label = x.label_number as usize;
        if i >= INSTRUCTIONS || lp >= LOOPS || label >= LABELS {
            return false;
        }
        let Looped { mark, rep } = self.loops[lp];
        let label = self.labels[label];
        match x.operation {
            Operation::Block(k, l) => (1..=NUMBER).contains(&l) && k <= NUMBER,
            Operation::Loop => mark == i && i < rep && rep < n,
            Operation::Repeat(t) => (1..=TIMES).contains(&t) && mark < i && rep == i,
            Operation::Label => label == i,
            Operation::Jump(t) | Operation::JumpUnless(t) => {
                (1..=TIMES).contains(&t) && mark < i && label < n
            }
        }
    }

    // Refuses at the first instruction that breaks a rule.
    #[tactic(auto, using(crate::proofs::Passed::told, crate::proofs::Passed::passed_more, crate::proofs::Passed::is_good))]
    fn test(&self, listing: &[u64]) -> Result<(), Refusal>
        requires { Filled document01 listing.now 0 self.now }
        ensures { result ≡ test_listing document01 listing.now }
    {
        for (i, &word) in listing.iter().enumerate() {
            if !self.keeps(listing.len(), i, word) {
                return Err(Refusal::BadListing(i as u64));
            }
        }
        Ok(())
    }
}

// Test 11, with the places of each loop.
#[tactic(auto, using(crate::proofs::Tables::checked))]
pub fn check(listing: &[u64]) -> Checked
    ensures { result ≡ checking document01 listing.now }
{
    let mut tables = Tables {
        loops: [Looped { mark: 0, rep: 0 }; LOOPS],
        labels: [0; LABELS],
    };
    tables.fill(listing);
    Checked {
        tested: tables.test(listing),
        loops: tables.loops,
    }
}

// Test 11: good, or the first instruction that breaks a rule.
#[tactic(auto, unfolding(crate::specs::Test::checking))]
pub fn test(listing: &[u64]) -> Result<(), Refusal>
    ensures { result ≡ test_listing document01 listing.now }
{
    check(listing).tested
}
