// A reader that keeps the text and its place, and hands out one sign at a time.

#![tactic(auto)]

ghost use Rattle.std.specs.Prelude.{◌≡◌};
ghost use Rattle.refusals.specs.Limits.{document01};
ghost use Rattle.signs.specs.Next.{next_sign};
ghost use Rattle.reader.specs.Reader.{behind};

use signs::Next;

// A text and a place in it.
#[derive(Clone, Copy, Debug, PartialEq, Eq)]
pub struct Reader<'a> {
    pub text: &'a [u8],
    pub at: usize,
}

// What a reader hands out, and where it then stands.
#[derive(Clone, Copy, Debug, PartialEq, Eq)]
pub struct Handed {
    pub next: Next,
    pub at: usize,
}

// Where a reader stands after what it handed out: directly behind a sign; at the end or a refusal it stays.
fn place_behind(at: usize, next: Next) -> usize
    ensures { result ≡ behind at next }
{
    match next {
        Ok(Some((_, end))) => end,
        Ok(None) => at,
        Err(_) => at,
    }
}

// What comes next at a place, and the place behind it.
fn hand_out(text: &[u8], at: usize) -> Handed
    ensures { (result.next ≡ next_sign document01 text.now at) × (result.at ≡ behind at result.next) }
{
    let next = signs::next_sign(text, at);
    Handed {
        next,
        at: place_behind(at, next),
    }
}

impl<'a> Reader<'a> {
    // A reader at a place of a text.
    pub fn open(text: &'a [u8], at: usize) -> Reader<'a>
        ensures { (result.text ≡ text.entry) × (result.at ≡ at) }
    {
        Reader { text, at }
    }

    // Hands out one sign and moves on.
    pub fn take_sign(&mut self) -> Next
        ensures { (result ≡ next_sign document01 self.old.text.now self.old.at) × (self.new.text ≡ self.old.text) × (self.new.at ≡ behind self.old.at result) }
    {
        let handed = hand_out(self.text, self.at);
        self.at = handed.at;
        handed.next
    }
}

// What a reader at a place of a text hands out first, and where it then stands.
pub fn sign_from(text: &[u8], at: usize) -> Handed
    ensures { (result.next ≡ next_sign document01 text.now at) × (result.at ≡ behind at result.next) }
{
    let mut reader = Reader::open(text, at);
    let next = reader.take_sign();
    Handed {
        next,
        at: reader.at,
    }
}
