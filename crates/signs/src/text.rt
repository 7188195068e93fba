// A text from a place on: its bytes, and the gaps between and inside signs.
ghost use Rattle.std.specs.Prelude.{◌≡◌, Bool, ℕ, get_or};
ghost use Rattle.signs.specs.Text.{space, separator, beyond};

// The byte at a place, 0 past the text.
pub(crate) fn peek(text: &[u8], at: usize) -> u8
    ensures { result ≡ get_or text.now at 0 }
{
    text.get(at).copied().unwrap_or(0)
}

// Whether a byte may follow a comma inside a sign.
pub(crate) fn is_space(b: u8) -> bool
    ensures { result ≡ space b }
{
    b == b' '
}

// Whether a byte may stand between signs.
pub(crate) fn is_separator(b: u8) -> bool
    ensures { result ≡ separator b }
{
    b == b' ' || (b < b' ' && matches!(b, b'\t' | b'\n' | b'\r'))
}

// The first place from `at` on whose byte does not pass a test.
pub(crate) fn past<F: Fn(u8) -> bool>(text: &[u8], at: usize, passes: F) -> usize
    requires { F.IsAlwaysCallable passes }
    ensures { (test : ℕ → Bool) → ((b : ℕ) (t : Bool) → F.post passes b t → t ≡ test b) → result ≡ beyond test text.now at }
{
    if text.len() <= at {
        return at;
    }
    let rest = &text[at..];
    for (i, b) in rest.iter().enumerate() {
        if !passes(*b) {
            return at + i;
        }
    }
    text.len()
}
