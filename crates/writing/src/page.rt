// A page: a lent buffer that text is laid into, and the place behind what is laid.
ghost use Rattle.std.specs.Prelude.{◌≡◌, ◌≤◌, [], ◌∷◌, T};
ghost use Rattle.std.specs.Fmt.{decimal};
ghost use Rattle.refusals.specs.Limits.{document01};
ghost use Rattle.signs.specs.declared.sign.Sign.{Sign};
ghost use Rattle.signs.specs.Words.{parts_of};
ghost use Rattle.writing.specs.Laid.{Laid};
ghost use Rattle.writing.specs.Spell.{pair_text, spell};
ghost use Rattle.writing.specs.Writing.{both_small, small};

use words::Parts;

// What no longer fits the buffer is counted and not laid.
#[derive(Drop)]
pub(crate) struct Page<'a> {
    out: &'a mut [u8],
    pub at: usize,
}

impl<'a> Page<'a> {
    // An empty page.
    pub(crate) fn new(out: &'a mut [u8]) -> Page<'a>
        ensures same_buffer { result.out.ghost_name ≡ out.entry.ghost_name }
        ensures content { result.out.now ≡ out.old }
        ensures place { result.at ≡ 0 }
    {
        Page { out, at: 0 }
    }

    // Puts a byte.
    fn put_byte(&mut self, byte: u8)
        ensures { Laid self.old (byte ∷ []) self.new }
    {
        if self.at < self.out.len() {
            self.out[self.at] = byte;
        }
        self.at = self.at.wrapping_add(1);
    }

    // Puts bytes by a copy of a slice.
    #[inline(always)]
    fn put_slice(&mut self, text: &[u8])
        ensures { Laid self.old text.now self.new }
    {
        let begin = self.at;
        let end = begin.saturating_add(text.len());
        if end <= self.out.len() {
            self.out[begin..end].copy_from_slice(text);
        }
        self.at = end;
    }

    // Puts bytes, one or two of them without a copy of a slice.
    #[inline(always)]
    pub(crate) fn put(&mut self, text: &[u8])
        ensures { Laid self.old text.now self.new }
    {
        match text {
            [byte] => self.put_byte(*byte),
            [first, second] => {
                self.put_byte(*first);
                self.put_byte(*second);
            }
            _ => self.put_slice(text),
        }
    }

    // Puts a number of more than one digit, two of them without a buffer.
    fn put_digits(&mut self, n: u32)
        requires { 10 ≤ n }
        ensures { Laid self.old (decimal n) self.new }
    {
        if n < 100 {
            return self.put(&[b'0' + (n / 10) as u8, b'0' + (n % 10) as u8]);
        }
        let mut digits = itoa::Buffer::new();
        self.put_slice(digits.format(n).as_bytes());
    }

    // Puts a number, one digit as a byte.
    #[inline(always)]
    fn put_number(&mut self, n: u32)
        ensures { Laid self.old (decimal n) self.new }
    {
        if n < 10 {
            self.put_byte(b'0' + n as u8);
        } else {
            self.put_digits(n);
        }
    }

    // Puts two numbers, with no space after the comma, and the closing bracket.
    fn put_pair(&mut self, k: u32, l: u32)
        requires { T (both_small document01 k l) }
        ensures { Laid self.old (pair_text k l) self.new }
    {
        self.put_number(k);
        self.put(b",");
        self.put_number(l);
        self.put(b")");
    }

    // Puts the sign of these parts: its letters, and the numbers that it carries behind them.
    #[inline(always)]
    pub(crate) fn put_sign(&mut self, parts: Parts)
        requires { (s : Sign) × (parts ≡ parts_of s) × T (small document01 s) }
        ensures { (s : Sign) → parts ≡ parts_of s → Laid self.old (spell s) self.new }
    {
        self.put(signs::letters(parts.kind as usize - 1));
        if parts.kind <= 2 {
            self.put_pair(parts.first, parts.second);
        }
    }
}
