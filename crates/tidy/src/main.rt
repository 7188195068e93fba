// Sign text on standard input; the same signs as the writer writes them on standard output, or the refusal.

#![tactic(auto)]

ghost use Rattle.std.specs.Prelude.{◌≡◌, ◌≤◌, length, take, IfOk};
ghost use Rattle.std.specs.Io.KnownBytes.{Consumes};
ghost use Rattle.tidy.specs.Tidy.{tidied, tidied_buffer};

use refusals::{BYTES, Refusal, SIGNS};
use std::io::{self, ErrorKind, Read};

// Fills the buffer from the input, and says how many bytes came; a read that fails is the end of the input.
fn fill<R: Read>(input: &mut R, text: &mut [u8]) -> usize
    ensures within { result ≤ length text.new }
    ensures bytes { Consumes (R.remaining input.old) (R.remaining input.new) (take result text.new) }
{
    let mut n = 0;
    for _ in 0..u64::MAX {
        if n >= text.len() {
            break;
        }
        match input.read(&mut text[n..]) {
            Ok(0) => break,
            Ok(got) => n += got,
            Err(e) => {
                if e.kind() != ErrorKind::Interrupted {
                    break;
                }
            }
        }
    }
    n
}

// Writes the signs of a text into a buffer; answers how many bytes there are.
#[tactic(auto, using(crate::proofs::Words::words_read, writing::proofs::Lining::fits_room))]
fn tidy(text: &[u8], out: &mut [u8]) -> Result<usize, Refusal>
    ensures answer { result ≡ tidied text.now (length out.old) }
    ensures buffer { out.new ≡ tidied_buffer text.now out.old }
    ensures within { IfOk result (λ n. n ≤ length out.new) }
{
    let mut words = [0u64; SIGNS];
    let n = reading::read_signs(text, &mut words)?;
    writing::write_signs(&words[..n], out)
}

fn main(rt: HostRuntime) -> io::Result<()> {
    let mut text = [0u8; BYTES + 1];
    let mut out = [0u8; BYTES];
    let n = fill(&mut rt.stdin(), &mut text);
    match tidy(&text[..n], &mut out) {
        Ok(n) => rt.write_all(&out[..n]),
        Err(refusal) => println!(rt; "{refusal}"),
    }
}
