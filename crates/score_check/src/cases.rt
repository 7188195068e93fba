// The vectors, one function for each group.
ghost use Rattle.std.specs.Prelude.{◌<◌, ◌^◌};

use examining::examine;
use score::Figures;
use signs::{Jumped, Sign};
use std::io;

const A: Sign = Sign::Block(0, 4);

const B: Sign = Sign::Block(4, 4);

const C: Sign = Sign::Block(8, 4);

const D: Sign = Sign::Block(12, 4);

const E: Sign = Sign::Block(16, 4);

const OPEN: Sign = Sign::LeftRepeat;

const CLOSE: Sign = Sign::RightRepeat;

const LEFT: Sign = Sign::OpenEnding;

const RIGHT: Sign = Sign::CloseEnding;

const SEGNO: Sign = Sign::Segno;

const FINE: Sign = Sign::Fine;

const TO_CODA: Sign = Sign::ToCoda;

const CODA: Sign = Sign::Coda;

const DC: Sign = Sign::Jump(Jumped::Dc);

const DS: Sign = Sign::Jump(Jumped::Ds);

const DC_FINE: Sign = Sign::Jump(Jumped::DcFine);

const DS_FINE: Sign = Sign::Jump(Jumped::DsFine);

const DC_CODA: Sign = Sign::Jump(Jumped::DcCoda);

const DS_CODA: Sign = Sign::Jump(Jumped::DsCoda);

// What is answered for words: the figures of a score, or the refusal.
fn words(rt: &impl Print, name: &str, words: &[u64]) -> io::Result<()> {
    match examine(words) {
        Ok(
            Figures {
                shape,
                time,
                blocks,
                written,
                beats,
                steps,
                loops,
                implied,
                labels,
                instructions,
            },
        ) => {
            print!(rt;
                "{name}: {shape:?} {time:?}, plays {blocks} {beats} of {written} in {steps}; "
            )?;
            println!(rt; "lists {loops} {implied} {labels} {instructions}")
        }
        Err(why) => println!(rt; "{name}: {why}"),
    }
}

// The same for signs.
fn score<const N: usize>(rt: &impl Print, name: &str, signs: [Sign; N]) -> io::Result<()>
    requires { N < 2 ^ 16 }
{
    words(rt, name, &signs.map(u64::from))
}

// Scores to check by: repeats and endings.
pub(crate) fn repeats(rt: &impl Print) -> io::Result<()> {
    score(rt, "a", [A])?;
    score(rt, "a :| b", [A, CLOSE, B])?;
    score(
        rt,
        "|: a |: b :| c :| d",
        [OPEN, A, OPEN, B, CLOSE, C, CLOSE, D],
    )?;
    score(
        rt,
        "|: a [ b ] :| [ c ]",
        [OPEN, A, LEFT, B, RIGHT, CLOSE, LEFT, C, RIGHT],
    )?;
    score(rt, "a :| b :| c", [A, CLOSE, B, CLOSE, C])?;
    score(
        rt,
        "a [ b ] :| [ c ] :| [ d ]",
        [
            A, LEFT, B, RIGHT, CLOSE, LEFT, C, RIGHT, CLOSE, LEFT, D, RIGHT,
        ],
    )?;
    score(
        rt,
        "a [ b ] :| [ c ] :| d",
        [A, LEFT, B, RIGHT, CLOSE, LEFT, C, RIGHT, CLOSE, D],
    )?;
    score(rt, "a and fifteen :|", closes::<16>())?;
    score(rt, "a and sixteen :|", closes::<17>())
}

// Scores with a time sign, with nested groups, and as deep as endings allow.
pub(crate) fn worked(rt: &impl Print) -> io::Result<()> {
    score(
        rt,
        "ts a Fine |: (b,4,12) :| |: e [ f ] :| [ g ] DC.Fine",
        [
            Sign::Time(4, 4),
            A,
            FINE,
            OPEN,
            Sign::Block(4, 12),
            CLOSE,
            OPEN,
            E,
            LEFT,
            block(5),
            RIGHT,
            CLOSE,
            LEFT,
            block(6),
            RIGHT,
            DC_FINE,
        ],
    )?;
    score(
        rt,
        "a [ b ] :| [ c ] [ d ] :| [ e ]",
        [
            A, LEFT, B, RIGHT, CLOSE, LEFT, C, RIGHT, LEFT, D, RIGHT, CLOSE, LEFT, E, RIGHT,
        ],
    )?;
    score(
        rt,
        "8 deep, the last a group, and |: in its ending",
        [
            OPEN, OPEN, OPEN, OPEN, OPEN, OPEN, OPEN, OPEN, A, LEFT, OPEN, B, CLOSE, RIGHT, CLOSE,
            LEFT, C, RIGHT, CLOSE, CLOSE, CLOSE, CLOSE, CLOSE, CLOSE, CLOSE,
        ],
    )?;
    score(
        rt,
        "8 deep, the last a group, and |: behind it",
        [
            OPEN, OPEN, OPEN, OPEN, OPEN, OPEN, OPEN, OPEN, A, LEFT, B, RIGHT, CLOSE, LEFT, C,
            RIGHT, OPEN, D, CLOSE, CLOSE, CLOSE, CLOSE, CLOSE, CLOSE, CLOSE, CLOSE,
        ],
    )?;
    score(rt, "8 deep in an implied repeat", nested::<18>(8))?;
    words(rt, "a and no sign", &[u64::from(A), 0])
}

// Scores to check by: one of each shape.
pub(crate) fn jumps(rt: &impl Print) -> io::Result<()> {
    score(rt, "a DC", [A, DC])?;
    score(rt, "a :| Segno b DS", [A, CLOSE, SEGNO, B, DS])?;
    score(rt, "a Fine b DC.Fine", [A, FINE, B, DC_FINE])?;
    score(
        rt,
        "a Segno b Fine c DS.Fine",
        [A, SEGNO, B, FINE, C, DS_FINE],
    )?;
    score(
        rt,
        "a ToCoda b DC.Coda Coda c",
        [A, TO_CODA, B, DC_CODA, CODA, C],
    )?;
    score(
        rt,
        "a Segno b ToCoda c DS.Coda Coda d",
        [A, SEGNO, B, TO_CODA, C, DS_CODA, CODA, D],
    )
}

// No scores, by the place.
pub(crate) fn refused(rt: &impl Print) -> io::Result<()> {
    score(rt, "no signs", [])?;
    score(rt, "|: a", [OPEN, A])?;
    score(rt, "|: a [ b ] :| c", [OPEN, A, LEFT, B, RIGHT, CLOSE, C])?;
    score(rt, "a Segno b :| DS", [A, SEGNO, B, CLOSE, DS])?;
    score(rt, "a Fine b DS.Fine", [A, FINE, B, DS_FINE])?;
    score(rt, "a DC b", [A, DC, B])
}

// Numbers at the edge of their rules.
pub(crate) fn numbers(rt: &impl Print) -> io::Result<()> {
    score(rt, "l 0", [Sign::Block(0, 0)])?;
    score(rt, "k 1 at the start", [Sign::Block(1, 4)])?;
    score(rt, "a gap of one", [A, Sign::Block(5, 4)])?;
    score(rt, "the end 999999", [A, Sign::Block(4, 999995)])?;
    score(rt, "the end 1000000", [A, Sign::Block(4, 999996)])?;
    score(rt, "ts 99 64", [Sign::Time(99, 64), A])?;
    score(rt, "ts 100 64", [Sign::Time(100, 64), A])?;
    score(rt, "ts 0 4", [Sign::Time(0, 4), A])?;
    score(rt, "ts 4 128", [Sign::Time(4, 128), A])?;
    score(rt, "ts 4 3", [Sign::Time(4, 3), A])?;
    score(rt, "ts 4 0, then no score", [Sign::Time(4, 0), A, RIGHT])
}

// A block of 4 beats, as the block number i of a score.
fn block(i: u32) -> Sign
    requires { i < 2 ^ 16 }
{
    Sign::Block(4 * i, 4)
}

// `a` and as many `:|` as there are signs left.
fn closes<const N: usize>() -> [Sign; N]
    requires { 0 < N }
{
    let mut signs = [CLOSE; N];
    signs[0] = A;
    signs
}

// Loops, depth and blocks played at their limits.
pub(crate) fn limits(rt: &impl Print) -> io::Result<()> {
    score(rt, "64 loops", repeated::<192>())?;
    score(rt, "65 loops", repeated::<195>())?;
    score(rt, "8 deep", nested::<17>(8))?;
    score(rt, "9 deep", nested::<19>(9))?;
    let mut signs = nested::<19>(9);
    signs[9] = B;
    score(rt, "9 deep, and b first", signs)?;
    score(rt, "65535 blocks played", doubled::<31>())?;
    let mut signs = doubled::<32>();
    signs[31] = block(16);
    score(rt, "65536 blocks played", signs)
}

// `|: x :|` over and over.
fn repeated<const N: usize>() -> [Sign; N]
    requires { N < 2 ^ 16 }
{
    let mut signs = [CLOSE; N];
    for (i, sign) in signs.iter_mut().enumerate() {
        match i % 3 {
            0 => *sign = OPEN,
            1 => *sign = block(i as u32 / 3),
            _ => {}
        }
    }
    signs
}

// `a`, with as many `|:` before it, and a `:|` for each sign behind it.
fn nested<const N: usize>(deep: usize) -> [Sign; N] {
    let mut signs = [CLOSE; N];
    for (i, sign) in signs.iter_mut().enumerate() {
        if i < deep {
            *sign = OPEN;
        } else if i == deep {
            *sign = A;
        }
    }
    signs
}

// Blocks with a `:|` between them.
fn doubled<const N: usize>() -> [Sign; N]
    requires { N < 2 ^ 16 }
{
    let mut signs = [CLOSE; N];
    for (i, sign) in signs.iter_mut().enumerate() {
        if i % 2 == 0 {
            *sign = block(i as u32 / 2);
        }
    }
    signs
}

// As long as the limit of signs allows, and one longer.
pub(crate) fn long(rt: &impl Print) -> io::Result<()> {
    score(rt, "1024 |:", [OPEN; 1024])?;
    score(rt, "a and 1023 :|", closes::<1024>())?;
    score(rt, "511 |:, a, 511 :|", nested::<1023>(511))?;
    let mut signs = [A; 1023];
    for (i, sign) in signs.iter_mut().enumerate() {
        match i % 3 {
            0 => *sign = OPEN,
            1 => {}
            _ => *sign = LEFT,
        }
    }
    score(rt, "|: a [ 341 times", signs)?;
    score(rt, "1025 |:", [OPEN; 1025])
}
