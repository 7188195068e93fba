// The vectors, one function for each group.
use crate::shorthand::{b, jmp, lb, lp, njmp, rep};
use machine::Position;
use refusals::{BEAT, Refusal};
use stand::{CHUNK, Chunk, Ended, run_chunk};
use std::io;

// The steps allowed where a vector does not say.
const ALLOWANCE: u32 = 99;

// The refusal; or why the run stopped, its steps and entries, and the next place and the beat.
fn show(rt: &impl Print, answer: Result<Ended, Refusal>) -> io::Result<()> {
    match answer {
        Ok(ended) => println!(rt; "{ended}"),
        Err(why) => println!(rt; "{why}"),
    }
}

// What a run of the listing answers from the position.
fn from(rt: &impl Print, name: &str, listing: &[u64], position: Position) -> io::Result<()> {
    print!(rt; "{name}: ")?;
    show(rt, run_chunk::<CHUNK>(listing, position, ALLOWANCE).answer)
}

// The same from the start, for each listing.
fn test(rt: &impl Print, vectors: &[(&str, &[u64])]) -> io::Result<()> {
    for (name, listing) in vectors {
        from(rt, name, listing, Position::fresh())?;
    }
    Ok(())
}

// Refusal 11: marks, and jumps to them.
pub(crate) fn marks(rt: &impl Print) -> io::Result<()> {
    test(
        rt,
        &[
            ("loop 63", &[lp(63), rep(63, 2)]),
            ("loop 64", &[lp(64), rep(64, 2)]),
            ("label 1023", &[lb(1023)]),
            ("label 1024", &[lb(1024)]),
            ("loop marked again", &[lp(0), rep(0, 2), lp(0)]),
            ("label marked again", &[lb(3), b(0, 4), lb(3)]),
            ("jump to no mark", &[lp(0), jmp(0, 1, 5), rep(0, 2)]),
            (
                "jump to a mark below",
                &[lp(0), njmp(0, 2, 5), lb(5), rep(0, 2)],
            ),
        ],
    )
}

// Refusal 11: loops and their reps.
pub(crate) fn loops(rt: &impl Print) -> io::Result<()> {
    test(
        rt,
        &[
            ("no later rep", &[b(0, 4), lp(0)]),
            ("rep before the loop", &[rep(0, 2), lp(0)]),
            ("two reps", &[lp(0), rep(0, 2), rep(0, 2)]),
            ("rep of no loop", &[b(0, 4), rep(0, 2)]),
            ("jump of no loop", &[lb(0), jmp(0, 1, 0)]),
            (
                "jump above its loop",
                &[lb(0), jmp(0, 1, 0), lp(0), rep(0, 2)],
            ),
        ],
    )
}

// Refusal 11: the numbers of an instruction, and words that are none.
pub(crate) fn numbers(rt: &impl Print) -> io::Result<()> {
    test(
        rt,
        &[
            ("T 0", &[lp(0), rep(0, 0)]),
            ("T 1", &[lp(0), rep(0, 1)]),
            ("T 1023", &[lp(0), rep(0, 1023)]),
            ("T 1024", &[lp(0), rep(0, 1024)]),
            ("jump's T 0", &[lp(0), lb(0), jmp(0, 0, 0), rep(0, 2)]),
            (
                "jump's T 1024",
                &[lp(0), lb(0), njmp(0, 1024, 0), rep(0, 2)],
            ),
            ("l 0", &[b(0, 0)]),
            ("l 999999", &[b(0, 999999)]),
            ("l 1000000", &[b(0, 1000000)]),
            ("k 999999", &[b(999999, 1)]),
            ("k 1000000", &[b(1000000, 1)]),
            ("word 0", &[b(0, 4), 0]),
            ("word 7", &[b(0, 4), 7]),
        ],
    )
}

// Refusal 11: the listing's length.
pub(crate) fn lengths(rt: &impl Print) -> io::Result<()> {
    test(
        rt,
        &[
            ("2048 instructions", &[b(0, 4); 2048]),
            ("2049 instructions", &[b(0, 4); 2049]),
        ],
    )
}

// A position with these counts of loops 0 and 5.
fn counted(next: u32, first: u16, sixth: u16) -> Position {
    let mut position = Position::fresh();
    position.next = next;
    position.counts[0] = first;
    position.counts[5] = sixth;
    position
}

// Refusal 12: the next place and the counts, on a loop of one block.
pub(crate) fn positions(rt: &impl Print) -> io::Result<()> {
    let listing = [lp(0), b(0, 4), rep(0, 2)];
    for (name, position) in [
        ("next 3", counted(3, 0, 0)),
        ("next 4", counted(4, 0, 0)),
        ("count 2 of 2", counted(2, 2, 0)),
        ("count 3 of 2", counted(2, 3, 0)),
        ("count of a loop not there", counted(2, 1, 1)),
    ] {
        from(rt, name, &listing, position)?;
    }
    from(rt, "refused by 11 first", &[0], counted(9, 1, 1))
}

// Refusal 12: the performed beat.
pub(crate) fn beats(rt: &impl Print) -> io::Result<()> {
    for (name, beat) in [("beat 10^18", BEAT), ("beat 10^18 + 1", BEAT + 1)] {
        let position = Position {
            beat,
            ..Position::fresh()
        };
        from(rt, name, &[b(0, 999999)], position)?;
    }
    Ok(())
}

// The first entries of a run, as many as are asked for, and its answer.
fn play<const N: usize>(
    rt: &impl Print,
    name: &str,
    chunk: &Chunk<N>,
    asked: usize,
) -> io::Result<()> {
    print!(rt; "{name}:")?;
    for entry in chunk.entries.iter().take(asked) {
        print!(rt; " {entry}")?;
    }
    print!(rt; " ")?;
    show(rt, chunk.answer)
}

// Two loops that cross.
fn crossed() -> [u64; 7] {
    [
        lp(0),
        b(0, 4),
        lp(1),
        b(4, 4),
        rep(0, 2),
        b(8, 4),
        rep(1, 2),
    ]
}

// Runs: crossed loops, one block at a time, a buffer that fills, and one that never halts.
pub(crate) fn runs(rt: &impl Print) -> io::Result<()> {
    let listing = crossed();
    let whole = run_chunk::<CHUNK>(&listing, Position::fresh(), ALLOWANCE);
    play(rt, "crossed loops", &whole, 9)?;
    let next = run_chunk::<1>(&listing, Position::fresh(), ALLOWANCE);
    play(rt, "next block", &next, 1)?;
    test(
        rt,
        &[
            ("one entry more than a chunk", &[b(0, 1); 65]),
            ("never halts", &[lp(0), lb(0), jmp(0, 1, 0), rep(0, 1)]),
        ],
    )
}

// One run split at every step: the two answers, one after the other.
pub(crate) fn splits(rt: &impl Print) -> io::Result<()> {
    let listing = crossed();
    for steps in 0..20 {
        print!(rt; "split at {steps}: ")?;
        let first = run_chunk::<CHUNK>(&listing, Position::fresh(), steps).answer;
        show(rt, first)?;
        if let Ok(ended) = first {
            show(
                rt,
                run_chunk::<CHUNK>(&listing, ended.position, ALLOWANCE).answer,
            )?;
        }
    }
    Ok(())
}
