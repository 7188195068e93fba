// The sixteen kinds of signs.

// The D.C. and D.S. signs, each by its kind in a word.
#[derive(Clone, Copy, Debug, PartialEq, Eq)]
pub enum Jumped {
    DcCoda = 7,
    DcFine = 8,
    DsCoda = 9,
    DsFine = 10,
    Dc = 11,
    Ds = 12,
}

// A sign, with the numbers that it carries.
#[derive(Clone, Copy, Debug, PartialEq, Eq)]
pub enum Sign {
    // (b,k,l): l beats from beat k on.
    Block(u32, u32),
    // (ts,m,n): m beats to the bar, each a 1/n note.
    Time(u32, u32),
    LeftRepeat,
    RightRepeat,
    OpenEnding,
    CloseEnding,
    Jump(Jumped),
    Segno,
    Coda,
    ToCoda,
    Fine,
}
