// What is kept of a stretch of signs that was read, by value.
ghost use Rattle.std.specs.Prelude.{◌≡◌, ◌+◌, ◌<◌};
ghost use Rattle.grammar.specs.Stretches.{too_deep, lack_count, empty_stretch, block_stretch, followed, closed_as, begun_as, went_on, finished_as};

use crate::tally;
use crate::tally::Tally;

// What a run ends with: no item, a group, or another item.
#[derive(Clone, Copy)]
pub(crate) enum Last {
    NoItem,
    Plain,
    Group,
}

// The `|:` of a repeat or a group: how many are open around it and its place, or that it lacks.
#[derive(Clone, Copy)]
pub(crate) enum Left {
    Written(usize, usize),
    Lacking,
}

impl Left {
    // Its place, if it is too deep.
    #[tactic(auto, unfolding(crate::specs::Stretches::too_deep))]
    fn too_deep(self) -> Option<usize>
        ensures { result ≡ too_deep self }
    {
        match self {
            Left::Written(depth, at) if refusals::DEPTH <= depth => Some(at),
            _ => None,
        }
    }

    // 1 where it lacks.
    fn lacks(self) -> u64
        ensures { result ≡ lack_count self }
    {
        match self {
            Left::Written(_, _) => 0,
            Left::Lacking => 1,
        }
    }
}

// A run of items: the place behind it, its last item, and the place of its first `|:` that is too deep.
#[derive(Clone, Copy)]
pub(crate) struct Stretch {
    pub at: usize,
    pub last: Last,
    pub deep: Option<usize>,
    pub tally: Tally,
}

impl Stretch {
    pub(crate) fn empty(at: usize) -> Stretch
        ensures { result ≡ empty_stretch at }
    {
        Stretch {
            at,
            last: Last::NoItem,
            deep: None,
            tally: Tally::default(),
        }
    }

    // A block before a place.
    pub(crate) fn block(next: usize, beats: u64) -> Stretch
        ensures { result ≡ block_stretch next beats }
    {
        Stretch {
            at: next,
            last: Last::Plain,
            deep: None,
            tally: Tally::block(beats),
        }
    }

    // The run and the item after it.
    pub(crate) fn follow(self, item: Stretch) -> Stretch
        ensures { result ≡ followed self item }
    {
        Stretch {
            at: item.at,
            last: item.last,
            deep: self.deep.or(item.deep),
            tally: self.tally.join(item.tally),
        }
    }

    // The run as a `:|` closes it.
    #[inline(always)]
    pub(crate) fn close(self, left: Left) -> Stretch
        requires { self.at < usize.MAX }
        ensures { result ≡ closed_as left self }
    {
        Stretch {
            at: self.at + 1,
            last: Last::Plain,
            deep: left.too_deep().or(self.deep),
            tally: self.tally.repeat(left.lacks()),
        }
    }

    // The run, after which a `[` begins the endings.
    pub(crate) fn begin(self, left: Left) -> Begun
        requires { self.at < usize.MAX }
        ensures { result ≡ begun_as left self }
    {
        Begun {
            at: self.at + 1,
            deep: left.too_deep().or(self.deep),
            endings: 0,
            lacks: left.lacks(),
            run: self.tally,
            ends: Tally::default(),
        }
    }
}

// A group up to behind a `[`: the endings before it, whether its `|:` lacks, and the tallies of its run and of those endings.
#[derive(Clone, Copy)]
pub(crate) struct Begun {
    pub at: usize,
    pub deep: Option<usize>,
    pub endings: u64,
    pub lacks: u64,
    pub run: Tally,
    pub ends: Tally,
}

impl Begun {
    // One more ending, after which `]`, `:|` and `[` begin another.
    pub(crate) fn go_on(self, ending: Stretch) -> Begun
        requires { ending.at + 2 < usize.MAX }
        ensures { result ≡ went_on self ending }
    {
        Begun {
            at: ending.at + 3,
            deep: self.deep.or(ending.deep),
            endings: tally::add(self.endings, 1),
            lacks: self.lacks,
            run: self.run,
            ends: self.ends.join(ending.tally),
        }
    }

    // The last ending, and its `]`.
    pub(crate) fn finish(self, ending: Stretch) -> Stretch
        requires { ending.at < usize.MAX }
        ensures { result ≡ finished_as self ending }
    {
        let ends = self.ends.join(ending.tally);
        Stretch {
            at: ending.at + 1,
            last: Last::Group,
            deep: self.deep.or(ending.deep),
            tally: self
                .run
                .group(self.lacks, tally::add(self.endings, 1), ends),
        }
    }
}
