// Entries of a played list.
#![tactic(auto)]

ghost use Rattle.std.specs.Prelude.{Some};
ghost use Rattle.played.specs.Printed.{printed};

use std::fmt;

// A block of l beats from written beat k on, played from performed beat z on.
#[derive(Clone, Copy, Debug, Default, PartialEq, Eq)]
pub struct Played {
    pub k: u32,
    pub l: u32,
    pub z: u64,
}

impl fmt::Display for Played {
    ghost output = { λ e. Some (printed e) };

    fn fmt<W: fmt::Write>(&self, f: &mut fmt::Formatter<W>) -> fmt::Result {
        write!(f, "(b,{},{},{})", self.k, self.l, self.z)
    }
}
