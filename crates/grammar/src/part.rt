// The parts of a score, and where the signs between its runs lead.
ghost use Rattle.std.specs.Prelude.{◌≡◌};
ghost use Rattle.grammar.specs.Parts.{leads, finished, has_run};

use score::Shape;
use signs::{Jumped, Sign};

// The part of a score that follows: a run, named by the signs between runs before it; what awaits a Coda; or what is over, behind its end.
#[derive(Clone, Copy)]
pub(crate) enum Part {
    A,
    BehindSegno,
    BehindFine,
    BehindToCoda,
    SegnoFine,
    SegnoToCoda,
    DcAwaitsCoda,
    DsAwaitsCoda,
    DcBehindCoda,
    DsBehindCoda,
    Over(Shape),
}

impl Part {
    // The part that a sign between runs leads to.
    pub(crate) fn leads_to(self, sign: Sign) -> Option<Part>
        ensures { result ≡ leads sign self }
    {
        match (self, sign) {
            (Part::A, Sign::Jump(Jumped::Dc)) => Some(Part::Over(Shape::DaCapo)),
            (Part::A, Sign::Segno) => Some(Part::BehindSegno),
            (Part::A, Sign::Fine) => Some(Part::BehindFine),
            (Part::A, Sign::ToCoda) => Some(Part::BehindToCoda),
            (Part::BehindSegno, Sign::Jump(Jumped::Ds)) => Some(Part::Over(Shape::DalSegno)),
            (Part::BehindSegno, Sign::Fine) => Some(Part::SegnoFine),
            (Part::BehindSegno, Sign::ToCoda) => Some(Part::SegnoToCoda),
            (Part::BehindFine, Sign::Jump(Jumped::DcFine)) => Some(Part::Over(Shape::DaCapoFine)),
            (Part::BehindToCoda, Sign::Jump(Jumped::DcCoda)) => Some(Part::DcAwaitsCoda),
            (Part::SegnoFine, Sign::Jump(Jumped::DsFine)) => Some(Part::Over(Shape::DalSegnoFine)),
            (Part::SegnoToCoda, Sign::Jump(Jumped::DsCoda)) => Some(Part::DsAwaitsCoda),
            (Part::DcAwaitsCoda, Sign::Coda) => Some(Part::DcBehindCoda),
            (Part::DsAwaitsCoda, Sign::Coda) => Some(Part::DsBehindCoda),
            _ => None,
        }
    }

    // The shape of a score that ends here.
    pub(crate) fn shape(self) -> Option<Shape>
        ensures { result ≡ finished self }
    {
        match self {
            Part::A => Some(Shape::Straight),
            Part::DcBehindCoda => Some(Shape::DaCapoCoda),
            Part::DsBehindCoda => Some(Shape::DalSegnoCoda),
            Part::Over(shape) => Some(shape),
            _ => None,
        }
    }

    // Whether a run stands here.
    pub(crate) fn has_run(self) -> bool
        ensures { result ≡ has_run self }
    {
        match self {
            Part::DcAwaitsCoda | Part::DsAwaitsCoda | Part::Over(_) => false,
            _ => true,
        }
    }
}
