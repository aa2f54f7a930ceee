// The part of what is stated in which inference stops.

use std::fmt;
use std::fmt::{Display, Formatter};

/// The part of what is stated in which inference stops: the term or the body, its type, or the goal of a proof.
#[derive(Clone, Copy, Debug, PartialEq, Eq)]
pub enum Part {
    Whole,
    Ty,
    Goal,
}

impl Display for Part {
    ghost use Rattle.std.specs.Prelude.{Some};
    ghost use Rattle.pts_infer.specs.FaultText.{part_text};

    ghost output = { λ p. Some (part_text p) };

    fn fmt<W: fmt::Write>(&self, f: &mut Formatter<W>) -> fmt::Result {
        f.write_str(match self {
            Part::Whole => "term",
            Part::Ty => "type",
            Part::Goal => "goal",
        })
    }
}
