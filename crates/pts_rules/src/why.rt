// Why a node is no instance of its form.

use std::fmt;
use std::fmt::{Display, Formatter};

/// The first condition of a form that a node breaks. A number counts the links of the node's line: its context is 0,
/// its premises are 1 to 3; in a line that has no context its one link is 0.
#[derive(Clone, Copy, Debug, PartialEq, Eq)]
pub enum Why {
    /// The link is not of the needed kind.
    Kind(u8),
    /// The premise does not stand in the needed context.
    Place(u8),
    /// The first term is not the one that the premises give.
    Subject,
    /// The second term is not the one that the premises give.
    Claim,
    /// What the premise says does not fit the others.
    Premise(u8),
    /// The premise's claim is not a sort.
    SortOf(u8),
    /// The sort has no axiom.
    NoAxiom,
    /// The two sorts have no rule.
    NoRule,
    /// The name or the index has no entry.
    NoEntry,
    /// The term has no such head step.
    NoStep,
    /// The record is valid, and its last node does not conclude its declaration.
    Conclusion,
}

impl Display for Why {
    ghost use Rattle.std.specs.Prelude.{Some};
    ghost use Rattle.pts_rules.specs.FaultText.{why_text};

    ghost output = { λ w. Some (why_text w) };

    fn fmt<W: fmt::Write>(&self, f: &mut Formatter<W>) -> fmt::Result {
        match self {
            Why::Kind(link) => write!(f, "Kind {link}"),
            Why::Place(link) => write!(f, "Place {link}"),
            Why::Subject => f.write_str("Subject"),
            Why::Claim => f.write_str("Claim"),
            Why::Premise(link) => write!(f, "Premise {link}"),
            Why::SortOf(link) => write!(f, "SortOf {link}"),
            Why::NoAxiom => f.write_str("NoAxiom"),
            Why::NoRule => f.write_str("NoRule"),
            Why::NoEntry => f.write_str("NoEntry"),
            Why::NoStep => f.write_str("NoStep"),
            Why::Conclusion => f.write_str("Conclusion"),
        }
    }
}
