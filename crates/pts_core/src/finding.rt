// What is found of offers.

ghost use Rattle.std.specs.Prelude.{◌≡◌};

use pts_rules::Why;

/// What an examination of an offer comes to. Declarations are numbered from 0.
#[derive(Clone, Copy, Debug, PartialEq, Eq)]
pub enum Finding {
    /// All declarations may enter the front of the offer.
    Sound,
    /// The record of a declaration has that fault, at that node. Where it is valid and does not conclude the declaration,
    /// the node is the number of its nodes and the fault is `Conclusion`.
    Faulty {
        declaration: usize,
        node: usize,
        why: Why,
    },
    /// The name of a declaration exists already, in the front or earlier in the offer.
    Doubled {
        declaration: usize,
    },
}
