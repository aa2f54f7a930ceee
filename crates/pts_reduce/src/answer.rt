// What the public calls answer.

use pts_names::List;

/// A weak head normal form, and the node that compares the given term with it.
#[derive(Clone, Copy, Debug, PartialEq, Eq)]
pub struct Whnf {
    pub term: usize,
    pub node: usize,
}

/// The answer of the conversion test.
#[derive(Debug, Drop)]
pub enum Conversion {
    /// The terms are convertible; the node compares them.
    Yes(usize),
    /// The test found two forms that differ. The place is the way to them, as the numbers of parts, from 0 on.
    No {
        place: List<u8>,
        left: usize,
        right: usize,
    },
}
