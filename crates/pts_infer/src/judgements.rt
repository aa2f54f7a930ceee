// What inner calls answer.

use pts_grow::Judged;
use pts_terms::Sort;

// A judgement whose claim is that sort.
#[derive(Clone, Copy, Debug, PartialEq, Eq)]
pub(crate) struct Sorted {
    pub judged: Judged,
    pub sort: Sort,
}

// A judgement whose claim is the product of a domain and a codomain.
#[derive(Clone, Copy, Debug, PartialEq, Eq)]
pub(crate) struct Function {
    pub judged: Judged,
    pub domain: usize,
    pub codomain: usize,
}
