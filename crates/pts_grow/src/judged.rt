// Terms that are judged, and the sorts of a rule.

use pts_terms::Sort;

/// Two terms of a record, and the node that judges the first to have the second as its type.
#[derive(Clone, Copy, Debug, PartialEq, Eq)]
pub struct Judged {
    pub subject: usize,
    pub claim: usize,
    pub node: usize,
}

/// The sorts of a product's domain, of its body, and of the product itself.
#[derive(Clone, Copy, Debug, PartialEq, Eq)]
pub struct RuleSorts {
    pub domain: Sort,
    pub body: Sort,
    pub product: Sort,
}
