// Two terms that are compared.

/// Two terms of a record, and the node that compares them.
#[derive(Clone, Copy, Debug, PartialEq, Eq)]
pub struct Compared {
    pub left: usize,
    pub right: usize,
    pub node: usize,
}
