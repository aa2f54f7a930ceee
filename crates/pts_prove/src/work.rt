// What a command works on: a record and a meter, and the goal.

use pts_ctx::{Context, System};
use pts_goals::{Argument, Reduction};
use pts_grow::{Compared, Judged};
use pts_names::Name;
use pts_record::Record;
use pts_rules::Meter;
use pts_terms::Sort;

/// A record and a meter, over a system and a front, with the names of the goal's hypotheses, the outermost first.
#[derive(Drop)]
pub(crate) struct Work<'a> {
    pub system: &'a System,
    pub front: &'a Context,
    pub names: &'a [Name],
    pub proof: &'a mut Record,
    pub meter: &'a mut Meter,
}

/// A goal: the number of its context, and that of its statement.
#[derive(Clone, Copy, Debug, PartialEq, Eq)]
pub(crate) struct Place {
    pub ctx: usize,
    pub statement: usize,
}

/// A judgement whose claim is that sort.
#[derive(Clone, Copy, Debug, PartialEq, Eq)]
pub(crate) struct Sorted {
    pub judged: Judged,
    pub sort: Sort,
}

/// A product with its domain and its body, and the comparison of it with the goal where the goal is another term.
#[derive(Clone, Copy, Debug, PartialEq, Eq)]
pub(crate) struct Opening {
    pub product: usize,
    pub domain: usize,
    pub body: usize,
    pub change: Option<Compared>,
}

/// The parts of the product of a lemma and the goal: the lemma with its sort, the context in which it is assumed, and the
/// goal with its sort there.
#[derive(Clone, Copy, Debug, PartialEq, Eq)]
pub(crate) struct LemmaParts {
    pub lemma: Sorted,
    pub inner: usize,
    pub body: Sorted,
}

/// A type under the products that were taken off: its context, the type, and how many they are. It may have their
/// variables.
#[derive(Clone, Copy, Debug, PartialEq, Eq)]
pub(crate) struct Pattern {
    pub ctx: usize,
    pub ty: usize,
    pub taken: usize,
}

/// A product with its domain and its body.
#[derive(Clone, Copy, Debug, PartialEq, Eq)]
pub(crate) struct Product {
    pub term: usize,
    pub domain: usize,
    pub body: usize,
}

/// The product that the type of a function is, and how the type reduces to it where it is another term.
#[derive(Clone, Copy, Debug, PartialEq, Eq)]
pub(crate) struct Function {
    pub product: Product,
    pub change: Option<Reduction>,
}

/// An argument, and the type of the application to it.
#[derive(Clone, Copy, Debug, PartialEq, Eq)]
pub(crate) struct Application {
    pub argument: Argument,
    pub after: usize,
}
