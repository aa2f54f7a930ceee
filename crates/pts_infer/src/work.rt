// What inference works on: a record and a meter, places in contexts, and the terms that have parts.

use crate::judgements::Sorted;
use pts_ctx::{Context, System};
use pts_grow::Judged;
use pts_names::Name;
use pts_record::Record;
use pts_rules::Meter;

// A record and a meter, over a system and a front.
#[derive(Drop)]
pub(crate) struct Work<'a> {
    pub system: &'a System,
    pub front: &'a Context,
    pub proof: &'a mut Record,
    pub meter: &'a mut Meter,
}

// Where a term is inferred: its context, and how deep inferences may be nested there.
#[derive(Clone, Copy, Debug, PartialEq, Eq)]
pub(crate) struct At {
    pub ctx: usize,
    pub allowed: u32,
}

// A product or an abstraction: its number, its printed name, and the numbers of its parts.
#[derive(Debug, Drop)]
pub(crate) struct Binder {
    pub term: usize,
    pub name: Name,
    pub domain: usize,
    pub body: usize,
}

// An application, and the numbers of its parts.
#[derive(Clone, Copy, Debug, PartialEq, Eq)]
pub(crate) struct Application {
    pub term: usize,
    pub function: usize,
    pub argument: usize,
}

// A local definition, its printed name, and the numbers of its parts.
#[derive(Debug, Drop)]
pub(crate) struct LetTerm {
    pub term: usize,
    pub name: Name,
    pub value: usize,
    pub ty: usize,
    pub body: usize,
}

// An assumption in a context: the place before it, what is assumed, and the place after it.
#[derive(Clone, Copy, Debug, PartialEq, Eq)]
pub(crate) struct Assumption {
    pub outer: At,
    pub domain: Sorted,
    pub inner: At,
}

// A definition in a context: the place before it, what is defined with its type, and the place after it.
#[derive(Clone, Copy, Debug, PartialEq, Eq)]
pub(crate) struct Definition {
    pub outer: At,
    pub value: Judged,
    pub inner: At,
}
