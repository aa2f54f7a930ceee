// The lines of a record's two tables.

ghost use Rattle.std.specs.Prelude.{◌≡◌, ◌↔◌, IfOk, IsTrue};
ghost use Rattle.pts_record.specs.declared.shape.RecordFault.TheVariants.{Memory};
ghost use Rattle.pts_record.specs.Table.{kind_of};

use pts_ctx::{Name, Sort};
use std::alloc::{AllocError, AllocFailed, Global};

/// A line of the table of terms: a term whose parts are earlier lines of the table.
#[derive(Debug, Drop)]
pub enum Shape {
    Sort(Sort),
    Const(Name),
    Var(u32),
    App(usize, usize),
    Lam(Name, usize, usize),
    Pi(Name, usize, usize),
    Let(Name, usize, usize, usize),
}

impl Shape {
    /// The same line.
    pub fn copy(&self) -> Result<Shape, AllocError>
        ensures { IfOk result (λ s. s ≡ self.now) }
    {
        Ok(match self {
            Shape::Sort(s) => Shape::Sort(*s),
            Shape::Const(c) => Shape::Const(c.copy()?),
            Shape::Var(i) => Shape::Var(*i),
            Shape::App(f, a) => Shape::App(*f, *a),
            Shape::Lam(x, t, b) => Shape::Lam(x.copy()?, *t, *b),
            Shape::Pi(x, t, b) => Shape::Pi(x.copy()?, *t, *b),
            Shape::Let(x, d, t, b) => Shape::Let(x.copy()?, *d, *t, *b),
        })
    }

    // Whether the two lines are the same, printed names and all.
    pub(crate) fn same(&self, other: &Shape) -> bool
        ensures { IsTrue result ↔ (self.now ≡ other.now) }
    {
        match (self, other) {
            (Shape::Sort(s), Shape::Sort(r)) => s.0 == r.0,
            (Shape::Const(c), Shape::Const(d)) => c.text() == d.text(),
            (Shape::Var(i), Shape::Var(j)) => *i == *j,
            (Shape::App(f, a), Shape::App(g, b)) => *f == *g && *a == *b,
            (Shape::Lam(x, t, a), Shape::Lam(y, u, b)) => *t == *u
                && *a == *b
                && x.text() == y.text(),
            (Shape::Pi(x, t, a), Shape::Pi(y, u, b)) => *t == *u
                && *a == *b
                && x.text() == y.text(),
            (Shape::Let(x, d, t, a), Shape::Let(y, e, u, b)) => {
                *d == *e && *t == *u && *a == *b && x.text() == y.text()
            }
            _ => false,
        }
    }
}

pub(crate) fn copy_shapes(alloc: Global, shapes: &[Shape]) -> Result<Vec<Shape>, AllocError>
    ensures { IfOk result (λ copy. copy.items ≡ shapes.now) }
{
    let mut copy = Vec::new(alloc);
    for shape in shapes {
        copy.push(shape.copy()?)?;
    }
    Ok(copy)
}

/// The form of a node: four contexts, ten judgements, six comparisons.
#[derive(Clone, Copy, Debug, PartialEq, Eq)]
pub enum Form {
    Empty,
    Assume,
    Define,
    Bare,
    SortAt,
    ConstAt,
    VarAt,
    Thin,
    PiAt,
    LamAt,
    AppAt,
    LetSort,
    LetAt,
    Conv,
    Same,
    Left,
    Right,
    CongApp,
    CongLam,
    CongPi,
}

/// What a node says: what its local context is, that a term has a type in it, or that two terms are convertible in it.
#[derive(Clone, Copy, Debug, PartialEq, Eq)]
pub enum FormKind {
    Context,
    Judgement,
    Comparison,
}

impl Form {
    /// What a node of this form says.
    pub fn kind(self) -> FormKind
        ensures { result ≡ kind_of self }
    {
        match self {
            Form::Empty | Form::Assume | Form::Define | Form::Bare => FormKind::Context,
            Form::SortAt
            | Form::ConstAt
            | Form::VarAt
            | Form::Thin
            | Form::PiAt
            | Form::LamAt
            | Form::AppAt
            | Form::LetSort
            | Form::LetAt
            | Form::Conv => FormKind::Judgement,
            Form::Same | Form::Left | Form::Right | Form::CongApp | Form::CongLam | Form::CongPi =>
                FormKind::Comparison,
        }
    }
}

/// A line of the table of nodes, with the numbers of earlier nodes and of terms. A field that the form does not use is 0.
#[derive(Clone, Copy, Debug, PartialEq, Eq)]
pub struct Node {
    pub form: Form,
    pub ctx: usize,
    pub subject: usize,
    pub claim: usize,
    pub first: usize,
    pub second: usize,
    pub third: usize,
}

impl Node {
    // Whether the two lines are the same.
    pub(crate) fn same(&self, other: &Node) -> bool
        ensures { IsTrue result ↔ (self.now ≡ other.now) }
    {
        self == other
    }
}

/// What is kept of a context: how many entries it has, and whether none of them is bare.
#[derive(Clone, Copy, Debug, PartialEq, Eq)]
pub struct Extent {
    pub length: u32,
    pub typed: bool,
}

/// Why a line is not added to a table.
#[derive(Debug, Drop)]
pub enum RecordFault {
    /// The field with this number, from 0 on in the order of the certificate's line, leads to no earlier line.
    Link(usize),
    /// The term is not within limits.
    TooLarge,
    /// There is no memory, or a table has 2^32 lines.
    Memory,
}

impl From<AllocError> for RecordFault {
    ghost from_gives = { λ _ e. e ≡ Memory };

    fn from(_: AllocError) -> Self {
        RecordFault::Memory
    }
}

impl<T: Drop> From<AllocFailed<T>> for RecordFault {
    ghost from_gives = { λ _ e. e ≡ Memory };

    fn from(_: AllocFailed<T>) -> Self {
        RecordFault::Memory
    }
}
