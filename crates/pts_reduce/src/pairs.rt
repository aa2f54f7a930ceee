// How two forms are compared.

ghost use Rattle.std.specs.Prelude.{◌≡◌, ◌<◌, length};
ghost use Rattle.pts_reduce.specs.Pairs.{IsPaired};

use pts_grow::Compared;
use pts_record::{Record, Shape};

/// The first and the second parts of two forms.
#[derive(Clone, Copy, Debug)]
pub(crate) struct Parts {
    pub left_first: usize,
    pub right_first: usize,
    pub left_second: usize,
    pub right_second: usize,
}

/// The comparisons of the first and of the second parts.
#[derive(Clone, Copy, Debug)]
pub(crate) struct Both {
    pub firsts: Compared,
    pub seconds: Compared,
}

/// How two forms are compared: at once, or by their parts.
#[derive(Clone, Copy, Debug)]
pub(crate) enum Paired {
    Leaves(bool),
    Applications(Parts),
    Abstractions(Parts),
    Products(Parts),
}

/// How two forms are compared.
pub(crate) fn pair_up(proof: &Record, left: usize, right: usize) -> Paired
    requires left { left < length proof.now.shapes }
    requires right { right < length proof.now.shapes }
    ensures { IsPaired proof.now.shapes left right result }
{
    match (proof.shape(left), proof.shape(right)) {
        (Shape::Sort(s), Shape::Sort(r)) => Paired::Leaves(s.0 == r.0),
        (Shape::Const(c), Shape::Const(d)) => Paired::Leaves(c.same(d)),
        (Shape::Var(i), Shape::Var(j)) => Paired::Leaves(*i == *j),
        (Shape::App(f, a), Shape::App(g, b)) => Paired::Applications(Parts {
            left_first: *f,
            right_first: *g,
            left_second: *a,
            right_second: *b,
        }),
        (Shape::Lam(_, t, a), Shape::Lam(_, u, b)) => Paired::Abstractions(Parts {
            left_first: *t,
            right_first: *u,
            left_second: *a,
            right_second: *b,
        }),
        (Shape::Pi(_, t, a), Shape::Pi(_, u, b)) => Paired::Products(Parts {
            left_first: *t,
            right_first: *u,
            left_second: *a,
            right_second: *b,
        }),
        _ => Paired::Leaves(false),
    }
}
