// Steps that are put into the goal that comes first, and the goals that they leave.

ghost use Rattle.std.specs.Prelude.{◌≡◌, IfSome, false};
ghost use Rattle.pts_goals.specs.OpenProofs.{FitsFirst};

use crate::makers::{
    A, A_IN_X, A_IS_A, ARROW, ARROW_IN_G, ARROW_IN_X, ARROW_IS_ARROW, BINARY_IN_X,
    BINARY_IS_BINARY, G, G_IN_X, THEOREM, X, X_IN_X, Y, Y_IN_Y,
};
use crate::steps::{Way, apply, change, cut, exact, intro};
use pts_goals::{FillFault, Goal, Name, Proof, Step};

/// A step, by the numbers of nodes and terms.
#[derive(Clone, Copy)]
pub enum Move {
    Intro {
        name: &'static str,
        product: usize,
        inner: usize,
        change: Option<usize>,
    },
    Exact(usize),
    Apply {
        function: usize,
        change: Option<(usize, usize)>,
        arguments: (Way, Way),
    },
    Cut {
        name: &'static str,
        product: usize,
        inner: usize,
    },
    Change {
        statement: usize,
        sorted: usize,
        comparison: usize,
    },
}

/// `\g`
pub const INTRO_G: Move = Move::Intro {
    name: "g",
    product: THEOREM,
    inner: G,
    change: None,
};

/// `\x`, where the product is compared with the goal.
pub const INTRO_X: Move = Move::Intro {
    name: "x",
    product: ARROW_IN_G,
    inner: X,
    change: Some(ARROW_IS_ARROW),
};

/// The lemma `y : A`, where there are `g` and `x`.
pub const CUT_Y: Move = Move::Cut {
    name: "y",
    product: ARROW_IN_X,
    inner: Y,
};

/// `g x _`, where the type of `g` is reduced to itself.
pub const APPLY_TO_X: Move = Move::Apply {
    function: G_IN_X,
    change: Some((BINARY_IN_X, BINARY_IS_BINARY)),
    arguments: (Way::Given(X_IN_X), Way::Left(A_IN_X)),
};

/// `g _ _`
pub const APPLY: Move = Move::Apply {
    function: G_IN_X,
    change: None,
    arguments: (Way::Left(A_IN_X), Way::Left(A_IN_X)),
};

/// `A` for `A`, where there are `g` and `x`.
pub const CHANGE: Move = Move::Change {
    statement: A,
    sorted: A_IN_X,
    comparison: A_IS_A,
};

/// `x`
pub const EXACT_X: Move = Move::Exact(X_IN_X);

/// `y`
pub const EXACT_Y: Move = Move::Exact(Y_IN_Y);

/// The steps of `\g. \x. (\y:A. y) (g x x)`.
pub const ALL: [Move; 7] = [
    INTRO_G, INTRO_X, CUT_Y, APPLY_TO_X, CHANGE, EXACT_X, EXACT_Y,
];

// The step, where it fits the goal that comes first.
fn step(proof: &Proof, by: Move) -> Option<Step>
    requires here { proof.now.is_lent ≡ false }
    ensures { IfSome result (λ s. FitsFirst proof.now.scratch proof.now.goals s) }
{
    let alloc = proof.scratch().alloc();
    match by {
        Move::Intro {
            name,
            product,
            inner,
            change,
        } => {
            let name = Name::read(alloc, name).ok()?;
            intro(proof, name, product, inner, change)
        }
        Move::Exact(node) => exact(proof, node),
        Move::Apply {
            function,
            change,
            arguments,
        } => apply(proof, function, change, arguments),
        Move::Cut {
            name,
            product,
            inner,
        } => {
            let name = Name::read(alloc, name).ok()?;
            cut(proof, name, product, inner)
        }
        Move::Change {
            statement,
            sorted,
            comparison,
        } => change(proof, statement, sorted, comparison),
    }
}

/// What `fill` answers to a step; nothing, where it does not fit.
pub fn fill(proof: &mut Proof, by: Move) -> Option<Result<(), FillFault>>
    requires here { proof.old.is_lent ≡ false }
    ensures here { proof.new.is_lent ≡ false }
{
    let step = step(proof, by)?;
    Some(proof.fill(step))
}

/// Whether a step is put in.
pub fn fills(proof: &mut Proof, by: Move) -> bool
    requires here { proof.old.is_lent ≡ false }
    ensures here { proof.new.is_lent ≡ false }
{
    matches!(fill(proof, by), Some(Ok(())))
}

/// Whether all of these are, in their order.
pub fn fills_all(proof: &mut Proof, moves: &[Move]) -> bool
    requires here { proof.old.is_lent ≡ false }
    ensures here { proof.new.is_lent ≡ false }
{
    for by in moves {
        if !fills(proof, *by) {
            return false;
        }
    }
    true
}

/// A goal as it is wanted: its context, its statement, how many constructors are above it, and the names of its hypotheses.
#[derive(Clone, Copy)]
pub struct Wanted {
    pub ctx: usize,
    pub statement: usize,
    pub place: u64,
    pub names: &'static [&'static str],
}

/// The goal `A` under the two abstractions.
pub const A_BODY: Wanted = Wanted {
    ctx: X,
    statement: A,
    place: 2,
    names: &["g", "x"],
};

/// The goal of a lemma there, and of the second argument of a function.
pub const A_LEMMA: Wanted = Wanted {
    ctx: X,
    statement: A,
    place: 3,
    names: &["g", "x"],
};

/// The goal of an argument in the lemma, and of the first argument of a function.
pub const A_ARGUMENT: Wanted = Wanted {
    ctx: X,
    statement: A,
    place: 4,
    names: &["g", "x"],
};

/// The goal `A` where there is `y`.
pub const A_IN_Y: Wanted = Wanted {
    ctx: Y,
    statement: A,
    place: 4,
    names: &["g", "x", "y"],
};

/// The goal `A -> A` where there is `g`.
pub const ARROW_GOAL: Wanted = Wanted {
    ctx: G,
    statement: ARROW,
    place: 1,
    names: &["g"],
};

fn are_named(names: &[Name], wanted: &[&str]) -> bool {
    for (name, text) in names.iter().zip(wanted.iter()) {
        if name.text() != *text {
            return false;
        }
    }
    names.len() == wanted.len()
}

fn is_goal(goal: &Goal, wanted: &Wanted) -> bool {
    goal.ctx == wanted.ctx
        && goal.statement == wanted.statement
        && goal.sorted.subject == wanted.statement
        && goal.place == wanted.place
        && are_named(goal.names.items(), wanted.names)
}

/// Whether these goals are open, the one that comes first first.
pub fn are_goals(proof: &Proof, wanted: &[Wanted]) -> bool
    requires here { proof.now.is_lent ≡ false }
{
    for (number, wanted) in wanted.iter().enumerate() {
        if number >= proof.goals() || !is_goal(proof.goal(number), wanted) {
            return false;
        }
    }
    proof.goals() == wanted.len()
}
