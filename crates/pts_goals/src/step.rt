// Goals, and the steps that fill them.

use pts_grow::{Compared, Judged};
use pts_names::{List, Name};

/// A statement to be proved, in a local context of the scratch record.
#[derive(Debug, Drop)]
pub struct Goal {
    /// The names of the hypotheses, the outermost first: one for each entry of the context.
    pub names: List<Name>,
    /// The node of the context.
    pub ctx: usize,
    /// The term to be inhabited.
    pub statement: usize,
    /// That the statement has a sort.
    pub sorted: Judged,
    /// How many constructors of the whole term are above the goal.
    pub place: u64,
}

/// A product to which a type was reduced: that it has a sort, and the comparison of the type with it.
#[derive(Clone, Copy, Debug, PartialEq, Eq)]
pub struct Reduction {
    pub sorted: Judged,
    pub compared: Compared,
}

/// The argument of a product.
#[derive(Clone, Copy, Debug, PartialEq, Eq)]
pub enum Argument {
    /// A judgement with the domain as its claim.
    Given(Judged),
    /// A goal: that the domain has a sort.
    Left(Judged),
}

/// One application: the product that the type before it is, perhaps by reduction, the argument, and the type after it.
/// Domain, codomain and the type after are terms.
#[derive(Clone, Copy, Debug, PartialEq, Eq)]
pub struct Link {
    pub change: Option<Reduction>,
    pub domain: usize,
    pub codomain: usize,
    pub argument: Argument,
    pub after: usize,
}

/// How a goal is filled, in numbers of the scratch record.
#[derive(Debug, Drop)]
pub enum Step {
    /// An abstraction. The goal is a product, or the product is compared with the goal, in this direction; `domain` and
    /// `sorted` judge its two parts, the second one in the context `inner`.
    Intro {
        name: Name,
        product: Judged,
        domain: Judged,
        inner: usize,
        sorted: Judged,
        change: Option<Compared>,
    },
    /// A judgement whose claim is the goal.
    Exact {
        node: Judged,
    },
    /// A function, applied at most 2,000 times, until its type is the goal.
    Apply {
        function: Judged,
        links: List<Link>,
    },
    /// A lemma, which is assumed under the name for the proof of the goal: an abstraction that is applied. `lemma` and
    /// `sorted` judge the parts of the product of the lemma and the goal, the second one in the context `inner`.
    Cut {
        name: Name,
        lemma: Judged,
        product: Judged,
        inner: usize,
        sorted: Judged,
    },
    /// Another statement, which is compared with the goal, in this direction.
    Change {
        statement: usize,
        sorted: Judged,
        comparison: Compared,
    },
}

/// A goal with the step that filled it.
#[derive(Debug, Drop)]
pub struct FilledGoal {
    pub goal: Goal,
    pub step: Step,
    /// The depth and the size of the whole term with the step, each goal that is open counted as a leaf.
    pub depth: u64,
    pub size: u64,
}
