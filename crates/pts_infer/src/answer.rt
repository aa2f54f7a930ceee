// What the public calls answer.

ghost use Rattle.std.specs.Prelude.{◌≡◌};
ghost use Rattle.pts_infer.specs.declared.answer.InferFault.TheVariants.{Memory as NoMemory};
ghost use Rattle.pts_infer.specs.declared.answer.FitFault.TheVariants.{Memory as NoRoom};

use pts_grow::Judged;
use pts_names::{List, Name};
use pts_record::Record;
use pts_terms::{Sort, Term};
use std::alloc::AllocError;

/// What is wrong with a term.
#[derive(Debug, Drop)]
pub enum FlawKind {
    /// The type of a type or of a domain is no sort, or one that has no axiom where it was found by reduction.
    NotASort(Term),
    /// The type of a function is no product, or one that has no sort.
    NotProduct(Term),
    /// There is no rule for these two sorts.
    NoRule(Sort, Sort),
    /// The sort has no axiom.
    NoAxiom(Sort),
    /// The type is not convertible with the wanted one: the place of the forms that differ, in both.
    NotConvertible {
        place: List<u8>,
        have: Term,
        want: Term,
    },
}

/// A flaw of a term: the numbers of the parts that lead to it, from 0 on, and the names of its free variables, the
/// outermost first: those that were handed in, and after them those of the binders on the way.
#[derive(Debug, Drop)]
pub struct Flaw {
    pub place: List<u8>,
    pub names: List<Name>,
    pub kind: FlawKind,
}

/// Why a call has no other answer.
#[derive(Debug, Drop)]
pub enum InferFault {
    /// The term has no type for this reason.
    Flaw(Flaw),
    /// The cost is above what the meter had left.
    Spent,
    /// A term or the nesting of inferences or of tests is beyond the limits.
    Deep,
    /// There is no memory.
    Memory,
}

impl From<AllocError> for InferFault {
    ghost from_gives = { λ _ e. e ≡ NoMemory };

    fn from(_: AllocError) -> Self {
        InferFault::Memory
    }
}

/// Why a judgement does not fit a wanted type.
#[derive(Debug, Drop)]
pub enum FitFault {
    /// The wanted type has no type, or none that has a sort.
    Wanted(Flaw),
    /// The types are not convertible.
    Judged(Flaw),
    /// The cost is above what the meter had left.
    Spent,
    /// A term or the nesting of inferences or of tests is beyond the limits.
    Deep,
    /// There is no memory.
    Memory,
}

impl From<AllocError> for FitFault {
    ghost from_gives = { λ _ e. e ≡ NoRoom };

    fn from(_: AllocError) -> Self {
        FitFault::Memory
    }
}

/// A product with its sort: the judgement of it, whose node has the form of products, and the two judgements that this
/// node is made of, that of the domain and that of the body. The body is judged in a context of its own, in which the
/// domain is assumed.
#[derive(Clone, Copy, Debug, PartialEq, Eq)]
pub struct ProductParts {
    pub product: Judged,
    pub domain: Judged,
    pub inner: usize,
    pub body: Judged,
}

/// A type, and the record whose last node is the judgement that a term has it, in the empty context.
#[derive(Drop)]
pub struct Typed {
    pub ty: Term,
    pub proof: Record,
}
