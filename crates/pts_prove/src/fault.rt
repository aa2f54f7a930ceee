// Why a command gives no next open proof.

ghost use Rattle.std.specs.Prelude.{◌≡◌};
ghost use Rattle.pts_prove.specs.declared.fault.ProveFault.TheVariants.{Memory};
ghost use Rattle.pts_prove.specs.Answered.{misfit_put_in, of_making, of_reduction, put_in};

use pts_goals::FillFault;
use pts_grow::TermFault;
use pts_infer::{FitFault, Flaw, InferFault, Part, ReduceFault};
use pts_names::Name;
use pts_terms::Term;
use std::alloc::AllocError;

/// Why a command gives no next open proof, in the order in which the causes are looked for where several are there.
#[derive(Debug, Drop)]
pub enum ProveFault {
    /// No goal is left.
    NoGoal,
    /// The name exists: its place in the scope, which has the names of the front and after them those of the hypotheses.
    Taken(Name, usize),
    /// The goal is no product, and its weak head normal form, which is shown, is none.
    NotProduct(Term),
    /// The type of the term matches the goal nowhere; so many products were taken off.
    NoMatch(usize),
    /// The argument with this number, counted from 1, is not determined by the match.
    Undetermined(usize),
    /// The name does not occur in the goal.
    NotThere(Name),
    /// The name is that of an assumption or of a hypothesis.
    NoBody(Name),
    /// What is handed in, or the goal, is flawed.
    Flaw(Part, Flaw),
    /// The cost is above what the meter had left.
    Spent,
    /// A term or the nesting of inferences or of tests is beyond the limits.
    Deep,
    /// Out of memory.
    Memory,
}

impl From<AllocError> for ProveFault {
    ghost from_gives = { λ _ e. e ≡ Memory };

    fn from(_: AllocError) -> Self {
        ProveFault::Memory
    }
}

/// The fault of an inference in a part.
pub(crate) fn put_in(part: Part, fault: InferFault) -> ProveFault
    ensures { result ≡ put_in part fault }
{
    match fault {
        InferFault::Flaw(flaw) => ProveFault::Flaw(part, flaw),
        InferFault::Spent => ProveFault::Spent,
        InferFault::Deep => ProveFault::Deep,
        InferFault::Memory => ProveFault::Memory,
    }
}

/// The fault of a fit in a part.
pub(crate) fn misfit_put_in(part: Part, fault: FitFault) -> ProveFault
    ensures { result ≡ misfit_put_in part fault }
{
    match fault {
        FitFault::Wanted(flaw) | FitFault::Judged(flaw) => ProveFault::Flaw(part, flaw),
        FitFault::Spent => ProveFault::Spent,
        FitFault::Deep => ProveFault::Deep,
        FitFault::Memory => ProveFault::Memory,
    }
}

/// The fault of a reduction or of a test.
pub(crate) fn of_reduction(fault: ReduceFault) -> ProveFault
    ensures { result ≡ of_reduction fault }
{
    match fault {
        ReduceFault::Spent => ProveFault::Spent,
        ReduceFault::Deep => ProveFault::Deep,
        ReduceFault::Memory => ProveFault::Memory,
    }
}

/// The fault of a term that is made.
pub(crate) fn of_making(fault: TermFault) -> ProveFault
    ensures { result ≡ of_making fault }
{
    match fault {
        TermFault::TooLarge => ProveFault::Deep,
        TermFault::Memory => ProveFault::Memory,
    }
}
