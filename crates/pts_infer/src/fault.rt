// Why a call of inference has no other answer.

ghost use Rattle.std.specs.Prelude.{◌≡◌};
ghost use Rattle.pts_infer.specs.declared.fault.Fault.TheVariants.{Memory};
ghost use Rattle.pts_infer.specs.declared.fault.Misfit.TheVariants as misfit;
ghost use Rattle.pts_infer.specs.Given.{of_reduction, same_fault};

use pts_grow::TermFault;
use pts_names::{List, Name};
use pts_record::Boxed;
use pts_reduce::ReduceFault;
use pts_terms::Sort;
use std::alloc::{AllocError, AllocFailed};

// What is wrong, by the record's terms.
#[derive(Debug, Drop)]
pub(crate) enum What {
    NotASort(usize),
    NotProduct(usize),
    NoRule(Sort, Sort),
    NoAxiom(Sort),
    NotConvertible(List<u8>, usize, usize),
}

// A flaw, with the parts that lead to it and the binders that are passed on the way, the innermost first.
#[derive(Debug, Drop)]
pub(crate) struct FoundFlaw {
    pub place: Vec<u8>,
    pub names: Vec<Name>,
    pub what: What,
}

// Why an inner call has no other answer. It is small, since such calls nest.
#[derive(Debug, Drop)]
pub(crate) enum Fault {
    Spent,
    Deep,
    Memory,
    Flawed(Boxed<FoundFlaw>),
}

// The same of a fit: the flaw is one of the wanted type, or of the judged term.
#[derive(Debug, Drop)]
pub(crate) enum Misfit {
    Spent,
    Deep,
    Memory,
    Wanted(Boxed<FoundFlaw>),
    Own(Boxed<FoundFlaw>),
}

impl From<AllocError> for Fault {
    ghost from_gives = { λ _ e. e ≡ Memory };

    fn from(_: AllocError) -> Self {
        Fault::Memory
    }
}

impl From<TermFault> for Fault {
    ghost from_gives = { λ t e. e ≡ same_fault t };

    fn from(fault: TermFault) -> Self {
        match fault {
            TermFault::TooLarge => Fault::Deep,
            TermFault::Memory => Fault::Memory,
        }
    }
}

impl From<ReduceFault> for Fault {
    ghost from_gives = { λ r e. e ≡ of_reduction r };

    fn from(fault: ReduceFault) -> Self {
        match fault {
            ReduceFault::Spent => Fault::Spent,
            ReduceFault::Deep => Fault::Deep,
            ReduceFault::Memory => Fault::Memory,
        }
    }
}

impl From<AllocError> for Misfit {
    ghost from_gives = { λ _ e. e ≡ misfit.Memory };

    fn from(_: AllocError) -> Self {
        Misfit::Memory
    }
}
