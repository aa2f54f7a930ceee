// The laws of inference at its cost. Each is a function without a body that is never run: what it ensures is the law.
ghost use Rattle.pts_infer_cost.specs.Laws.{FitsAreExact, FitsAreSound, FitsHaveOneOutcome, FlawsAreScoped, FlawsOfFitsAreScoped, FlawsOfSortTestsAreScoped, FlawsOfSortsAreScoped, InferenceHasOneOutcome, InferenceIsExact, InferenceIsSound, SortTestsAreExact, SortTestsAreSound, SortTestsHaveOneOutcome, SortsAreExact, SortsAreSound, SortsHaveOneOutcome};

/// The inference of a term has one outcome at most, at one cost.
#[tactic(auto, using(crate::proofs::Exact::inference_once))]
pub fn inference_has_one_outcome()
    ensures { InferenceHasOneOutcome }
{}

/// The same of inference with the sort test of the type.
#[tactic(auto, using(crate::proofs::Exact::sorts_once))]
pub fn sorts_have_one_outcome()
    ensures { SortsHaveOneOutcome }
{}

/// The sort test of a type has one outcome at most, at one cost.
#[tactic(auto, using(crate::proofs::Exact::sort_test_once))]
pub fn sort_tests_have_one_outcome()
    ensures { SortTestsHaveOneOutcome }
{}

/// The fit of a type to a wanted one has one outcome at most, at one cost.
#[tactic(auto, using(crate::proofs::Exact::fit_once))]
pub fn fits_have_one_outcome()
    ensures { FitsHaveOneOutcome }
{}

/// Inference on a budget comes to its outcome where that is within the budget, with what is then left of it. It is
/// spent exactly where each outcome costs more.
#[tactic(auto, using(crate::proofs::Exact::inference_exact))]
pub fn inference_is_exact()
    ensures { InferenceIsExact }
{}

/// The same of inference with the sort test of the type.
#[tactic(auto, using(crate::proofs::Exact::sorts_exact))]
pub fn sorts_are_exact()
    ensures { SortsAreExact }
{}

/// The same of the sort test.
#[tactic(auto, using(crate::proofs::Exact::sort_test_exact))]
pub fn sort_tests_are_exact()
    ensures { SortTestsAreExact }
{}

/// The same of the fit.
#[tactic(auto, using(crate::proofs::Exact::fit_exact))]
pub fn fits_are_exact()
    ensures { FitsAreExact }
{}

/// Over a legal front and in a well-formed context, a term has the type that is inferred.
#[tactic(auto, using(crate::proofs::Derived::type_derived))]
pub fn inference_is_sound()
    ensures { InferenceIsSound }
{}

/// The same of inference with the sort test of the type.
#[tactic(auto, using(crate::proofs::Derived::sort_derived))]
pub fn sorts_are_sound()
    ensures { SortsAreSound }
{}

/// A term of a type has the sort that the test of the type comes to.
#[tactic(auto, using(crate::proofs::Derived::sort_test_derived))]
pub fn sort_tests_are_sound()
    ensures { SortTestsAreSound }
{}

/// A term of a type has the wanted type that the type fits.
#[tactic(auto, using(crate::proofs::Derived::fit_derived))]
pub fn fits_are_sound()
    ensures { FitsAreSound }
{}

/// The free indices of the terms that a flaw shows are below the number of the context's entries and of the binders that
/// were passed to its place.
#[tactic(auto, using(crate::proofs::Scoped::flaw_scoped))]
pub fn flaws_are_scoped()
    ensures { FlawsAreScoped }
{}

/// The same of inference with the sort test of the type.
#[tactic(auto, using(crate::proofs::Scoped::sorts_scoped))]
pub fn flaws_of_sorts_are_scoped()
    ensures { FlawsOfSortsAreScoped }
{}

/// The same of the test of a type that a term has.
#[tactic(auto, using(crate::proofs::Scoped::sort_test_scoped))]
pub fn flaws_of_sort_tests_are_scoped()
    ensures { FlawsOfSortTestsAreScoped }
{}

/// The same of the fit of a type that a term has.
#[tactic(auto, using(crate::proofs::Scoped::fit_scoped))]
pub fn flaws_of_fits_are_scoped()
    ensures { FlawsOfFitsAreScoped }
{}
