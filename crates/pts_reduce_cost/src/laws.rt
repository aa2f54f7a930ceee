// The laws of costs. Each is a function without a body that is never run: what it ensures is the law.
ghost use Rattle.pts_reduce_cost.specs.Laws.{FormsAreConvertible, ReductionHasOneOutcome, ReductionIsExact, TestsAreExact, TestsAreSound, TestsHaveOneOutcome};

/// A term is reduced to one outcome at most, and at one cost.
#[tactic(auto, using(crate::proofs::Reached::one_reduct))]
pub fn reduction_has_one_outcome()
    ensures { ReductionHasOneOutcome }
{}

/// The test of two terms has one answer at most, and one cost.
#[tactic(auto, using(crate::proofs::Reached::one_verdict))]
pub fn tests_have_one_outcome()
    ensures { TestsHaveOneOutcome }
{}

/// Reduction on a budget comes to the outcome where its cost is within the budget, with what is then left of it. It is
/// spent exactly where each outcome costs more.
#[tactic(auto, using(crate::proofs::Exact::reduction_exact))]
pub fn reduction_is_exact()
    ensures { ReductionIsExact }
{}

/// The test on a budget comes to its answer where that is within the budget, with what is then left of it. It is spent
/// exactly where each answer costs more.
#[tactic(auto, using(crate::proofs::Exact::test_exact))]
pub fn tests_are_exact()
    ensures { TestsAreExact }
{}

/// A term is convertible with the form that it is reduced to.
#[tactic(auto, using(crate::proofs::Converts::form_joined))]
pub fn forms_are_convertible()
    ensures { FormsAreConvertible }
{}

/// Terms of which the test says yes are convertible.
#[tactic(auto, using(crate::proofs::Converts::yes_joined))]
pub fn tests_are_sound()
    ensures { TestsAreSound }
{}
