// The law of declarations, a function without a body that is never run: what it ensures is the law.
ghost use Rattle.pts_declare.specs.Laws.{DeclarationsHaveOneOutcome};

/// What is stated of a name comes to one outcome at most over a front, at one cost.
#[tactic(auto, using(crate::proofs::Once::checks_once))]
pub fn declarations_have_one_outcome()
    ensures { DeclarationsHaveOneOutcome }
{}
