// The law of statements, a function without a body that is never run: what it ensures is the law.
ghost use Rattle.pts_statement.specs.Laws.{StatementsHaveOneOutcome};

/// A statement of a module comes to one outcome at most over a front, at one cost.
#[tactic(auto, using(crate::proofs::Once::declares_once))]
pub fn statements_have_one_outcome()
    ensures { StatementsHaveOneOutcome }
{}
