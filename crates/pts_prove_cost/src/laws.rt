// The law of the proof commands: a function without a body that is never run, and what it ensures is the law.
ghost use Rattle.pts_prove_cost.specs.Laws.{CommandsHaveOneOutcome};

/// A command comes to one outcome at most for a goal, at one cost.
#[tactic(auto, using(crate::proofs::OneOutcome::commands_once))]
pub fn commands_have_one_outcome()
    ensures { CommandsHaveOneOutcome }
{}
