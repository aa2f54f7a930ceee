// The law of batches, a function without a body that is never run: what it ensures is the law.
ghost use Rattle.pts_batch.specs.Laws.{ModulesHaveOneAnswer};

/// A module has one answer at most, at one cost.
#[tactic(auto, using(crate::proofs::Once::answers_once))]
pub fn modules_have_one_answer()
    ensures { ModulesHaveOneAnswer }
{}
