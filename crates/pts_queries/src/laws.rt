// The laws of lines that ask. Each is a function without a body that is never run: what it ensures is the law.
ghost use Rattle.pts_queries.specs.Laws.{EqualHasOneAnswer, InferHasOneAnswer, ReduceHasOneAnswer};

/// `infer TERM` has one answer at most, under any hypotheses.
#[tactic(auto, using(crate::proofs::Once::infer_once_under))]
pub fn infer_has_one_answer()
    ensures { InferHasOneAnswer }
{}

/// `reduce TERM` has one answer at most, under any hypotheses.
#[tactic(auto, using(crate::proofs::Once::reduce_once_under))]
pub fn reduce_has_one_answer()
    ensures { ReduceHasOneAnswer }
{}

/// `equal TERM ; TERM` has one answer at most, under any hypotheses.
#[tactic(auto, using(crate::proofs::Once::equal_once_under))]
pub fn equal_has_one_answer()
    ensures { EqualHasOneAnswer }
{}
