// The laws of theorems: functions without a body that are never run, and what one ensures is its law.

ghost use Rattle.pts_theorem.specs.Laws.{GoalsAreOpen, LinesChangeNothing, StepsMakeTheTerm, StepsRefine};

/// The open goals of a theorem are those of its proof.
#[tactic(auto, using(crate::proofs::Opened::goals_open))]
pub fn goals_are_open()
    ensures { GoalsAreOpen }
{}

/// Further lines in the record of a proof change nothing of its theorem.
#[tactic(auto, using(crate::proofs::Staying::nothing_changes))]
pub fn lines_change_nothing()
    ensures { LinesChangeNothing }
{}

/// The steps of a proof make the term of the refinements.
#[tactic(auto, using(crate::proofs::Made::term_made))]
pub fn steps_make_the_term()
    ensures { StepsMakeTheTerm }
{}

/// A step that is put in is one refinement more.
#[tactic(auto, using(crate::proofs::Opened::one_more))]
pub fn steps_refine()
    ensures { StepsRefine }
{}
