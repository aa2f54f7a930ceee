// The laws of open proofs: functions without a body that are never run, and what one ensures is its law.

ghost use Rattle.pts_goals.specs.Laws.{FillsAreUndone, StepsMakeOneTerm};

/// The step that was put into a proof tells what the proof was: `undo` after `fill` gives what was before.
pub fn fills_are_undone()
    ensures { FillsAreUndone }
{}

/// Of terms for the goals that are open, one for each, the steps make exactly one term.
pub fn steps_make_one_term()
    ensures { StepsMakeOneTerm }
{}
