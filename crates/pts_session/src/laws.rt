// The laws of sessions. Each is a function without a body that is never run: what it ensures is the law.
ghost use Rattle.pts_session.specs.Laws.{AnswersHaveOneOutcome, AnswersMoveTheBase, LinesAskForTheirState, LinesHaveOneOutcome, LinesKeepTheBase};

/// A line keeps the base: only an answer moves it.
#[tactic(auto, using(crate::specs::Playing::lines_keep))]
pub fn lines_keep_the_base()
    ensures { LinesKeepTheBase }
{}

/// A line that asks keeps the state, and asks for a look or offers the draft of that state.
#[tactic(auto, using(crate::specs::Playing::lines_ask))]
pub fn lines_ask_for_their_state()
    ensures { LinesAskForTheirState }
{}

/// After an answer the base is the one before it, or the front that came with it.
#[tactic(auto, using(crate::specs::Playing::answers_move))]
pub fn answers_move_the_base()
    ensures { AnswersMoveTheBase }
{}

/// A line has one outcome at most: one list of replies and one state, or one request, which is the same event at each front.
#[tactic(auto, using(crate::proofs::Once::lines_once))]
pub fn lines_have_one_outcome()
    ensures { LinesHaveOneOutcome }
{}

/// An answer has one outcome at most.
#[tactic(auto, using(crate::proofs::Once::answers_once))]
pub fn answers_have_one_outcome()
    ensures { AnswersHaveOneOutcome }
{}
