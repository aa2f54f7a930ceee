// The laws of rounds. Each is a function without a body that is never run: what it ensures is the law.

ghost use Rattle.std.specs.Prelude.{ℕ, List};
ghost use Rattle.pts_play.specs.Machines.{Outcome};
ghost use Rattle.pts_play.specs.Ports.{History};
ghost use Rattle.pts_play.specs.Laws.{RoundsAreMerged, LinesSayOneThing};
ghost use Rattle.pts_play.specs.ByTurns.{RoundsAreTurns, TurnsAreRounds, PlayedRoundsAreTurns, TurnsArePlayedRounds};
ghost use Rattle.pts_play.specs.Serve.{ServedRoundsArePlayed, ServedInputsArePlayed, OrdersAreReplayed};

/// Sessions in a world, a core, and the histories from which the core comes, of which the laws speak. One type of sessions may be
/// generic in the core.
pub trait Rounds {
    type World;

    type Waiting;

    type Request;

    type Answer;

    type Core;

    type Entry;

    ghost local: { Self.World → Self → List ℕ → Outcome Self Self.Waiting Self.Request → Type 0 };

    ghost resumes: { Self.World → Self.Waiting → Self.Answer → List (List ℕ) → Self → Type 0 };

    ghost steps: { Self.Core → ℕ → Self.Request → Self.Answer → Self.Core → Type 0 };

    ghost core_at: { History Self.Entry → Self.Core };

    // Which orders are taken for the numbers after `go`.
    ghost chosen: { (numbers order : List ℕ) → Type 0 };

    ghost is_text: { List ℕ → Type 0 };
}

/// What the workers of a round did together is a round of one thread, in the order of the history.
pub fn rounds_are_merged<R: Rounds>()
    ensures { (w : R.World) → RoundsAreMerged (R.local w) (R.resumes w) R.steps R.core_at }
{}

/// A round by its events is a round by turns under the same order, and the other way round.
pub fn rounds_are_turns<R: Rounds>()
    ensures turns { (w : R.World) → RoundsAreTurns (R.local w) (R.resumes w) R.steps }
    ensures rounds { (w : R.World) → TurnsAreRounds (R.local w) (R.resumes w) R.steps }
{}

/// A round of a play by its events is one in which all sessions take turns, and the other way round.
pub fn played_rounds_are_turns<R: Rounds>()
    ensures turns { (w : R.World) → PlayedRoundsAreTurns R.steps (R.local w) (R.resumes w) R.chosen }
    ensures rounds { (w : R.World) → TurnsArePlayedRounds R.steps (R.local w) (R.resumes w) R.chosen }
{}

/// A line of the input asks for one thing at most.
pub fn lines_say_one_thing<R: Rounds>()
    ensures { LinesSayOneThing R.is_text }
{}

/// A round that was served is played, in some order, and so is an input that was served; and a round that was played in any order
/// is played again under the order that was printed.
pub fn served_inputs_are_played<R: Rounds>()
    ensures rounds { (w : R.World) → ServedRoundsArePlayed R.steps (R.local w) (R.resumes w) R.core_at }
    ensures inputs { (w : R.World) → ServedInputsArePlayed R.steps (R.local w) (R.resumes w) R.core_at R.is_text }
    ensures orders { (w : R.World) → OrdersAreReplayed R.steps (R.local w) (R.resumes w) }
{}
