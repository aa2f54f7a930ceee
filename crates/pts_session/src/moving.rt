// What becomes of a draft after an answer.

ghost use Rattle.std.specs.Prelude.{◌≡◌, ℕ, IfOk, OnOk, OnErr};
ghost use Rattle.std.specs.Option.{option_map};
ghost use Rattle.pts_ctx.specs.Front.{bare_front};
ghost use Rattle.pts_ctx.specs.Seen.{IsPrefix};
ghost use Rattle.pts_rules.specs.Derives.{Legal};
ghost use Rattle.pts_core.specs.Cores.{labelled};
ghost use Rattle.pts_check.specs.Entered.{declared_entries};
ghost use Rattle.pts_session.specs.Replies.{taken_line};
ghost use Rattle.pts_session.specs.Answers.{first_taken};
ghost use Rattle.pts_session.specs.Seen.{state_of};
ghost use Rattle.pts_session.specs.Moves.{moved_to};

use crate::replies::taken_line;
use pts_ctx::Context;
use pts_draft::{Draft, DraftFault};
use pts_names::Text;
use std::alloc::{AllocError, Global};

/// Moves a draft to a front, or answers the line that says which of its names is taken there.
pub(crate) fn move_draft(
    alloc: Global,
    draft: &mut Draft,
    front: Context,
) -> Result<Option<Text>, AllocError>
    requires longer { IsPrefix draft.old.entries front.entries }
    requires legal { Legal draft.old.system (bare_front front.entries) }
    ensures line { IfOk result (λ line. line ≡ option_map (λ t. taken_line t.0 t.1) (first_taken front.entries (declared_entries draft.old.declarations))) }
    ensures state { OnOk result ((b : ℕ) → state_of draft.new b ≡ moved_to (state_of draft.old b) (labelled front)) }
    ensures declarations { draft.new.declarations ≡ draft.old.declarations }
    ensures system { draft.new.system ≡ draft.old.system }
    ensures same { OnErr result (draft.new ≡ draft.old) }
{
    match draft.move_to(front) {
        Ok(()) => Ok(None),
        Err(DraftFault::Taken(name, place)) => Ok(Some(taken_line(alloc, &name, place)?)),
        Err(DraftFault::Infer(_, _)) => unreachable!(),
        Err(DraftFault::Memory) => Err(AllocError),
    }
}
