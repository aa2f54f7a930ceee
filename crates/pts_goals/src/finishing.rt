// The judgement that the steps make, out of judgements that close the goals that are open.

ghost use Rattle.std.specs.Prelude.{◌≡◌, ◌<◌, length, [], Some, IfOk, true};
ghost use Rattle.pts_terms.specs.Tree.{bare};
ghost use Rattle.pts_terms.specs.Seen.{named};
ghost use Rattle.pts_record.specs.Table.{named_at};
ghost use Rattle.pts_rules.specs.Valid.{last_said, concludes_as};
ghost use Rattle.pts_grow.specs.Keeps.{Keeps, StaysValid};
ghost use Rattle.pts_goals.specs.Steps.{IsGoal, Closes};
ghost use Rattle.pts_goals.specs.OpenGoals.{ClosedAfter, Makes, IsOpenProof, subjects_of};

use crate::closing::close_step;
use crate::stack::subgoal_count;
use crate::{FilledGoal, Goal};
use pts_grow::{Judged, close};
use pts_record::Record;
use pts_terms::Term;
use std::alloc::AllocError;

// Fills every open goal with a judgement that closes it: the judgement that then closes the first goal of all. The
// steps are gone through from the last one on; each takes the judgements of the goals that it left.
#[tactic(auto, using(pts_grow::proofs::Grow::keeping))]
pub(crate) fn fill_out(
    proof: &mut Record,
    root: &Goal,
    steps: &[FilledGoal],
    closed: Vec<Judged>,
) -> Result<Judged, AllocError>
    requires root { IsGoal proof.old root.now }
    requires done { ClosedAfter proof.old root.now steps.now (length steps.now) proof.old closed.items (subjects_of proof.old closed.items) }
    ensures closes { IfOk result (λ j. Closes proof.new root.now j) }
    ensures term { IfOk result (λ j. Makes proof.old steps.now (length steps.now) (subjects_of proof.old closed.items) (named_at proof.new.shapes j.subject)) }
    ensures keeps { Keeps proof.old proof.new }
    ensures valid { StaysValid proof.old proof.new }
{
    let mut stack = closed;
    let mut at = steps.len();
    'close: while at > 0 {
        at -= 1;
        let filled = &steps[at];
        let from = stack.len() - subgoal_count(&filled.step);
        let judged = close_step(proof, &filled.goal, &filled.step, &stack[from..])?;
        stack.truncate(from);
        stack.push(judged)?;
    }
    let Some(judged) = stack.pop() else {
        unreachable!()
    };
    Ok(judged)
}

/// The term that the steps make, and the first statement.
#[derive(Drop)]
pub(crate) struct Concluded {
    pub body: Term,
    pub ty: Term,
}

// The end of a tree of steps without holes: the record ends with the judgement of the term that the steps make.
#[tactic(auto, using(pts_grow::proofs::Grow::keeping, pts_grow::proofs::Judgements::still_typed))]
pub(crate) fn conclude(
    scratch: &mut Record,
    root: &Goal,
    steps: &[FilledGoal],
) -> Result<Concluded, AllocError>
    requires sound { IsOpenProof scratch.old root.now steps.now [] }
    ensures body { IfOk result (λ c. Makes scratch.old steps.now (length steps.now) [] (named c.body)) }
    ensures ty { IfOk result (λ c. named c.ty ≡ named_at scratch.old.shapes root.now.statement) }
    ensures concludes { IfOk result (λ c. concludes_as (last_said scratch.new) (Some (bare (named c.body))) (bare (named c.ty)) ≡ true) }
    ensures keeps { Keeps scratch.old scratch.new }
    ensures valid { StaysValid scratch.old scratch.new }
{
    let alloc = scratch.alloc();
    let judged = fill_out(scratch, root, steps, Vec::new(alloc))?;
    let _node = close(scratch, root.ctx, judged)?;
    scratch.trim();
    let body = scratch.tree(judged.subject)?;
    let ty = scratch.tree(root.statement)?;
    Ok(Concluded { body, ty })
}
