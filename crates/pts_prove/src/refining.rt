// A command on an open proof: its record is lent, and the step that is found is put in.

ghost use Rattle.std.specs.Prelude.{◌≡◌, IfErr, IfOk, Some, false};
ghost use Rattle.pts_ctx.specs.Front.{bare_front};
ghost use Rattle.pts_rules.specs.Meter.{left};
ghost use Rattle.pts_rules.specs.Valid.{IsValid};
ghost use Rattle.pts_grow.specs.Keeps.{Keeps};
ghost use Rattle.pts_reduce.specs.Given.{Later};
ghost use Rattle.pts_goals.specs.Steps.{Fits, IsGoal};
ghost use Rattle.pts_goals.specs.OpenProofs.{FitsFirst, with_scratch};
ghost use Rattle.pts_prove.specs.Answered.{Answers};
ghost use Rattle.pts_prove.specs.Refining.{HasNoGoal, IsPut, Proves, command_of, first_goal, refinement_of, sequent_of};

use crate::command::Command;
use crate::copies::copy_names;
use crate::fault::ProveFault;
use crate::work::{Place, Work};
use pts_ctx::{Context, System};
use pts_goals::{FillFault, Goal, Proof, Step};
use pts_names::List;
use pts_record::Record;
use pts_rules::Meter;

// The goal that comes first.
fn first_goal(proof: &Proof) -> Result<Goal, ProveFault>
    requires here { proof.now.is_lent ≡ false }
    ensures goal { IfOk result (λ g. first_goal proof.now ≡ Some g) }
    ensures is_goal { IfOk result (λ g. IsGoal proof.now.scratch g) }
    ensures none { IfErr result (HasNoGoal proof.now) }
{
    if proof.goals() == 0 {
        return Err(ProveFault::NoGoal);
    }
    let goal = proof.goal(0);
    let names = copy_names(proof.scratch().alloc(), goal.names.items())?;
    Ok(Goal {
        names: List::of(names),
        ctx: goal.ctx,
        statement: goal.statement,
        sorted: goal.sorted,
        place: goal.place,
    })
}

// The step that a command puts into a goal of a record.
#[tactic(auto, using(crate::proofs::Lending::lending))]
fn step_in(
    system: &System,
    front: &Context,
    scratch: &mut Record,
    goal: &Goal,
    command: Command<'_>,
    meter: &mut Meter,
) -> Result<Step, ProveFault>
    requires goal { IsGoal scratch.old goal.now }
    ensures outcome { Answers goal.now.names (refinement_of scratch.new) (command_of system.now front.now.entries command.entry (sequent_of scratch.old goal.now)) result (left meter.old) (left meter.new) }
    ensures fits { IfOk result (Fits scratch.new goal.now) }
    ensures keeps { Keeps scratch.old scratch.new }
    ensures valid { IsValid system.now (bare_front front.now.entries) scratch.old → IsValid system.now (bare_front front.now.entries) scratch.new }
    ensures later { Later meter.old meter.new }
{
    let mut work = Work {
        system,
        front,
        names: goal.names.items(),
        proof: scratch,
        meter,
    };
    let place = Place {
        ctx: goal.ctx,
        statement: goal.statement,
    };
    work.step(place, command)
}

// The same, where the goal is the first one of an open proof, whose record is lent for this.
#[tactic(auto, using(crate::proofs::Lending::lending))]
fn step_first(
    system: &System,
    front: &Context,
    proof: &mut Proof,
    goal: &Goal,
    command: Command<'_>,
    meter: &mut Meter,
) -> Result<Step, ProveFault>
    requires here { proof.old.is_lent ≡ false }
    requires first { first_goal proof.old ≡ Some goal.now }
    requires goal { IsGoal proof.old.scratch goal.now }
    ensures outcome { Answers goal.now.names (refinement_of proof.new.scratch) (command_of system.now front.now.entries command.entry (sequent_of proof.old.scratch goal.now)) result (left meter.old) (left meter.new) }
    ensures fits { IfOk result (FitsFirst proof.new.scratch proof.new.goals) }
    ensures same { proof.new ≡ with_scratch proof.old proof.new.scratch }
    ensures keeps { Keeps proof.old.scratch proof.new.scratch }
    ensures valid { IsValid system.now (bare_front front.now.entries) proof.old.scratch → IsValid system.now (bare_front front.now.entries) proof.new.scratch }
    ensures later { Later meter.old meter.new }
{
    let mut scratch = proof.lend();
    let answer = step_in(system, front, &mut scratch, goal, command, meter);
    proof.restore(scratch);
    answer
}

// Puts a step into the goal that comes first.
#[tactic(auto, using(crate::proofs::Lending::lending))]
fn put(proof: &mut Proof, step: Step) -> Result<(), ProveFault>
    requires here { proof.old.is_lent ≡ false }
    requires fits { FitsFirst proof.old.scratch proof.old.goals step }
    ensures put { IsPut proof.old step result proof.new }
    ensures here { proof.new.is_lent ≡ false }
{
    match proof.fill(step) {
        Ok(()) => Ok(()),
        Err(FillFault::Deep) => Err(ProveFault::Deep),
        Err(FillFault::Memory) => Err(ProveFault::Memory),
    }
}

/// The next open proof of a command.
#[tactic(auto, using(crate::proofs::Lending::lending))]
pub(crate) fn refine(
    system: &System,
    front: &Context,
    proof: &mut Proof,
    command: Command<'_>,
    meter: &mut Meter,
) -> Result<(), ProveFault>
    requires here { proof.old.is_lent ≡ false }
    ensures proves { Proves proof.old (command_of system.now front.now.entries command.entry) result proof.new (left meter.old) (left meter.new) }
    ensures here { proof.new.is_lent ≡ false }
    ensures keeps { Keeps proof.old.scratch proof.new.scratch }
    ensures valid { IsValid system.now (bare_front front.now.entries) proof.old.scratch → IsValid system.now (bare_front front.now.entries) proof.new.scratch }
    ensures later { Later meter.old meter.new }
{
    let goal = first_goal(proof)?;
    let step = step_first(system, front, proof, &goal, command, meter)?;
    put(proof, step)
}
