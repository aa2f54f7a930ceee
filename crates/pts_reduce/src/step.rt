// Head steps of a record's terms, each for a unit.

ghost use Rattle.std.specs.Prelude.{◌≡◌, ◌<◌, ◌≢◌, length, IfOk, IfSome, Some, None};
ghost use Rattle.std.specs.Option.{option_map};
ghost use Rattle.pts_terms.specs.Tree.{subst};
ghost use Rattle.pts_names.specs.Name.{Name};
ghost use Rattle.pts_ctx.specs.Front.{find, entry_at};
ghost use Rattle.pts_record.specs.Table.{named_at};
ghost use Rattle.pts_record.specs.Said.{named_told, scope_of};
ghost use Rattle.pts_rules.specs.Meter.{left};
ghost use Rattle.pts_rules.specs.Step.{head_step, body_of, definition_at};
ghost use Rattle.pts_reduce_cost.specs.Work.{stepped};
ghost use Rattle.pts_grow.specs.Keeps.{Keeps, StaysValid};
ghost use Rattle.pts_reduce.specs.Given.{Gives, Later, body_in};

use crate::fault::Fault;
use crate::locals::definition;
use crate::pay::pay;
use pts_ctx::Context;
use pts_grow::{apply, lift, put, take_in};
use pts_record::{Name, Record, Shape};
use pts_rules::Meter;

// The body of a term that is an abstraction.
fn body_of(proof: &Record, term: usize) -> Option<usize>
    requires { term < length proof.now.shapes }
    ensures stands { IfSome result (λ b. b < length proof.now.shapes) }
    ensures body { option_map (named_at proof.now.shapes) result ≡ body_in (named_at proof.now.shapes term) }
{
    match proof.shape(term) {
        Shape::Lam(_, _, body) => Some(*body),
        _ => None,
    }
}

// Puts the argument for the variable of a body.
#[tactic(auto, using(pts_grow::proofs::Grow::keeping, crate::proofs::Paid::later, crate::proofs::Stepping::step_facts))]
fn contract(
    proof: &mut Record,
    body: usize,
    argument: usize,
    meter: &mut Meter,
) -> Result<Option<usize>, Fault>
    requires body { body < length proof.old.shapes }
    requires argument { argument < length proof.old.shapes }
    ensures runs { Gives (option_map (named_at proof.new.shapes)) result (left meter.new) (stepped (Some (subst 0 (named_at proof.old.shapes argument) (named_at proof.old.shapes body))) (left meter.old)) }
    ensures stands { IfOk result (λ o. IfSome o (λ n. n < length proof.new.shapes)) }
    ensures keeps { Keeps proof.old proof.new }
    ensures valid { StaysValid proof.old proof.new }
    ensures nodes { proof.new.nodes ≡ proof.old.nodes }
    ensures later { Later meter.old meter.new }
{
    let _terms = proof.terms();
    pay(meter)?;
    let made = put(proof, body, 0, 0, argument)?;
    Ok(Some(made))
}

// The body of a name, where it has one.
#[tactic(auto, using(pts_grow::proofs::Grow::keeping, crate::proofs::Paid::later, crate::proofs::Stepping::step_facts))]
fn unfold(
    front: &Context,
    proof: &mut Record,
    name: &Name,
    meter: &mut Meter,
) -> Result<Option<usize>, Fault>
    ensures runs { Gives (option_map (named_at proof.new.shapes)) result (left meter.new) (stepped (body_of (find name.now front.now.entries)) (left meter.old)) }
    ensures stands { IfOk result (λ o. IfSome o (λ n. n < length proof.new.shapes)) }
    ensures keeps { Keeps proof.old proof.new }
    ensures valid { StaysValid proof.old proof.new }
    ensures nodes { proof.new.nodes ≡ proof.old.nodes }
    ensures later { Later meter.old meter.new }
{
    let Some(entry) = front.lookup(name) else {
        return Ok(None);
    };
    let Some(body) = &entry.body else {
        return Ok(None);
    };
    pay(meter)?;
    let made = take_in(proof, body)?;
    Ok(Some(made))
}

// The definition of an index, where it has one.
#[tactic(auto, using(pts_grow::proofs::Grow::keeping, crate::proofs::Paid::later, crate::proofs::Stepping::step_facts, crate::proofs::Stepping::definition_at_is))]
fn unfold_local(
    proof: &mut Record,
    ctx: usize,
    index: u32,
    meter: &mut Meter,
) -> Result<Option<usize>, Fault>
    requires ctx { ctx < length proof.old.nodes }
    ensures runs { Gives (option_map (named_at proof.new.shapes)) result (left meter.new) (stepped (definition_at index (entry_at (scope_of (named_told proof.old ctx)).entries index)) (left meter.old)) }
    ensures stands { IfOk result (λ o. IfSome o (λ n. n < length proof.new.shapes)) }
    ensures keeps { Keeps proof.old proof.new }
    ensures valid { StaysValid proof.old proof.new }
    ensures nodes { proof.new.nodes ≡ proof.old.nodes }
    ensures later { Later meter.old meter.new }
{
    let _terms = proof.terms();
    let Some(found) = definition(proof, ctx, index) else {
        return Ok(None);
    };
    pay(meter)?;
    let made = lift(proof, found, 0, u64::from(index) + 1)?;
    Ok(Some(made))
}

/// The head step of a term, for one unit. Where there is none nothing is paid.
#[tactic(auto, using(pts_grow::proofs::Grow::keeping, crate::proofs::Paid::later, crate::proofs::Stepping::app_facts), unfolding(pts_rules::specs::Step::head_step))]
pub(crate) fn step(
    front: &Context,
    proof: &mut Record,
    ctx: usize,
    term: usize,
    meter: &mut Meter,
) -> Result<Option<usize>, Fault>
    requires ctx { ctx < length proof.old.nodes }
    requires term { term < length proof.old.shapes }
    ensures runs { Gives (option_map (named_at proof.new.shapes)) result (left meter.new) (stepped (head_step front.now.entries (scope_of (named_told proof.old ctx)).entries (named_at proof.old.shapes term)) (left meter.old)) }
    ensures stands { IfOk result (λ o. IfSome o (λ n. n < length proof.new.shapes)) }
    ensures keeps { Keeps proof.old proof.new }
    ensures valid { StaysValid proof.old proof.new }
    ensures nodes { proof.new.nodes ≡ proof.old.nodes }
    ensures later { Later meter.old meter.new }
{
    match proof.shape(term) {
        Shape::Sort(_) | Shape::Lam(..) | Shape::Pi(..) => Ok(None),
        Shape::Const(name) => {
            let name = name.copy()?;
            unfold(front, proof, &name, meter)
        }
        Shape::Var(index) => {
            let index = *index;
            unfold_local(proof, ctx, index, meter)
        }
        Shape::Let(_, definition, _, body) => {
            let (definition, body) = (*definition, *body);
            contract(proof, body, definition, meter)
        }
        Shape::App(function, argument) => {
            let (function, argument) = (*function, *argument);
            if let Some(body) = body_of(proof, function) {
                return contract(proof, body, argument, meter);
            }
            match step(front, proof, ctx, function, meter)? {
                Some(next) => Ok(Some(apply(proof, next, argument)?)),
                None => Ok(None),
            }
        }
    }
}
