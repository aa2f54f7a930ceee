// How each step closes its goal, once the goals that it left are closed.

ghost use Rattle.std.specs.Prelude.{◌≡◌, ◌<◌, length, IfOk, true};
ghost use Rattle.pts_terms.specs.Tree.{pi, lift};
ghost use Rattle.pts_terms.specs.Limits.{within};
ghost use Rattle.pts_record.specs.Table.{named_at, bare_at};
ghost use Rattle.pts_grow.specs.Keeps.{Keeps, StaysValid};
ghost use Rattle.pts_grow.specs.Judges.{IsTypedContext, Judges, JudgesSort, IsProduct};
ghost use Rattle.pts_goals.specs.Steps.{IsGoal, Closes, Converts, Fits, subgoals, step_term};
ghost use Rattle.pts_goals.specs.OpenGoals.{AllClose, subjects_of};
ghost use Rattle.pts_goals.specs.Parts.{lam_term, app_term, cut_term};

use crate::spines::apply_all;
use crate::{Goal, Step};
use pts_grow::{Compared, Judged, TermFault, add_app, add_conv, add_lam, add_line, apply};
use pts_names::Name;
use pts_record::{Record, Shape};
use std::alloc::AllocError;

// The judgement with the claim that it is compared with.
#[tactic(auto, using(pts_grow::proofs::Grow::keeping, pts_grow::proofs::Judgements::still, pts_grow::proofs::Plain::plainly, crate::proofs::Kept::closed_by))]
fn change(
    proof: &mut Record,
    goal: &Goal,
    judged: Judged,
    compared: Option<Compared>,
) -> Result<Judged, AllocError>
    requires goal { IsGoal proof.old goal.now }
    requires judged { Judges proof.old goal.now.ctx judged }
    requires joined { Converts proof.old goal.now.ctx (bare_at proof.old.shapes judged.claim) (bare_at proof.old.shapes goal.now.statement) compared }
    ensures term { IfOk result (λ j. named_at proof.new.shapes j.subject ≡ named_at proof.old.shapes judged.subject) }
    ensures closes { IfOk result (λ j. Closes proof.new goal.now j) }
    ensures keeps { Keeps proof.old proof.new }
    ensures valid { StaysValid proof.old proof.new }
{
    match compared {
        None => Ok(judged),
        Some(compared) => {
            add_conv(
                proof,
                goal.ctx,
                judged.subject,
                goal.statement,
                judged,
                goal.sorted,
                compared,
            )
        }
    }
}

// The abstraction of a body.
#[tactic(auto, using(pts_grow::proofs::Grow::keeping, pts_grow::proofs::Judgements::still, pts_grow::proofs::Plain::plainly))]
fn abstraction(
    proof: &mut Record,
    ctx: usize,
    name: &Name,
    product: Judged,
    domain: Judged,
    inner: usize,
    sorted: Judged,
    body: Judged,
) -> Result<Judged, AllocError>
    requires ctx { ctx < length proof.old.nodes }
    requires typed { IsTypedContext proof.old ctx }
    requires product { IsProduct proof.old ctx product domain inner sorted }
    requires body { Judges proof.old inner body }
    requires body_claim { bare_at proof.old.shapes body.claim ≡ bare_at proof.old.shapes sorted.subject }
    requires within { within (lam_term proof.old name.now domain body) ≡ true }
    ensures claim { IfOk result (λ j. j.claim ≡ product.subject) }
    ensures judges { IfOk result (λ j. Judges proof.new ctx j) }
    ensures term { IfOk result (λ j. named_at proof.new.shapes j.subject ≡ lam_term proof.old name.now domain body) }
    ensures keeps { Keeps proof.old proof.new }
    ensures valid { StaysValid proof.old proof.new }
{
    let name = name.copy()?;
    match add_line(proof, Shape::Lam(name, domain.subject, body.subject)) {
        Ok(term) => {
            add_lam(
                proof,
                ctx,
                term,
                product.subject,
                domain,
                inner,
                body,
                product,
            )
        }
        Err(TermFault::Memory) => Err(AllocError),
        Err(TermFault::TooLarge) => unreachable!(),
    }
}

// A function from a lemma to the goal, applied to the lemma's proof.
#[tactic(auto, using(pts_grow::proofs::Grow::keeping, pts_grow::proofs::Judgements::still, pts_grow::proofs::Plain::plainly, crate::proofs::Kept::closed_by))]
fn applied(
    proof: &mut Record,
    goal: &Goal,
    function: Judged,
    argument: Judged,
    domain: usize,
    codomain: usize,
) -> Result<Judged, AllocError>
    requires goal { IsGoal proof.old goal.now }
    requires function { Judges proof.old goal.now.ctx function }
    requires argument { Judges proof.old goal.now.ctx argument }
    requires domain { domain < length proof.old.shapes }
    requires codomain { codomain < length proof.old.shapes }
    requires product { bare_at proof.old.shapes function.claim ≡ pi (bare_at proof.old.shapes domain) (bare_at proof.old.shapes codomain) }
    requires claim { bare_at proof.old.shapes argument.claim ≡ bare_at proof.old.shapes domain }
    requires lifted { bare_at proof.old.shapes codomain ≡ lift 0 1 (bare_at proof.old.shapes goal.now.statement) }
    requires within { within (app_term proof.old function argument) ≡ true }
    ensures closes { IfOk result (λ j. Closes proof.new goal.now j) }
    ensures term { IfOk result (λ j. named_at proof.new.shapes j.subject ≡ app_term proof.old function argument) }
    ensures keeps { Keeps proof.old proof.new }
    ensures valid { StaysValid proof.old proof.new }
{
    match apply(proof, function.subject, argument.subject) {
        Ok(term) => {
            add_app(
                proof,
                goal.ctx,
                term,
                goal.statement,
                function,
                argument,
                domain,
                codomain,
            )
        }
        Err(TermFault::Memory) => Err(AllocError),
        Err(TermFault::TooLarge) => unreachable!(),
    }
}

// The abstraction over a lemma of the goal's proof, applied to the lemma's proof.
#[tactic(auto, using(pts_grow::proofs::Grow::keeping, crate::proofs::Kept::kept, crate::proofs::Within::cutting))]
fn cut(
    proof: &mut Record,
    goal: &Goal,
    name: &Name,
    lemma: Judged,
    product: Judged,
    inner: usize,
    sorted: Judged,
    body: Judged,
    argument: Judged,
) -> Result<Judged, AllocError>
    requires goal { IsGoal proof.old goal.now }
    requires product { IsProduct proof.old goal.now.ctx product lemma inner sorted }
    requires lifted { bare_at proof.old.shapes sorted.subject ≡ lift 0 1 (bare_at proof.old.shapes goal.now.statement) }
    requires body { Judges proof.old inner body }
    requires body_claim { bare_at proof.old.shapes body.claim ≡ bare_at proof.old.shapes sorted.subject }
    requires argument { Judges proof.old goal.now.ctx argument }
    requires argument_claim { bare_at proof.old.shapes argument.claim ≡ bare_at proof.old.shapes lemma.subject }
    requires within { within (cut_term proof.old name.now lemma body argument) ≡ true }
    ensures closes { IfOk result (λ j. Closes proof.new goal.now j) }
    ensures term { IfOk result (λ j. named_at proof.new.shapes j.subject ≡ cut_term proof.old name.now lemma body argument) }
    ensures keeps { Keeps proof.old proof.new }
    ensures valid { StaysValid proof.old proof.new }
{
    let function = abstraction(proof, goal.ctx, name, product, lemma, inner, sorted, body)?;
    applied(
        proof,
        goal,
        function,
        argument,
        lemma.subject,
        sorted.subject,
    )
}

// The judgement that closes the goal of a step, by those that close the goals that it left.
#[tactic(auto, using(pts_grow::proofs::Grow::keeping, crate::proofs::Kept::still_goal, crate::proofs::Kept::still_joined, crate::proofs::Parts::parts))]
pub(crate) fn close_step(
    proof: &mut Record,
    goal: &Goal,
    step: &Step,
    parts: &[Judged],
) -> Result<Judged, AllocError>
    requires goal { IsGoal proof.old goal.now }
    requires fits { Fits proof.old goal.now step.now }
    requires parts { AllClose proof.old (subgoals goal.now step.now) parts.now }
    requires within { within (step_term proof.old step.now (subjects_of proof.old parts.now)) ≡ true }
    ensures closes { IfOk result (λ j. Closes proof.new goal.now j) }
    ensures term { IfOk result (λ j. named_at proof.new.shapes j.subject ≡ step_term proof.old step.now (subjects_of proof.old parts.now)) }
    ensures keeps { Keeps proof.old proof.new }
    ensures valid { StaysValid proof.old proof.new }
{
    match step {
        Step::Intro {
            name,
            product,
            domain,
            inner,
            sorted,
            change: compared,
        } => {
            let judged = abstraction(
                proof, goal.ctx, name, *product, *domain, *inner, *sorted, parts[0],
            )?;
            change(proof, goal, judged, *compared)
        }
        Step::Exact { node } => Ok(*node),
        Step::Cut {
            name,
            lemma,
            product,
            inner,
            sorted,
        } => {
            cut(
                proof, goal, name, *lemma, *product, *inner, *sorted, parts[0], parts[1],
            )
        }
        Step::Apply { function, links } => {
            apply_all(proof, goal, *function, links.items(), parts)
        }
        Step::Change { comparison, .. } => change(proof, goal, parts[0], Some(*comparison)),
    }
}
