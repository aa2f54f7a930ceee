// How deep and how large the term of an open proof is.

ghost use Rattle.std.specs.Prelude.{◌≡◌, ◌<◌, ◌≤◌, ◌+◌, max, length};
ghost use Rattle.pts_terms.specs.Tree.{sort};
ghost use Rattle.pts_terms.specs.Limits.{depth_of, size_of};
ghost use Rattle.pts_record.specs.Table.{named_at};
ghost use Rattle.pts_grow.specs.Judges.{Judges};
ghost use Rattle.pts_goals.specs.Steps.{Fits, argument_term, LinksFit};
ghost use Rattle.pts_goals.specs.OpenGoals.{skeleton, depth_after, size_after, last_step};
ghost use Rattle.pts_goals.specs.Parts.{argument_subject, spine_depth, spine_size};

use crate::spines::link_at;
use crate::{Argument, FilledGoal, Goal, Link, Step};
use pts_grow::Judged;
use pts_record::Record;

/// The depth and the size of a term.
#[derive(Clone, Copy, Debug)]
pub(crate) struct Measures {
    pub depth: u64,
    pub size: u64,
}

// The depth and the size of an argument; a goal is a hole.
#[tactic(auto, using(pts_grow::proofs::Lifted::depth_named, pts_grow::proofs::Lifted::size_named, crate::proofs::Size::no_depth))]
fn argument_measures(scratch: &Record, argument: Argument) -> Measures
    requires stands { argument_subject argument < length scratch.now.shapes }
    ensures depth { result.depth ≡ depth_of (argument_term scratch.now argument (sort 0)) }
    ensures size { result.size ≡ size_of (argument_term scratch.now argument (sort 0)) }
    ensures small { (result.depth ≤ 2000) × (result.size ≤ 1000000) }
{
    match argument {
        Argument::Given(judged) => {
            let term = scratch.measure(judged.subject);
            Measures {
                depth: u64::from(term.depth),
                size: u64::from(term.size),
            }
        }
        Argument::Left(_) => Measures { depth: 1, size: 1 },
    }
}

// The depth and the size of a spine whose goals are holes.
#[tactic(auto, using(pts_grow::proofs::Lifted::depth_named, pts_grow::proofs::Lifted::size_named))]
fn links_measures(scratch: &Record, goal: &Goal, function: Judged, links: &[Link]) -> Measures
    requires function { Judges scratch.now goal.now.ctx function }
    requires few { length links.now ≤ 2000 }
    requires fits { LinksFit scratch.now goal.now function.claim links.now }
    ensures depth { result.depth ≡ spine_depth scratch.now (depth_of (named_at scratch.now.shapes function.subject)) links.now }
    ensures size { result.size ≡ spine_size scratch.now (size_of (named_at scratch.now.shapes function.subject)) links.now }
    ensures small { (result.depth ≤ 4000) × (result.size ≤ 4000000000) }
{
    let _ = goal;
    let first = scratch.measure(function.subject);
    let mut depth = u64::from(first.depth);
    let mut size = u64::from(first.size);
    let mut at = 0;
    'links: while at < links.len() {
        let link = link_at(links, at);
        let own = argument_measures(scratch, link.argument);
        depth = depth.max(own.depth) + 1;
        size += own.size + 1;
        at += 1;
    }
    Measures { depth, size }
}

// The depth and the size of the term of a step, whose goals are holes.
#[tactic(auto, using(pts_grow::proofs::Lifted::depth_named, pts_grow::proofs::Lifted::size_named, crate::proofs::Size::no_depth, crate::proofs::LinkLoops::hole_depth, crate::proofs::LinkLoops::hole_size))]
pub(crate) fn measures_of(scratch: &Record, goal: &Goal, step: &Step) -> Measures
    requires fits { Fits scratch.now goal.now step.now }
    ensures depth { result.depth ≡ depth_of (skeleton scratch.now step.now) }
    ensures size { result.size ≡ size_of (skeleton scratch.now step.now) }
    ensures small { (result.depth ≤ 4000) × (result.size ≤ 4000000000) }
{
    match step {
        Step::Intro { domain, .. } => {
            let domain = scratch.measure(domain.subject);
            Measures {
                depth: u64::from(domain.depth) + 1,
                size: u64::from(domain.size) + 2,
            }
        }
        Step::Exact { node } => {
            let term = scratch.measure(node.subject);
            Measures {
                depth: u64::from(term.depth),
                size: u64::from(term.size),
            }
        }
        Step::Cut { lemma, .. } => {
            let lemma = scratch.measure(lemma.subject);
            Measures {
                depth: u64::from(lemma.depth) + 2,
                size: u64::from(lemma.size) + 4,
            }
        }
        Step::Apply { function, links } => {
            links_measures(scratch, goal, *function, links.items())
        }
        Step::Change { .. } => Measures { depth: 1, size: 1 },
    }
}

// The depth and the size of the term after the last step.
pub(crate) fn measures_after(steps: &[FilledGoal]) -> Measures
    ensures depth { result.depth ≡ depth_after (last_step steps.now (length steps.now)) }
    ensures size { result.size ≡ size_after (last_step steps.now (length steps.now)) }
{
    let count = steps.len();
    if count == 0 {
        return Measures { depth: 1, size: 1 };
    }
    let last = &steps[count - 1];
    Measures {
        depth: last.depth,
        size: last.size,
    }
}

// The depth and the size of the term with a step in its first hole.
pub(crate) fn measures_with(
    scratch: &Record,
    steps: &[FilledGoal],
    goal: &Goal,
    step: &Step,
) -> Measures
    requires fits { Fits scratch.now goal.now step.now }
    requires depth { depth_after (last_step steps.now (length steps.now)) ≤ 2000 }
    requires size { size_after (last_step steps.now (length steps.now)) ≤ 1000000 }
    requires place { goal.now.place + 1 ≤ 2000 }
    ensures depth { result.depth ≡ max (depth_after (last_step steps.now (length steps.now))) (goal.now.place + depth_of (skeleton scratch.now step.now)) }
    ensures size { result.size + 1 ≡ size_after (last_step steps.now (length steps.now)) + size_of (skeleton scratch.now step.now) }
{
    let before = measures_after(steps);
    let own = measures_of(scratch, goal, step);
    Measures {
        depth: before.depth.max(goal.place + own.depth),
        size: before.size + own.size - 1,
    }
}
