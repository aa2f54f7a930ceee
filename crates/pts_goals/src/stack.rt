// The goals that are open as a stack: a step takes the goal on top and leaves its own in that place.

ghost use Rattle.std.specs.Prelude.{◌≡◌, ◌<◌, ◌≤◌, ◌+◌, ◌-◌, ◌++◌, ◌∷◌, [], take, false, IfOk, OnOk, IfSome, IsTrue, ℕ, vec_len, vec_capacity, length};
ghost use Rattle.pts_goals.specs.Steps.{arity, argument_goals, goal_of, goal_beside, goal_under, goal_changed, link_goals, links_arity, subgoals};
ghost use Rattle.pts_goals.specs.OpenGoals.{last_step};
ghost use Rattle.pts_goals.specs.Parts.{links_in, IsFirst, IsPut, IsUndone};

use crate::copies::copy_names;
use crate::measures::Measures;
use crate::spines::{goal_count, link_at};
use crate::{Argument, FilledGoal, Goal, Link, Step};
use pts_grow::Judged;
use pts_names::{List, Name};
use std::alloc::{AllocError, Global};

// How many goals are among the arguments.
#[tactic(auto, using(crate::proofs::LinkLoops::counted))]
fn links_goal_count(links: &[Link]) -> usize
    ensures number { result ≡ links_arity links.now }
{
    let mut count = 0;
    let mut at = 0;
    'count: while at < links.len() {
        let link = link_at(links, at);
        count += goal_count(link.argument);
        at += 1;
    }
    count
}

// How many goals a step leaves.
pub(crate) fn subgoal_count(step: &Step) -> usize
    ensures { result ≡ arity step.now }
{
    match step {
        Step::Intro { .. } | Step::Change { .. } => 1,
        Step::Exact { .. } => 0,
        Step::Cut { .. } => 2,
        Step::Apply { links, .. } => links_goal_count(links.items()),
    }
}

// The goal for the subject of a judgement.
fn goal_of(names: Vec<Name>, ctx: usize, sorted: Judged, place: u64) -> Goal
    ensures { result ≡ goal_of names.items ctx sorted place }
{
    Goal {
        names: List::of(names),
        ctx,
        statement: sorted.subject,
        sorted,
        place,
    }
}

/// The goal of a theorem.
pub(crate) fn first_goal(alloc: Global, ctx: usize, sorted: Judged) -> Goal
    ensures { result ≡ goal_of [] ctx sorted 0 }
{
    goal_of(Vec::new(alloc), ctx, sorted, 0)
}

/// The goals of a new proof.
pub(crate) fn first_goals(
    alloc: Global,
    ctx: usize,
    sorted: Judged,
) -> Result<Vec<Goal>, AllocError>
    ensures items { IfOk result (λ v. v.items ≡ goal_of [] ctx sorted 0 ∷ []) }
    ensures room { IfOk result (λ v. vec_len v ≤ vec_capacity v) }
{
    let mut goals = Vec::with_capacity(alloc, 1)?;
    goals.push(first_goal(alloc, ctx, sorted))?;
    Ok(goals)
}

// Names, and another one after them.
fn more_names(alloc: Global, names: &[Name], name: &Name) -> Result<Vec<Name>, AllocError>
    ensures { IfOk result (λ v. v.items ≡ names.now ++ name.now ∷ []) }
{
    let mut all = copy_names(alloc, names, names.len().saturating_add(1))?;
    all.push(name.copy()?)?;
    Ok(all)
}

// Puts the goal that an argument is, if it is one, which has that place in the term.
fn push_argument(
    alloc: Global,
    goals: &mut Vec<Goal>,
    goal: &Goal,
    argument: Argument,
    place: u64,
) -> Result<(), AllocError>
    ensures { OnOk result ((n : ℕ) → place ≡ goal.now.place + (n + 1) → goals.new.items ≡ goals.old.items ++ argument_goals goal.now n argument) }
{
    match argument {
        Argument::Given(_) => Ok(()),
        Argument::Left(sorted) => {
            let names = copy_names(alloc, goal.names.items(), goal.names.items().len())?;
            goals.push(goal_of(names, goal.ctx, sorted, place))?;
            Ok(())
        }
    }
}

// The goals among the arguments of a function.
fn link_goals(alloc: Global, goal: &Goal, links: &[Link]) -> Result<Vec<Goal>, AllocError>
    requires place { goal.now.place + 1 ≤ 2000 }
    requires few { length links.now ≤ 2000 }
    ensures items { IfOk result (λ v. v.items ≡ link_goals goal.now links.now) }
{
    let mut goals = Vec::new(alloc);
    let mut at = links.len();
    let mut place = goal.place;
    'open: while at > 0 {
        at -= 1;
        place += 1;
        let link = link_at(links, at);
        push_argument(alloc, &mut goals, goal, link.argument, place)?;
    }
    Ok(goals)
}

// The goals of a lemma and of what is proved with it.
fn cut_goals(
    alloc: Global,
    goal: &Goal,
    name: &Name,
    lemma: Judged,
    inner: usize,
    sorted: Judged,
) -> Result<Vec<Goal>, AllocError>
    requires place { goal.now.place + 1 ≤ 2000 }
    ensures items { IfOk result (λ v. v.items ≡ goal_under goal.now name.now inner sorted 2 ∷ goal_beside goal.now lemma 1 ∷ []) }
{
    let longer = more_names(alloc, goal.names.items(), name)?;
    let names = copy_names(alloc, goal.names.items(), goal.names.items().len())?;
    let mut goals = Vec::with_capacity(alloc, 2)?;
    goals.push(goal_of(longer, inner, sorted, goal.place + 2))?;
    goals.push(goal_of(names, goal.ctx, lemma, goal.place + 1))?;
    Ok(goals)
}

// The one goal of an abstraction.
fn intro_goals(
    alloc: Global,
    goal: &Goal,
    name: &Name,
    inner: usize,
    sorted: Judged,
) -> Result<Vec<Goal>, AllocError>
    requires place { goal.now.place + 1 ≤ 2000 }
    ensures items { IfOk result (λ v. v.items ≡ goal_under goal.now name.now inner sorted 1 ∷ []) }
{
    let names = more_names(alloc, goal.names.items(), name)?;
    let mut goals = Vec::with_capacity(alloc, 1)?;
    goals.push(goal_of(names, inner, sorted, goal.place + 1))?;
    Ok(goals)
}

// The one goal of another statement.
fn change_goals(
    alloc: Global,
    goal: &Goal,
    statement: usize,
    sorted: Judged,
) -> Result<Vec<Goal>, AllocError>
    ensures items { IfOk result (λ v. v.items ≡ goal_changed goal.now statement sorted ∷ []) }
{
    let names = copy_names(alloc, goal.names.items(), goal.names.items().len())?;
    let mut goals = Vec::with_capacity(alloc, 1)?;
    goals.push(Goal {
        names: List::of(names),
        ctx: goal.ctx,
        statement,
        sorted,
        place: goal.place,
    })?;
    Ok(goals)
}

/// The goals that a step leaves in place of its goal, the one that comes first last.
pub(crate) fn subgoals(alloc: Global, goal: &Goal, step: &Step) -> Result<Vec<Goal>, AllocError>
    requires place { goal.now.place + 1 ≤ 2000 }
    requires few { length (links_in step.now) ≤ 2000 }
    ensures items { IfOk result (λ v. v.items ≡ subgoals goal.now step.now) }
{
    match step {
        Step::Intro {
            name,
            inner,
            sorted,
            ..
        } => intro_goals(alloc, goal, name, *inner, *sorted),
        Step::Exact { .. } => Ok(Vec::new(alloc)),
        Step::Apply { links, .. } => link_goals(alloc, goal, links.items()),
        Step::Cut {
            name,
            lemma,
            inner,
            sorted,
            ..
        } => cut_goals(alloc, goal, name, *lemma, *inner, *sorted),
        Step::Change {
            statement,
            sorted,
            ..
        } => change_goals(alloc, goal, *statement, *sorted),
    }
}

/// Takes the goal on top, and puts others in its place. There is room for them.
fn replace_first(goals: &mut Vec<Goal>, others: Vec<Goal>) -> Goal
    requires goal { 0 < length goals.old.items }
    requires room { vec_len goals.old + vec_len others ≤ vec_capacity goals.old }
    ensures first { IsFirst goals.old.items result }
    ensures goals { goals.new.items ≡ take (length goals.old.items - 1) goals.old.items ++ others.items }
    ensures len { vec_len goals.new + 1 ≡ vec_len goals.old + vec_len others }
    ensures capacity { vec_capacity goals.old ≤ vec_capacity goals.new }
{
    let Some(first) = goals.pop() else {
        unreachable!()
    };
    let mut others = others;
    let Ok(()) = goals.append(&mut others) else {
        unreachable!()
    };
    first
}

/// Puts a step into the goal that comes first. There is room for all.
pub(crate) fn put(
    steps: &mut Vec<FilledGoal>,
    goals: &mut Vec<Goal>,
    step: Step,
    others: Vec<Goal>,
    measures: Measures,
)
    requires goal { 0 < length goals.old.items }
    requires room { vec_len goals.old + vec_len steps.old + vec_len others + 1 ≤ vec_capacity goals.old }
    requires step_room { vec_len steps.old < vec_capacity steps.old }
    ensures goals { goals.new.items ≡ take (length goals.old.items - 1) goals.old.items ++ others.items }
    ensures steps { IsPut goals.old.items step measures.depth measures.size steps.old.items steps.new.items }
    ensures room { vec_len goals.new + vec_len steps.new ≤ vec_capacity goals.new }
{
    let goal = replace_first(goals, others);
    steps.push_reserved(FilledGoal {
        goal,
        step,
        depth: measures.depth,
        size: measures.size,
    });
}

/// Takes the last step out again, if there is one, and puts its goal in the place of those that it left.
pub(crate) fn take_back(steps: &mut Vec<FilledGoal>, goals: &mut Vec<Goal>) -> bool
    requires room { vec_len goals.old + vec_len steps.old ≤ vec_capacity goals.old }
    requires goals { IfSome (last_step steps.old.items (length steps.old.items)) (λ f. arity f.step ≤ length goals.old.items) }
    ensures none { result ≡ false → (steps.old.items ≡ []) × (steps.new.items ≡ steps.old.items) × (goals.new.items ≡ goals.old.items) }
    ensures undone { IsTrue result → IsUndone steps.old.items goals.old.items steps.new.items goals.new.items }
    ensures room { vec_len goals.new + vec_len steps.new ≤ vec_capacity goals.new }
{
    let Some(filled) = steps.pop() else {
        return false;
    };
    let from = goals.len() - subgoal_count(&filled.step);
    goals.truncate(from);
    goals.push_reserved(filled.goal);
    true
}
