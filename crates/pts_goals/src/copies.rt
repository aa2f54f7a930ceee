// Copies of goals and steps.

ghost use Rattle.std.specs.Prelude.{◌≡◌, ◌≤◌, vec_capacity, IfOk};

use crate::{FilledGoal, Goal, Link, Step};
use pts_names::{List, Name};
use std::alloc::{AllocError, Global};

// The same names, with room for so many.
pub(crate) fn copy_names(
    alloc: Global,
    names: &[Name],
    room: usize,
) -> Result<Vec<Name>, AllocError>
    ensures { IfOk result (λ v. v.items ≡ names.now) }
{
    let mut all = Vec::with_capacity(alloc, room)?;
    for name in names {
        all.push(name.copy()?)?;
    }
    Ok(all)
}

pub(crate) fn copy_goal(alloc: Global, goal: &Goal) -> Result<Goal, AllocError>
    ensures { IfOk result (λ g. g ≡ goal.now) }
{
    let names = copy_names(alloc, goal.names.items(), goal.names.items().len())?;
    Ok(Goal {
        names: List::of(names),
        ctx: goal.ctx,
        statement: goal.statement,
        sorted: goal.sorted,
        place: goal.place,
    })
}

fn copy_links(alloc: Global, links: &[Link]) -> Result<List<Link>, AllocError>
    ensures { IfOk result (λ l. l ≡ links.now) }
{
    Ok(List::of(links.iter().copied().collect(alloc)?))
}

fn copy_step(alloc: Global, step: &Step) -> Result<Step, AllocError>
    ensures { IfOk result (λ s. s ≡ step.now) }
{
    Ok(match step {
        Step::Intro {
            name,
            product,
            domain,
            inner,
            sorted,
            change,
        } => Step::Intro {
            name: name.copy()?,
            product: *product,
            domain: *domain,
            inner: *inner,
            sorted: *sorted,
            change: *change,
        },
        Step::Exact { node } => Step::Exact { node: *node },
        Step::Apply { function, links } => Step::Apply {
            function: *function,
            links: copy_links(alloc, links.items())?,
        },
        Step::Cut {
            name,
            lemma,
            product,
            inner,
            sorted,
        } => Step::Cut {
            name: name.copy()?,
            lemma: *lemma,
            product: *product,
            inner: *inner,
            sorted: *sorted,
        },
        Step::Change {
            statement,
            sorted,
            comparison,
        } => Step::Change {
            statement: *statement,
            sorted: *sorted,
            comparison: *comparison,
        },
    })
}

fn copy_filled(alloc: Global, filled: &FilledGoal) -> Result<FilledGoal, AllocError>
    ensures { IfOk result (λ f. f ≡ filled.now) }
{
    let goal = copy_goal(alloc, &filled.goal)?;
    let step = copy_step(alloc, &filled.step)?;
    Ok(FilledGoal {
        goal,
        step,
        depth: filled.depth,
        size: filled.size,
    })
}

pub(crate) fn copy_steps(alloc: Global, steps: &[FilledGoal]) -> Result<Vec<FilledGoal>, AllocError>
    ensures { IfOk result (λ copy. copy.items ≡ steps.now) }
{
    let mut copy = Vec::with_capacity(alloc, steps.len())?;
    for filled in steps {
        copy.push(copy_filled(alloc, filled)?)?;
    }
    Ok(copy)
}

// The same goals, with room for so many.
pub(crate) fn copy_goals(
    alloc: Global,
    goals: &[Goal],
    room: usize,
) -> Result<Vec<Goal>, AllocError>
    ensures items { IfOk result (λ copy. copy.items ≡ goals.now) }
    ensures room { IfOk result (λ copy. room ≤ vec_capacity copy) }
{
    let mut copy = Vec::with_capacity(alloc, room)?;
    for goal in goals {
        copy.push(copy_goal(alloc, goal)?)?;
    }
    Ok(copy)
}
