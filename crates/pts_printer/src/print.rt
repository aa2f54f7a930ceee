ghost use Rattle.std.specs.Prelude.{◌≡◌, IfOk, length, map, string_bytes};
ghost use Rattle.pts_terms.specs.Seen.{named};
ghost use Rattle.pts_printed.specs.Locals.{printed, printed_goal};

use crate::goal::{hypotheses_at, turnstile};
use crate::locals::{chosen_locals, goal_names};
use crate::outer::Outer;
use crate::page::Page;
use crate::writing::write_term;
use pts_ctx::System;
use pts_names::Name;
use pts_terms::Term;
use std::alloc::{AllocError, Global};

/// The text of a term over these locals, of which the outermost is the first.
///
/// The printed names of the locals are chosen first, and then those of the binders. A sort that the system has not got,
/// and an index of no local, are printed as nothing. The only error is that memory runs out.
///
/// The cost is that of the text, of going through the term once, and for each binder that is written with its name that of
/// going through its body, and of the names around it where its name needs a number. Calls nest as deep as the term.
#[tactic(auto, unfolding(pts_printed::specs::Locals::printed))]
pub fn print_term(
    alloc: Global,
    system: &System,
    locals: &[Name],
    term: &Term,
) -> Result<String, AllocError>
    ensures text { IfOk result (λ text. string_bytes text ≡ printed system.now.sorts locals.now (named term.now)) }
{
    let mut outer = chosen_locals(alloc, locals, term)?;
    let mut page = Page::new(alloc);
    write_term(alloc, system, &mut page, &mut outer, term)?;
    Ok(page.into_text())
}

/// The text of a goal: its hypotheses by these names, with their types, and its statement. The outermost is the first, and
/// a type comes after the hypotheses before it.
///
/// The printed names of the hypotheses are chosen first, and then those of the binders. A sort that the system has not
/// got, and an index of no hypothesis, are printed as nothing. The only error is that memory runs out.
#[tactic(auto, using(crate::proofs::Joined::goal_joined), unfolding(pts_printed::specs::Locals::printed_goal))]
pub fn print_goal(
    alloc: Global,
    system: &System,
    names: &[Name],
    types: &[Term],
    statement: &Term,
) -> Result<String, AllocError>
    requires count { length names.now ≡ length types.now }
    ensures text { IfOk result (λ text. string_bytes text ≡ printed_goal system.now.sorts names.now (map named types.now) (named statement.now)) }
{
    let chosen = goal_names(alloc, names, types, statement)?;
    let mut outer = Outer::new(alloc);
    let mut page = Page::new(alloc);
    hypotheses_at(alloc, system, &mut page, &mut outer, &chosen, types)?;
    page.write(turnstile(types))?;
    write_term(alloc, system, &mut page, &mut outer, statement)?;
    Ok(page.into_text())
}
