// The texts of replies that hold terms.

ghost use Rattle.std.specs.Prelude.{◌≡◌, IfOk};
ghost use Rattle.pts_terms.specs.Seen.{named};
ghost use Rattle.pts_ctx.specs.Entries.{global_of};
ghost use Rattle.pts_queries.specs.Replies.{judgement_line, typed_line, declared_line, shown_line};

use pts_ctx::{Entry, System};
use pts_names::{Name, Text};
use pts_printer::print_term;
use pts_terms::Term;
use std::alloc::{AllocError, Global};

/// `TERM : TYPE`, printed over the names of hypotheses, the outermost first.
pub(crate) fn judgement_line(
    alloc: Global,
    system: &System,
    names: &[Name],
    term: &Term,
    ty: &Term,
) -> Result<Text, AllocError>
    ensures { IfOk result (λ line. line ≡ judgement_line system.now.sorts names.now (named term.now) (named ty.now)) }
{
    let term = print_term(alloc, system, names, term)?;
    let ty = print_term(alloc, system, names, ty)?;
    Ok(Text::of(format!(in alloc; "{term} : {ty}")?))
}

/// `NAME : TYPE`, the type over the names of hypotheses.
pub(crate) fn typed_line(
    alloc: Global,
    system: &System,
    names: &[Name],
    name: &Name,
    ty: &Term,
) -> Result<Text, AllocError>
    ensures { IfOk result (λ line. line ≡ typed_line system.now.sorts names.now name.now (named ty.now)) }
{
    let ty = print_term(alloc, system, names, ty)?;
    Ok(Text::of(format!(in alloc; "{name} : {ty}")?))
}

/// `assumed NAME : TYPE` or `defined NAME : TYPE`, by the word.
pub fn declared_line(
    alloc: Global,
    system: &System,
    word: &str,
    entry: &Entry,
) -> Result<Text, AllocError>
    ensures { IfOk result (λ line. line ≡ declared_line system.now.sorts word.now (global_of entry.now)) }
{
    let name = &entry.name;
    let ty = print_term(alloc, system, &[], &entry.ty)?;
    Ok(Text::of(format!(in alloc; "{word} {name} : {ty}")?))
}

/// An entry: `NAME : TYPE`, or `NAME := BODY : TYPE` where it has a body.
pub fn shown_line(alloc: Global, system: &System, entry: &Entry) -> Result<Text, AllocError>
    ensures { IfOk result (λ line. line ≡ shown_line system.now.sorts (global_of entry.now)) }
{
    let name = &entry.name;
    match &entry.body {
        Some(body) => {
            let body = print_term(alloc, system, &[], body)?;
            let ty = print_term(alloc, system, &[], &entry.ty)?;
            Ok(Text::of(format!(in alloc; "{name} := {body} : {ty}")?))
        }
        None => typed_line(alloc, system, &[], name, &entry.ty),
    }
}
