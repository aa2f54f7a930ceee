ghost use Rattle.std.specs.Prelude.{◌≡◌, ◌∷◌, OnOk, reverse};
ghost use Rattle.pts_ctx.specs.System.{sort_of};
ghost use Rattle.pts_grammar.specs.Seen.{syntax_of};
ghost use Rattle.pts_parser.specs.Resolution.{resolved, name_at, sort_at, binder_of, Answers};

use crate::binders::Binders;
use crate::fault::ReadFault;
use crate::part::{applied, lam, local, pi};
use crate::scope::Scope;
use pts_ctx::System;
use pts_grammar::Tree;
use pts_names::{Name, SortName};
use pts_terms::Term;
use sqlite_items::Boxed;
use std::alloc::{AllocError, Global};

/// The term that the tree says. A plain name, which is one of one part other than `_`, is the innermost binder of that
/// name, if there is one; the locals are binders around the tree, of which the outermost is the first. Any other name is
/// what the scope has for it.
///
/// # Errors
///
/// Names and sorts are looked up from left to right, and the first that is not found is answered: `UnknownName`,
/// `UnknownSort`.
pub fn resolve<S: Scope>(
    alloc: Global,
    tree: &Tree,
    system: &System,
    locals: &[Name],
    scope: &S,
) -> Result<Term, ReadFault>
    ensures { Answers result (resolved system.now.sorts (S.constants scope.now) (reverse locals.now) (syntax_of tree.now)) }
{
    let mut binders = Binders::of(alloc, locals)?;
    term_at(alloc, tree, system, &mut binders, scope)
}

/// The term of a tree among these binders, which are there again after it.
#[cycle(term_at)]
fn term_at<S: Scope>(
    alloc: Global,
    tree: &Tree,
    system: &System,
    binders: &mut Binders,
    scope: &S,
) -> Result<Term, ReadFault>
    ensures term { Answers result (resolved system.now.sorts (S.constants scope.now) binders.old (syntax_of tree.now)) }
    ensures binders { OnOk result (binders.new ≡ binders.old) }
{
    match tree {
        Tree::Sort(place, spelling) => sort_at(*place, spelling, system),
        Tree::Named(place, name) => name_at(alloc, *place, name, binders, scope),
        Tree::App(f, a) => {
            let function = term_at(alloc, f.get(), system, binders, scope)?;
            let argument = term_at(alloc, a.get(), system, binders, scope)?;
            Ok(applied(alloc, function, argument)?)
        }
        Tree::Lam(x, t, b) => {
            let domain = term_at(alloc, t.get(), system, binders, scope)?;
            let body = body_at(alloc, x, b, system, binders, scope)?;
            Ok(lam(alloc, x, domain, body)?)
        }
        Tree::Pi(x, t, b) => {
            let domain = term_at(alloc, t.get(), system, binders, scope)?;
            let body = body_at(alloc, x, b, system, binders, scope)?;
            Ok(pi(alloc, x, domain, body)?)
        }
        Tree::Let(x, d, t, b) => {
            let definition = term_at(alloc, d.get(), system, binders, scope)?;
            let ty = term_at(alloc, t.get(), system, binders, scope)?;
            let body = body_at(alloc, x, b, system, binders, scope)?;
            Ok(local(alloc, x, definition, ty, body)?)
        }
    }
}

/// The term of a body, in which one more name is bound.
#[cycle(term_at)]
fn body_at<S: Scope>(
    alloc: Global,
    name: &Name,
    body: &Boxed<Tree>,
    system: &System,
    binders: &mut Binders,
    scope: &S,
) -> Result<Term, ReadFault>
    ensures term { Answers result (resolved system.now.sorts (S.constants scope.now) (name.now ∷ binders.old) (syntax_of body.now)) }
    ensures binders { OnOk result (binders.new ≡ binders.old) }
{
    binders.push(name.copy()?)?;
    let term = term_at(alloc, body.get(), system, binders, scope)?;
    binders.pop();
    Ok(term)
}

/// The sort of a spelling.
fn sort_at(place: usize, spelling: &SortName, system: &System) -> Result<Term, ReadFault>
    ensures { Answers result (sort_at (sort_of system.now.sorts spelling.now) place spelling.now) }
{
    match system.sort(spelling) {
        Some(sort) => Ok(Term::Sort(sort)),
        None => Err(ReadFault::UnknownSort(place, spelling.copy()?)),
    }
}

/// What a name stands for. There is no memory for 2^32 binders.
fn name_at<S: Scope>(
    alloc: Global,
    place: usize,
    name: &Name,
    binders: &Binders,
    scope: &S,
) -> Result<Term, ReadFault>
    ensures { Answers result (name_at (binder_of name.now binders.now) (S.constants scope.now name.now) place name.now) }
{
    if let Some(index) = binders.index_of(name) {
        return match u32::try_from(index) {
            Ok(index) => Ok(Term::Var(index)),
            Err(_) => Err(ReadFault::Memory),
        };
    }
    match scope.constant(alloc, name)? {
        Some(constant) => Ok(Term::Const(constant)),
        None => Err(ReadFault::UnknownName(place, name.copy()?)),
    }
}
