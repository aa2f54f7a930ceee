ghost use Rattle.std.specs.Prelude.{◌≡◌, IfOk};
ghost use Rattle.pts_terms.specs.Tree.{app, named_lam, named_pi, named_let};
ghost use Rattle.pts_terms.specs.Seen.{named};

use pts_names::Name;
use pts_terms::{Boxed, Term};
use std::alloc::{AllocError, Global};

/// A function applied to an argument.
pub(crate) fn applied(alloc: Global, function: Term, argument: Term) -> Result<Term, AllocError>
    ensures { IfOk result (λ t. named t ≡ app (named function) (named argument)) }
{
    Ok(Term::App(Boxed::new(alloc, function)?, Boxed::new(alloc, argument)?))
}

/// An abstraction.
pub(crate) fn lam(alloc: Global, name: &Name, domain: Term, body: Term) -> Result<Term, AllocError>
    ensures { IfOk result (λ t. named t ≡ named_lam name.now (named domain) (named body)) }
{
    let name = name.copy()?;
    Ok(Term::Lam(name, Boxed::new(alloc, domain)?, Boxed::new(alloc, body)?))
}

/// A product.
pub(crate) fn pi(alloc: Global, name: &Name, domain: Term, body: Term) -> Result<Term, AllocError>
    ensures { IfOk result (λ t. named t ≡ named_pi name.now (named domain) (named body)) }
{
    let name = name.copy()?;
    Ok(Term::Pi(name, Boxed::new(alloc, domain)?, Boxed::new(alloc, body)?))
}

/// A local definition: the name, the definition, its type, and the body.
pub(crate) fn local(
    alloc: Global,
    name: &Name,
    definition: Term,
    ty: Term,
    body: Term,
) -> Result<Term, AllocError>
    ensures { IfOk result (λ t. named t ≡ named_let name.now (named definition) (named ty) (named body)) }
{
    let name = name.copy()?;
    Ok(Term::Let(
        name,
        Boxed::new(alloc, definition)?,
        Boxed::new(alloc, ty)?,
        Boxed::new(alloc, body)?,
    ))
}
