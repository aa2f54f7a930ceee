ghost use Rattle.std.specs.Prelude.{◌≡◌, IfOk, ◌+◌, ◌<◌, ◌^◌, min};
ghost use Rattle.pts_terms.specs.Tree.{bare, lift, same_term};
ghost use Rattle.pts_terms.specs.Limits.{depth_of};
ghost use Rattle.pts_terms.specs.Seen.{named};

use crate::Name;
use sqlite_items::Boxed;
use std::alloc::{AllocError, Global};

/// A sort, by its place in its system's list of sorts.
#[derive(Clone, Copy, Debug, PartialEq, Eq)]
pub struct Sort(pub u8);

/// A term. `Var(0)` is the innermost binder; the parts of `Let` are the definition, its type and the body.
#[derive(Debug, Drop)]
pub enum Term {
    Sort(Sort),
    Const(Name),
    Var(u32),
    App(Boxed<Term>, Boxed<Term>),
    Lam(Name, Boxed<Term>, Boxed<Term>),
    Pi(Name, Boxed<Term>, Boxed<Term>),
    Let(Name, Boxed<Term>, Boxed<Term>, Boxed<Term>),
}

impl Term {
    /// The same term, with its printed names.
    #[cycle(copy)]
    pub fn copy(&self, alloc: Global) -> Result<Term, AllocError>
        ensures { IfOk result (λ t. t ≡ self.now) }
    {
        Ok(match self {
            Term::Sort(s) => Term::Sort(*s),
            Term::Const(c) => Term::Const(c.copy()?),
            Term::Var(i) => Term::Var(*i),
            Term::App(f, a) => Term::App(copy_part(alloc, f)?, copy_part(alloc, a)?),
            Term::Lam(x, t, b) => {
                Term::Lam(x.copy()?, copy_part(alloc, t)?, copy_part(alloc, b)?)
            }
            Term::Pi(x, t, b) => { Term::Pi(x.copy()?, copy_part(alloc, t)?, copy_part(alloc, b)?) }
            Term::Let(x, d, t, b) => Term::Let(
                x.copy()?,
                copy_part(alloc, d)?,
                copy_part(alloc, t)?,
                copy_part(alloc, b)?,
            ),
        })
    }

    /// Whether both are equal, apart from printed names.
    pub fn alpha_eq(&self, other: &Term) -> bool
        ensures { result ≡ same_term (bare (named self.now)) (bare (named other.now)) }
    {
        match (self, other) {
            (Term::Sort(s), Term::Sort(r)) => s.0 == r.0,
            (Term::Const(c), Term::Const(d)) => c.same(d),
            (Term::Var(i), Term::Var(j)) => *i == *j,
            (Term::App(f, a), Term::App(g, b)) => {
                f.get().alpha_eq(g.get()) && a.get().alpha_eq(b.get())
            }
            (Term::Lam(_, t, a), Term::Lam(_, u, b)) => {
                t.get().alpha_eq(u.get()) && a.get().alpha_eq(b.get())
            }
            (Term::Pi(_, t, a), Term::Pi(_, u, b)) => {
                t.get().alpha_eq(u.get()) && a.get().alpha_eq(b.get())
            }
            (Term::Let(_, d, t, a), Term::Let(_, e, u, b)) => {
                d.get().alpha_eq(e.get()) && t.get().alpha_eq(u.get()) && a.get().alpha_eq(b.get())
            }
            _ => false,
        }
    }
}

#[cycle(copy)]
fn copy_part(alloc: Global, part: &Boxed<Term>) -> Result<Boxed<Term>, AllocError>
    ensures { IfOk result (λ t. t ≡ part.now) }
{
    let copy = part.get().copy(alloc)?;
    Ok(Boxed::new(alloc, copy)?)
}
