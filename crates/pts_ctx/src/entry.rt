// Entries of a context.

ghost use Rattle.std.specs.Prelude.{◌≡◌, IfOk};
ghost use Rattle.pts_ctx.specs.Entries.{global_of};
ghost use Rattle.pts_ctx.specs.Prefix.{same_global};
ghost use Rattle.pts_ctx.specs.Seen.{global_within};
ghost use Rattle.pts_terms.specs.Limits.{within};
ghost use Rattle.pts_terms.specs.Seen.{named};

use pts_terms::{Name, Term};
use std::alloc::{AllocError, Global};

/// A definition where it has a body, else an assumption.
#[derive(Debug, Drop)]
pub struct Entry {
    pub name: Name,
    pub body: Option<Term>,
    pub ty: Term,
}

impl Entry {
    /// The same entry again, with its printed names.
    pub fn copy(&self, alloc: Global) -> Result<Entry, AllocError>
        ensures { IfOk result (λ e. global_of e ≡ global_of self.now) }
    {
        let body = match &self.body {
            Some(body) => Some(body.copy(alloc)?),
            None => None,
        };
        Ok(Entry {
            name: self.name.copy()?,
            body,
            ty: self.ty.copy(alloc)?,
        })
    }

    /// Whether both are equal, with their printed names.
    pub fn same(&self, other: &Entry) -> bool
        ensures { result ≡ same_global (global_of self.now) (global_of other.now) }
    {
        let same_body = match (&self.body, &other.body) {
            (Some(body), Some(other_body)) => body.same(other_body),
            (None, None) => true,
            _ => false,
        };
        self.name.same(&other.name) && same_body && self.ty.same(&other.ty)
    }

    /// Whether its terms are within limits: at most 2,000 deep, with at most 1,000,000 places.
    pub fn is_within(&self) -> bool
        ensures { result ≡ global_within (global_of self.now) }
    {
        let is_body_within = match &self.body {
            Some(body) => is_within(body),
            None => true,
        };
        is_body_within && is_within(&self.ty)
    }
}

fn is_within(term: &Term) -> bool
    ensures { result ≡ within (named term.now) }
{
    term.depth() <= 2000 && term.size() <= 1_000_000
}
