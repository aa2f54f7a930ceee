// How large terms are.

ghost use Rattle.std.specs.Prelude.{◌≡◌, ◌-◌, ◌^◌, min};
ghost use Rattle.pts_terms.specs.Limits.{depth_of, size_of};
ghost use Rattle.pts_terms.specs.Seen.{named};

use crate::Term;

impl Term {
    /// The depth; that of a leaf is 1. It stops at the greatest number of its type.
    pub fn depth(&self) -> u64
        ensures { result ≡ min (depth_of (named self.now)) (2 ^ 64 - 1) }
    {
        match self {
            Term::Sort(_) | Term::Const(_) | Term::Var(_) => 1,
            Term::App(f, a) => f.get().depth().max(a.get().depth()).saturating_add(1),
            Term::Lam(_, t, b) | Term::Pi(_, t, b) => {
                t.get().depth().max(b.get().depth()).saturating_add(1)
            }
            Term::Let(_, d, t, b) => {
                let outside = d.get().depth().max(t.get().depth());
                outside.max(b.get().depth()).saturating_add(1)
            }
        }
    }

    /// The number of places of the term, as a tree. It stops at the greatest number of its type.
    pub fn size(&self) -> u64
        ensures { result ≡ min (size_of (named self.now)) (2 ^ 64 - 1) }
    {
        match self {
            Term::Sort(_) | Term::Const(_) | Term::Var(_) => 1,
            Term::App(f, a) => f
                .get()
                .size()
                .saturating_add(a.get().size())
                .saturating_add(1),
            Term::Lam(_, t, b) | Term::Pi(_, t, b) => {
                t.get()
                    .size()
                    .saturating_add(b.get().size())
                    .saturating_add(1)
            }
            Term::Let(_, d, t, b) => {
                let outside = d.get().size().saturating_add(t.get().size());
                outside.saturating_add(b.get().size()).saturating_add(1)
            }
        }
    }
}
