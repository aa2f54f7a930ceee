// Whether two terms are one, printed names and all.

ghost use Rattle.std.specs.Prelude.{◌≡◌, ◌↔◌, IsTrue};
ghost use Rattle.pts_terms.specs.Exact.{same_named};
ghost use Rattle.pts_terms.specs.Seen.{named};

use crate::Term;

impl Term {
    /// Whether both are equal, with their printed names.
    pub fn same(&self, other: &Term) -> bool
        ensures equal { IsTrue result ↔ (named self.now ≡ named other.now) }
        ensures test { result ≡ same_named (named self.now) (named other.now) }
    {
        are_same(self, other)
    }
}

fn are_same(one: &Term, other: &Term) -> bool
    ensures { result ≡ same_named (named one.now) (named other.now) }
{
    match (one, other) {
        (Term::Sort(s), Term::Sort(r)) => s.0 == r.0,
        (Term::Const(c), Term::Const(d)) => c.same(d),
        (Term::Var(i), Term::Var(j)) => *i == *j,
        (Term::App(f, a), Term::App(g, b)) => {
            are_same(f.get(), g.get()) && are_same(a.get(), b.get())
        }
        (Term::Lam(x, t, a), Term::Lam(y, u, b)) => {
            x.same(y) && are_same(t.get(), u.get()) && are_same(a.get(), b.get())
        }
        (Term::Pi(x, t, a), Term::Pi(y, u, b)) => {
            x.same(y) && are_same(t.get(), u.get()) && are_same(a.get(), b.get())
        }
        (Term::Let(x, d, t, a), Term::Let(y, e, u, b)) => {
            x.same(y)
                && are_same(d.get(), e.get())
                && are_same(t.get(), u.get())
                && are_same(a.get(), b.get())
        }
        _ => false,
    }
}
