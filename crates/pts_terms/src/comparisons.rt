// Comparisons of a term with the result of an operation, which is not built.

ghost use Rattle.std.specs.Prelude.{◌≡◌, ◌+◌, ◌<◌, ◌≤◌, ◌^◌};
ghost use Rattle.pts_terms.specs.Tree.{bare, lift, lift_index, put, put_index, subst, subst_const, same_term, var};
ghost use Rattle.pts_terms.specs.Limits.{IndicesBelow};
ghost use Rattle.pts_terms.specs.Seen.{named};

use crate::{Name, Term};

// No index is as large.
pub(crate) const INDICES: u64 = 0x1_0000_0000;

impl Term {
    /// Whether this is `other` with each free index that is at least `from` raised by `by`, apart from printed names.
    pub fn is_lift_of(&self, other: &Term, from: u32, by: u32) -> bool
        ensures { result ≡ same_term (bare (named self.now)) (lift from by (bare (named other.now))) }
    {
        self.is_raised(other, u64::from(from), u64::from(by))
    }

    /// Whether this is `body` with `argument`, lifted under binders, for the index, and with greater indices lowered by
    /// one, apart from printed names.
    pub fn is_subst_of(&self, body: &Term, index: u32, argument: &Term) -> bool
        ensures { result ≡ same_term (bare (named self.now)) (subst index (bare (named argument.now)) (bare (named body.now))) }
    {
        self.is_put(body, u64::from(index), 0, argument)
    }

    /// Whether this is `body` with `by` for the constant, apart from printed names.
    pub fn is_subst_const_of(&self, body: &Term, name: &Name, by: &Term) -> bool
        ensures { result ≡ same_term (bare (named self.now)) (subst_const name.now (bare (named by.now)) (bare (named body.now))) }
    {
        match (self, body) {
            (_, Term::Const(d)) => {
                if name.same(d) {
                    return self.alpha_eq(by);
                }
                match self {
                    Term::Const(c) => c.same(d),
                    _ => false,
                }
            }
            (Term::Sort(s), Term::Sort(r)) => s.0 == r.0,
            (Term::Var(i), Term::Var(j)) => *i == *j,
            (Term::App(f, a), Term::App(g, b)) => {
                f.get().is_subst_const_of(g.get(), name, by)
                    && a.get().is_subst_const_of(b.get(), name, by)
            }
            (Term::Lam(_, t, a), Term::Lam(_, u, b)) => {
                t.get().is_subst_const_of(u.get(), name, by)
                    && a.get().is_subst_const_of(b.get(), name, by)
            }
            (Term::Pi(_, t, a), Term::Pi(_, u, b)) => {
                t.get().is_subst_const_of(u.get(), name, by)
                    && a.get().is_subst_const_of(b.get(), name, by)
            }
            (Term::Let(_, d, t, a), Term::Let(_, e, u, b)) => {
                d.get().is_subst_const_of(e.get(), name, by)
                    && t.get().is_subst_const_of(u.get(), name, by)
                    && a.get().is_subst_const_of(b.get(), name, by)
            }
            _ => false,
        }
    }

    // The same as `is_lift_of`. After 2^32 binders nothing is raised.
    #[tactic(auto, using(crate::proofs::Indices::same_lift_beyond))]
    fn is_raised(&self, other: &Term, from: u64, by: u64) -> bool
        requires by { by < 4294967296 }
        ensures { result ≡ same_term (bare (named self.now)) (lift from by (bare (named other.now))) }
    {
        if from >= INDICES {
            other.indices();
            return self.alpha_eq(other);
        }
        match (self, other) {
            (Term::Sort(s), Term::Sort(r)) => s.0 == r.0,
            (Term::Const(c), Term::Const(d)) => c.same(d),
            (Term::Var(i), Term::Var(j)) => u64::from(*i) == raised(u64::from(*j), from, by),
            (Term::App(f, a), Term::App(g, b)) => {
                f.get().is_raised(g.get(), from, by) && a.get().is_raised(b.get(), from, by)
            }
            (Term::Lam(_, t, a), Term::Lam(_, u, b)) => {
                t.get().is_raised(u.get(), from, by) && a.get().is_raised(b.get(), from + 1, by)
            }
            (Term::Pi(_, t, a), Term::Pi(_, u, b)) => {
                t.get().is_raised(u.get(), from, by) && a.get().is_raised(b.get(), from + 1, by)
            }
            (Term::Let(_, d, t, a), Term::Let(_, e, u, b)) => {
                if !d.get().is_raised(e.get(), from, by) {
                    return false;
                }
                t.get().is_raised(u.get(), from, by) && a.get().is_raised(b.get(), from + 1, by)
            }
            _ => false,
        }
    }

    // The same as `is_subst_of`, after the binders that were passed. No index is replaced after 2^32 of them.
    #[tactic(auto, using(crate::proofs::Indices::same_put_beyond))]
    fn is_put(&self, body: &Term, index: u64, passed: u64, argument: &Term) -> bool
        requires { passed ≤ index }
        ensures { result ≡ same_term (bare (named self.now)) (put index passed (bare (named argument.now)) (bare (named body.now))) }
    {
        if index >= INDICES {
            body.indices();
            return self.alpha_eq(body);
        }
        match (self, body) {
            (_, Term::Var(i)) => self.is_put_index(u64::from(*i), index, passed, argument),
            (Term::Sort(s), Term::Sort(r)) => s.0 == r.0,
            (Term::Const(c), Term::Const(d)) => c.same(d),
            (Term::App(f, a), Term::App(g, b)) => {
                f.get().is_put(g.get(), index, passed, argument)
                    && a.get().is_put(b.get(), index, passed, argument)
            }
            (Term::Lam(_, t, a), Term::Lam(_, u, b)) => {
                t.get().is_put(u.get(), index, passed, argument)
                    && a.get().is_put(b.get(), index + 1, passed + 1, argument)
            }
            (Term::Pi(_, t, a), Term::Pi(_, u, b)) => {
                t.get().is_put(u.get(), index, passed, argument)
                    && a.get().is_put(b.get(), index + 1, passed + 1, argument)
            }
            (Term::Let(_, d, t, a), Term::Let(_, e, u, b)) => {
                if !d.get().is_put(e.get(), index, passed, argument) {
                    return false;
                }
                t.get().is_put(u.get(), index, passed, argument)
                    && a.get().is_put(b.get(), index + 1, passed + 1, argument)
            }
            _ => false,
        }
    }

    // The same for a body that is the index `at`.
    fn is_put_index(&self, at: u64, index: u64, passed: u64, argument: &Term) -> bool
        requires { passed < 4294967296 }
        ensures { result ≡ same_term (bare (named self.now)) (put_index index passed (bare (named argument.now)) at) }
    {
        if at < index {
            return self.is_var(at);
        }
        if at == index {
            return self.is_raised(argument, 0, passed);
        }
        self.is_var(at - 1)
    }

    fn is_var(&self, index: u64) -> bool
        ensures { result ≡ same_term (bare (named self.now)) (var index) }
    {
        match self {
            Term::Var(i) => u64::from(*i) == index,
            _ => false,
        }
    }

    // Each index is below 2^32. This is said, and nothing is done.
    pub(crate) fn indices(&self)
        ensures { IndicesBelow 4294967296 (named self.now) }
    {
        match self {
            Term::Sort(_) | Term::Const(_) => {}
            Term::Var(index) => {
                let _index = *index;
            }
            Term::App(f, a) => {
                f.get().indices();
                a.get().indices();
            }
            Term::Lam(_, t, b) | Term::Pi(_, t, b) => {
                t.get().indices();
                b.get().indices();
            }
            Term::Let(_, d, t, b) => {
                d.get().indices();
                t.get().indices();
                b.get().indices();
            }
        }
    }
}

// The index, raised by `by` if it is at least `from`.
fn raised(index: u64, from: u64, by: u64) -> u64
    requires index { index < 4294967296 }
    requires by { by < 4294967296 }
    ensures { result ≡ lift_index from by index }
{
    if index < from { index } else { index + by }
}
