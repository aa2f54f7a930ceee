// Comparisons of terms that build nothing.

ghost use Rattle.std.specs.Prelude.{◌≡◌, ◌<◌, ◌≤◌, ◌+◌, ◌^◌, length};
ghost use Rattle.pts_terms.specs.Tree.{bare, lift, lift_index, put, put_index, same_term, sort, const, var};
ghost use Rattle.pts_terms.specs.Limits.{depth_of};
ghost use Rattle.pts_terms.specs.Seen.{named};
ghost use Rattle.pts_record.specs.Table.{bare_at};

use crate::{Record, Shape};
use pts_ctx::{Name, Sort, Term};

impl Record {
    /// Whether two terms are equal, apart from printed names. A number is equal to itself without a walk.
    #[tactic(auto, using(crate::proofs::Compared::same_number))]
    pub fn equal(&self, left: usize, right: usize) -> bool
        requires left { left < length self.now.shapes }
        requires right { right < length self.now.shapes }
        ensures { result ≡ same_term (bare_at self.now.shapes left) (bare_at self.now.shapes right) }
    {
        if left == right {
            return true;
        }
        match (self.shape(left), self.shape(right)) {
            (Shape::Sort(s), Shape::Sort(r)) => s.0 == r.0,
            (Shape::Const(c), Shape::Const(d)) => c.same(d),
            (Shape::Var(i), Shape::Var(j)) => *i == *j,
            (Shape::App(f, a), Shape::App(g, b)) => self.equal(*f, *g) && self.equal(*a, *b),
            (Shape::Lam(_, t, a), Shape::Lam(_, u, b)) => {
                self.equal(*t, *u) && self.equal(*a, *b)
            }
            (Shape::Pi(_, t, a), Shape::Pi(_, u, b)) => self.equal(*t, *u) && self.equal(*a, *b),
            (Shape::Let(_, d, t, a), Shape::Let(_, e, u, b)) => {
                self.equal(*d, *e) && self.equal(*t, *u) && self.equal(*a, *b)
            }
            _ => false,
        }
    }

    /// Whether a term of the record is equal to a term of the program, apart from printed names.
    pub fn is_term(&self, number: usize, term: &Term) -> bool
        requires { number < length self.now.shapes }
        ensures { result ≡ same_term (bare_at self.now.shapes number) (bare (named term.now)) }
    {
        match (self.shape(number), term) {
            (Shape::Sort(s), Term::Sort(r)) => s.0 == r.0,
            (Shape::Const(c), Term::Const(d)) => c.same(d),
            (Shape::Var(i), Term::Var(j)) => *i == *j,
            (Shape::App(f, a), Term::App(g, b)) => {
                self.is_term(*f, g.get()) && self.is_term(*a, b.get())
            }
            (Shape::Lam(_, t, a), Term::Lam(_, u, b)) => {
                self.is_term(*t, u.get()) && self.is_term(*a, b.get())
            }
            (Shape::Pi(_, t, a), Term::Pi(_, u, b)) => {
                self.is_term(*t, u.get()) && self.is_term(*a, b.get())
            }
            (Shape::Let(_, d, t, a), Term::Let(_, e, u, b)) => {
                self.is_term(*d, e.get()) && self.is_term(*t, u.get()) && self.is_term(*a, b.get())
            }
            _ => false,
        }
    }

    /// Whether a term is the sort.
    pub fn is_sort(&self, number: usize, wanted: Sort) -> bool
        requires { number < length self.now.shapes }
        ensures { result ≡ same_term (bare_at self.now.shapes number) (sort wanted.0) }
    {
        match self.shape(number) {
            Shape::Sort(s) => s.0 == wanted.0,
            _ => false,
        }
    }

    // Whether a term is the constant.
    fn is_const(&self, number: usize, name: &Name) -> bool
        requires { number < length self.now.shapes }
        ensures { result ≡ same_term (bare_at self.now.shapes number) (const name.now) }
    {
        match self.shape(number) {
            Shape::Const(c) => c.same(name),
            _ => false,
        }
    }

    // Whether a term is the index.
    fn is_var(&self, number: usize, index: u64) -> bool
        requires { number < length self.now.shapes }
        ensures { result ≡ same_term (bare_at self.now.shapes number) (var index) }
    {
        match self.shape(number) {
            Shape::Var(i) => u64::from(*i) == index,
            _ => false,
        }
    }

    /// Whether `term` is `other` with each free index that is at least `from` raised by `by`. Where there is none, the
    /// two are compared without a walk along the binders.
    #[tactic(auto, using(crate::proofs::Compared::lift_nothing, crate::proofs::Compared::lift_beyond))]
    pub fn is_lift(&self, term: usize, from: u64, by: u64, other: usize) -> bool
        requires term { term < length self.now.shapes }
        requires other { other < length self.now.shapes }
        requires from { from + depth_of (bare_at self.now.shapes other) < 2 ^ 64 }
        requires by { by ≤ 4294967296 }
        ensures { result ≡ same_term (bare_at self.now.shapes term) (lift from by (bare_at self.now.shapes other)) }
    {
        if by == 0 {
            return self.equal(term, other);
        }
        if self.measure(other).free <= from {
            return self.equal(term, other);
        }
        match (self.shape(term), self.shape(other)) {
            (Shape::Sort(s), Shape::Sort(r)) => s.0 == r.0,
            (Shape::Const(c), Shape::Const(d)) => c.same(d),
            (Shape::Var(i), Shape::Var(j)) => u64::from(*i) == raised(u64::from(*j), from, by),
            (Shape::App(f, a), Shape::App(g, b)) => {
                self.is_lift(*f, from, by, *g) && self.is_lift(*a, from, by, *b)
            }
            (Shape::Lam(_, t, a), Shape::Lam(_, u, b)) => {
                self.is_lift(*t, from, by, *u) && self.is_lift(*a, from + 1, by, *b)
            }
            (Shape::Pi(_, t, a), Shape::Pi(_, u, b)) => {
                self.is_lift(*t, from, by, *u) && self.is_lift(*a, from + 1, by, *b)
            }
            (Shape::Let(_, d, t, a), Shape::Let(_, e, u, b)) => {
                self.is_lift(*d, from, by, *e)
                    && self.is_lift(*t, from, by, *u)
                    && self.is_lift(*a, from + 1, by, *b)
            }
            _ => false,
        }
    }

    /// Whether `term` is `body` with `argument`, lifted by the binders that were passed, for the index, and with
    /// greater indices lowered by one. Where the body has no such index, the two are compared as they are.
    #[tactic(auto, using(crate::proofs::Compared::put_beyond))]
    pub fn is_put(&self, term: usize, index: u64, passed: u64, argument: usize, body: usize) -> bool
        requires term { term < length self.now.shapes }
        requires argument { argument < length self.now.shapes }
        requires body { body < length self.now.shapes }
        requires index { index + depth_of (bare_at self.now.shapes body) < 2 ^ 63 }
        requires passed { passed + depth_of (bare_at self.now.shapes body) < 4294967296 }
        ensures { result ≡ same_term (bare_at self.now.shapes term) (put index passed (bare_at self.now.shapes argument) (bare_at self.now.shapes body)) }
    {
        if self.measure(body).free <= index {
            return self.equal(term, body);
        }
        match self.shape(body) {
            Shape::Sort(s) => self.is_sort(term, *s),
            Shape::Const(c) => self.is_const(term, c),
            Shape::Var(i) => self.is_put_index(term, index, passed, argument, u64::from(*i)),
            Shape::App(g, b) => match self.shape(term) {
                Shape::App(f, a) => {
                    self.is_put(*f, index, passed, argument, *g)
                        && self.is_put(*a, index, passed, argument, *b)
                }
                _ => false,
            },
            Shape::Lam(_, u, b) => match self.shape(term) {
                Shape::Lam(_, t, a) => {
                    self.is_put(*t, index, passed, argument, *u)
                        && self.is_put(*a, index + 1, passed + 1, argument, *b)
                }
                _ => false,
            },
            Shape::Pi(_, u, b) => match self.shape(term) {
                Shape::Pi(_, t, a) => {
                    self.is_put(*t, index, passed, argument, *u)
                        && self.is_put(*a, index + 1, passed + 1, argument, *b)
                }
                _ => false,
            },
            Shape::Let(_, e, u, b) => match self.shape(term) {
                Shape::Let(_, d, t, a) => {
                    self.is_put(*d, index, passed, argument, *e)
                        && self.is_put(*t, index, passed, argument, *u)
                        && self.is_put(*a, index + 1, passed + 1, argument, *b)
                }
                _ => false,
            },
        }
    }

    // The same for a body that is the index `at`.
    fn is_put_index(&self, term: usize, index: u64, passed: u64, argument: usize, at: u64) -> bool
        requires term { term < length self.now.shapes }
        requires argument { argument < length self.now.shapes }
        requires passed { passed ≤ 4294967296 }
        ensures { result ≡ same_term (bare_at self.now.shapes term) (put_index index passed (bare_at self.now.shapes argument) at) }
    {
        if at < index {
            return self.is_var(term, at);
        }
        if at == index {
            self.limits(argument);
            return self.is_lift(term, 0, passed, argument);
        }
        self.is_var(term, at - 1)
    }
}

// The index, raised by `by` if it is at least `from`.
fn raised(index: u64, from: u64, by: u64) -> u64
    requires index { index < 2 ^ 32 }
    requires by { by ≤ 4294967296 }
    ensures { result ≡ lift_index from by index }
{
    if index < from { index } else { index + by }
}
