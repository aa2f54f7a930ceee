// How large the result of a substitution is, before it is built.

ghost use Rattle.std.specs.Prelude.{◌≡◌, ◌<◌, ◌≤◌, ◌-◌, ◌^◌, suc, min};
ghost use Rattle.pts_terms.specs.Tree.{put, put_index, subst_const};
ghost use Rattle.pts_terms.specs.Limits.{depth_of, size_of};
ghost use Rattle.pts_terms.specs.Seen.{named};

use crate::comparisons::INDICES;
use crate::{Name, Term};
use sqlite_items::Boxed;

impl Term {
    // The depth of the term with `argument`, which has the depth `depth`, for the index.
    #[cycle(depth_put)]
    #[tactic(auto, using(crate::proofs::Indices::depth_put_beyond))]
    pub(crate) fn depth_put(&self, index: u64, passed: u64, argument: &Term, depth: u64) -> u64
        requires passed { passed ≤ index }
        requires depth { depth ≡ min (depth_of (named argument.now)) (2 ^ 64 - 1) }
        ensures { result ≡ min (depth_of (put index passed (named argument.now) (named self.now))) (2 ^ 64 - 1) }
    {
        if index >= INDICES {
            self.indices();
            return self.depth();
        }
        match self {
            Term::Sort(_) | Term::Const(_) => 1,
            Term::Var(i) => depth_put_index(u64::from(*i), index, passed, argument, depth),
            Term::App(f, a) => {
                let f = f.get().depth_put(index, passed, argument, depth);
                let a = a.get().depth_put(index, passed, argument, depth);
                f.max(a).saturating_add(1)
            }
            Term::Lam(_, t, b) | Term::Pi(_, t, b) => {
                let t = t.get().depth_put(index, passed, argument, depth);
                let b = depth_put_body(b, index, passed, argument, depth);
                t.max(b).saturating_add(1)
            }
            Term::Let(_, d, t, b) => {
                let d = d.get().depth_put(index, passed, argument, depth);
                let t = t.get().depth_put(index, passed, argument, depth);
                let b = depth_put_body(b, index, passed, argument, depth);
                d.max(t).max(b).saturating_add(1)
            }
        }
    }

    // The size of the term with `argument`, which has the size `size`, for the index.
    #[cycle(size_put)]
    #[tactic(auto, using(crate::proofs::Indices::size_put_beyond))]
    pub(crate) fn size_put(&self, index: u64, passed: u64, argument: &Term, size: u64) -> u64
        requires passed { passed ≤ index }
        requires size { size ≡ min (size_of (named argument.now)) (2 ^ 64 - 1) }
        ensures { result ≡ min (size_of (put index passed (named argument.now) (named self.now))) (2 ^ 64 - 1) }
    {
        if index >= INDICES {
            self.indices();
            return self.size();
        }
        match self {
            Term::Sort(_) | Term::Const(_) => 1,
            Term::Var(i) => size_put_index(u64::from(*i), index, passed, argument, size),
            Term::App(f, a) => {
                let f = f.get().size_put(index, passed, argument, size);
                let a = a.get().size_put(index, passed, argument, size);
                f.saturating_add(a).saturating_add(1)
            }
            Term::Lam(_, t, b) | Term::Pi(_, t, b) => {
                let t = t.get().size_put(index, passed, argument, size);
                let b = size_put_body(b, index, passed, argument, size);
                t.saturating_add(b).saturating_add(1)
            }
            Term::Let(_, d, t, b) => {
                let d = d.get().size_put(index, passed, argument, size);
                let t = t.get().size_put(index, passed, argument, size);
                let b = size_put_body(b, index, passed, argument, size);
                d.saturating_add(t).saturating_add(b).saturating_add(1)
            }
        }
    }

    // The depth of the term with `by`, which has the depth `depth`, for the constant.
    pub(crate) fn depth_with(&self, name: &Name, by: &Term, depth: u64) -> u64
        requires { depth ≡ min (depth_of (named by.now)) (2 ^ 64 - 1) }
        ensures { result ≡ min (depth_of (subst_const name.now (named by.now) (named self.now))) (2 ^ 64 - 1) }
    {
        match self {
            Term::Sort(_) | Term::Var(_) => 1,
            Term::Const(c) => {
                if name.same(c) {
                    return depth;
                }
                1
            }
            Term::App(f, a) => {
                let f = f.get().depth_with(name, by, depth);
                f.max(a.get().depth_with(name, by, depth)).saturating_add(1)
            }
            Term::Lam(_, t, b) | Term::Pi(_, t, b) => {
                let t = t.get().depth_with(name, by, depth);
                t.max(b.get().depth_with(name, by, depth)).saturating_add(1)
            }
            Term::Let(_, d, t, b) => {
                let d = d.get().depth_with(name, by, depth);
                let t = t.get().depth_with(name, by, depth);
                d.max(t)
                    .max(b.get().depth_with(name, by, depth))
                    .saturating_add(1)
            }
        }
    }

    // The size of the term with `by`, which has the size `size`, for the constant.
    pub(crate) fn size_with(&self, name: &Name, by: &Term, size: u64) -> u64
        requires { size ≡ min (size_of (named by.now)) (2 ^ 64 - 1) }
        ensures { result ≡ min (size_of (subst_const name.now (named by.now) (named self.now))) (2 ^ 64 - 1) }
    {
        match self {
            Term::Sort(_) | Term::Var(_) => 1,
            Term::Const(c) => {
                if name.same(c) {
                    return size;
                }
                1
            }
            Term::App(f, a) => {
                let f = f.get().size_with(name, by, size);
                f.saturating_add(a.get().size_with(name, by, size))
                    .saturating_add(1)
            }
            Term::Lam(_, t, b) | Term::Pi(_, t, b) => {
                let t = t.get().size_with(name, by, size);
                t.saturating_add(b.get().size_with(name, by, size))
                    .saturating_add(1)
            }
            Term::Let(_, d, t, b) => {
                let d = d.get().size_with(name, by, size);
                let t = t.get().size_with(name, by, size);
                let b = b.get().size_with(name, by, size);
                d.saturating_add(t).saturating_add(b).saturating_add(1)
            }
        }
    }
}

// After one more binder.
#[cycle(depth_put)]
fn depth_put_body(body: &Boxed<Term>, index: u64, passed: u64, argument: &Term, depth: u64) -> u64
    requires index { index < 4294967296 }
    requires passed { passed ≤ index }
    requires depth { depth ≡ min (depth_of (named argument.now)) (2 ^ 64 - 1) }
    ensures { result ≡ min (depth_of (put (suc index) (suc passed) (named argument.now) (named body.now))) (2 ^ 64 - 1) }
{
    body.get().depth_put(index + 1, passed + 1, argument, depth)
}

#[cycle(size_put)]
fn size_put_body(body: &Boxed<Term>, index: u64, passed: u64, argument: &Term, size: u64) -> u64
    requires index { index < 4294967296 }
    requires passed { passed ≤ index }
    requires size { size ≡ min (size_of (named argument.now)) (2 ^ 64 - 1) }
    ensures { result ≡ min (size_of (put (suc index) (suc passed) (named argument.now) (named body.now))) (2 ^ 64 - 1) }
{
    body.get().size_put(index + 1, passed + 1, argument, size)
}

// The depth of what stands for the index `at`.
#[tactic(auto, using(crate::proofs::Indices::lift_depth))]
fn depth_put_index(at: u64, index: u64, passed: u64, argument: &Term, depth: u64) -> u64
    requires depth { depth ≡ min (depth_of (named argument.now)) (2 ^ 64 - 1) }
    ensures { result ≡ min (depth_of (put_index index passed (named argument.now) at)) (2 ^ 64 - 1) }
{
    if at == index { depth } else { 1 }
}

#[tactic(auto, using(crate::proofs::Indices::lift_size))]
fn size_put_index(at: u64, index: u64, passed: u64, argument: &Term, size: u64) -> u64
    requires size { size ≡ min (size_of (named argument.now)) (2 ^ 64 - 1) }
    ensures { result ≡ min (size_of (put_index index passed (named argument.now) at)) (2 ^ 64 - 1) }
{
    if at == index { size } else { 1 }
}
