// Lifting and the two substitutions.

ghost use Rattle.std.specs.Prelude.{◌≡◌, suc, ◌<◌, ◌≤◌, ◌-◌, ◌^◌, min, IfOk, IfErr, OnOk, true, false};
ghost use Rattle.pts_terms.specs.Tree.{lift, put, put_index, subst, subst_const, Below};
ghost use Rattle.pts_terms.specs.Limits.{depth_of, size_of, within, IndicesBelow};
ghost use Rattle.pts_terms.specs.Seen.{named};
ghost use Rattle.pts_terms.specs.declared.operations.Big.TheVariants.{Deep, Memory};

use crate::comparisons::INDICES;
use crate::{Name, Term};
use sqlite_items::Boxed;
use std::alloc::{AllocError, Global};

/// Why a substitution has no result.
#[derive(Debug, Drop)]
pub enum Big {
    /// The result is not within limits.
    Deep,
    /// There is no memory.
    Memory,
}

impl From<AllocError> for Big {
    ghost from_gives = { λ _ e. e ≡ Memory };

    fn from(_: AllocError) -> Self {
        Big::Memory
    }
}

impl Term {
    /// The term with each free index that is at least `from` raised by `by` (de Bruijn 1972). No index of the result may
    /// pass the end of its type.
    pub fn lift(&self, alloc: Global, from: u32, by: u32) -> Result<Term, AllocError>
        requires fits { IndicesBelow 4294967296 (lift from by (named self.now)) }
        ensures { IfOk result (λ t. named t ≡ lift from by (named self.now)) }
    {
        self.raised(alloc, u64::from(from), by)
    }

    // The same. After 2^32 binders nothing is raised.
    #[cycle(raised)]
    #[tactic(auto, using(crate::proofs::Indices::lift_beyond))]
    fn raised(&self, alloc: Global, from: u64, by: u32) -> Result<Term, AllocError>
        requires fits { IndicesBelow 4294967296 (lift from by (named self.now)) }
        ensures { IfOk result (λ t. named t ≡ lift from by (named self.now)) }
    {
        if from >= INDICES {
            return self.copy(alloc);
        }
        match self {
            Term::Sort(s) => Ok(Term::Sort(*s)),
            Term::Const(c) => Ok(Term::Const(c.copy()?)),
            Term::Var(i) => {
                if u64::from(*i) < from {
                    return Ok(Term::Var(*i));
                }
                Ok(Term::Var(*i + by))
            }
            Term::App(f, a) => Ok(Term::App(
                raised_part(alloc, f, from, by)?,
                raised_part(alloc, a, from, by)?,
            )),
            Term::Lam(x, t, b) => Ok(Term::Lam(
                x.copy()?,
                raised_part(alloc, t, from, by)?,
                raised_body(alloc, b, from, by)?,
            )),
            Term::Pi(x, t, b) => Ok(Term::Pi(
                x.copy()?,
                raised_part(alloc, t, from, by)?,
                raised_body(alloc, b, from, by)?,
            )),
            Term::Let(x, d, t, b) => Ok(Term::Let(
                x.copy()?,
                raised_part(alloc, d, from, by)?,
                raised_part(alloc, t, from, by)?,
                raised_body(alloc, b, from, by)?,
            )),
        }
    }

    /// The term with `argument`, lifted under binders, for the index, and with greater indices lowered by one. No index
    /// of the result may pass the end of its type. A result that is too large is not built.
    ///
    /// # Errors
    ///
    /// `Deep` where the result is not within limits.
    pub fn subst(&self, alloc: Global, index: u32, argument: &Term) -> Result<Term, Big>
        requires fits { IndicesBelow 4294967296 (subst index (named argument.now) (named self.now)) }
        ensures term { IfOk result (λ t. named t ≡ subst index (named argument.now) (named self.now)) }
        ensures within { OnOk result (within (subst index (named argument.now) (named self.now)) ≡ true) }
        ensures deep { IfErr result (λ e. e ≡ Deep → within (subst index (named argument.now) (named self.now)) ≡ false) }
    {
        let index = u64::from(index);
        if self.depth_put(index, 0, argument, argument.depth()) > 2000 {
            return Err(Big::Deep);
        }
        if self.size_put(index, 0, argument, argument.size()) > 1_000_000 {
            return Err(Big::Deep);
        }
        Ok(self.substituted(alloc, index, 0, argument)?)
    }

    /// The term with the closed term `by` for the constant. A result that is too large is not built.
    ///
    /// # Errors
    ///
    /// `Deep` where the result is not within limits.
    pub fn subst_const(&self, alloc: Global, name: &Name, by: &Term) -> Result<Term, Big>
        requires closed { Below 0 (named by.now) }
        ensures term { IfOk result (λ t. named t ≡ subst_const name.now (named by.now) (named self.now)) }
        ensures within { OnOk result (within (subst_const name.now (named by.now) (named self.now)) ≡ true) }
        ensures deep { IfErr result (λ e. e ≡ Deep → within (subst_const name.now (named by.now) (named self.now)) ≡ false) }
    {
        if self.depth_with(name, by, by.depth()) > 2000 {
            return Err(Big::Deep);
        }
        if self.size_with(name, by, by.size()) > 1_000_000 {
            return Err(Big::Deep);
        }
        Ok(self.with_const(alloc, name, by)?)
    }

    // The result of `subst`, after the binders that were passed. No index is replaced after 2^32 of them.
    #[cycle(substituted)]
    #[tactic(auto, using(crate::proofs::Indices::put_beyond))]
    fn substituted(
        &self,
        alloc: Global,
        index: u64,
        passed: u64,
        argument: &Term,
    ) -> Result<Term, AllocError>
        requires passed { passed ≤ index }
        requires fits { IndicesBelow 4294967296 (put index passed (named argument.now) (named self.now)) }
        ensures { IfOk result (λ t. named t ≡ put index passed (named argument.now) (named self.now)) }
    {
        if index >= INDICES {
            self.indices();
            return self.copy(alloc);
        }
        match self {
            Term::Sort(s) => Ok(Term::Sort(*s)),
            Term::Const(c) => Ok(Term::Const(c.copy()?)),
            Term::Var(i) => substituted_index(alloc, *i, index, passed, argument),
            Term::App(f, a) => Ok(Term::App(
                substituted_part(alloc, f, index, passed, argument)?,
                substituted_part(alloc, a, index, passed, argument)?,
            )),
            Term::Lam(x, t, b) => Ok(Term::Lam(
                x.copy()?,
                substituted_part(alloc, t, index, passed, argument)?,
                substituted_body(alloc, b, index, passed, argument)?,
            )),
            Term::Pi(x, t, b) => Ok(Term::Pi(
                x.copy()?,
                substituted_part(alloc, t, index, passed, argument)?,
                substituted_body(alloc, b, index, passed, argument)?,
            )),
            Term::Let(x, d, t, b) => Ok(Term::Let(
                x.copy()?,
                substituted_part(alloc, d, index, passed, argument)?,
                substituted_part(alloc, t, index, passed, argument)?,
                substituted_body(alloc, b, index, passed, argument)?,
            )),
        }
    }

    // The result of `subst_const`.
    #[cycle(with_const)]
    fn with_const(&self, alloc: Global, name: &Name, by: &Term) -> Result<Term, AllocError>
        ensures { IfOk result (λ t. named t ≡ subst_const name.now (named by.now) (named self.now)) }
    {
        match self {
            Term::Sort(s) => Ok(Term::Sort(*s)),
            Term::Const(c) => {
                if name.same(c) {
                    return by.copy(alloc);
                }
                Ok(Term::Const(c.copy()?))
            }
            Term::Var(i) => Ok(Term::Var(*i)),
            Term::App(f, a) => Ok(Term::App(
                part_with_const(alloc, f, name, by)?,
                part_with_const(alloc, a, name, by)?,
            )),
            Term::Lam(x, t, b) => Ok(Term::Lam(
                x.copy()?,
                part_with_const(alloc, t, name, by)?,
                part_with_const(alloc, b, name, by)?,
            )),
            Term::Pi(x, t, b) => Ok(Term::Pi(
                x.copy()?,
                part_with_const(alloc, t, name, by)?,
                part_with_const(alloc, b, name, by)?,
            )),
            Term::Let(x, d, t, b) => Ok(Term::Let(
                x.copy()?,
                part_with_const(alloc, d, name, by)?,
                part_with_const(alloc, t, name, by)?,
                part_with_const(alloc, b, name, by)?,
            )),
        }
    }
}

#[cycle(with_const)]
fn part_with_const(
    alloc: Global,
    part: &Boxed<Term>,
    name: &Name,
    by: &Term,
) -> Result<Boxed<Term>, AllocError>
    ensures { IfOk result (λ t. named t ≡ subst_const name.now (named by.now) (named part.now)) }
{
    let changed = part.get().with_const(alloc, name, by)?;
    Ok(Boxed::new(alloc, changed)?)
}

#[cycle(substituted)]
fn substituted_part(
    alloc: Global,
    part: &Boxed<Term>,
    index: u64,
    passed: u64,
    argument: &Term,
) -> Result<Boxed<Term>, AllocError>
    requires passed { passed ≤ index }
    requires fits { IndicesBelow 4294967296 (put index passed (named argument.now) (named part.now)) }
    ensures { IfOk result (λ t. named t ≡ put index passed (named argument.now) (named part.now)) }
{
    let changed = part.get().substituted(alloc, index, passed, argument)?;
    Ok(Boxed::new(alloc, changed)?)
}

// The same after one more binder.
#[cycle(substituted)]
fn substituted_body(
    alloc: Global,
    body: &Boxed<Term>,
    index: u64,
    passed: u64,
    argument: &Term,
) -> Result<Boxed<Term>, AllocError>
    requires index { index < 4294967296 }
    requires passed { passed ≤ index }
    requires fits { IndicesBelow 4294967296 (put (suc index) (suc passed) (named argument.now) (named body.now)) }
    ensures { IfOk result (λ t. named t ≡ put (suc index) (suc passed) (named argument.now) (named body.now)) }
{
    let changed = body
        .get()
        .substituted(alloc, index + 1, passed + 1, argument)?;
    Ok(Boxed::new(alloc, changed)?)
}

// What stands for the index `at`.
fn substituted_index(
    alloc: Global,
    at: u32,
    index: u64,
    passed: u64,
    argument: &Term,
) -> Result<Term, AllocError>
    requires passed { passed < 4294967296 }
    requires fits { IndicesBelow 4294967296 (put_index index passed (named argument.now) at) }
    ensures { IfOk result (λ t. named t ≡ put_index index passed (named argument.now) at) }
{
    let place = u64::from(at);
    if place < index {
        return Ok(Term::Var(at));
    }
    if place == index {
        return argument.raised(alloc, 0, passed as u32);
    }
    Ok(Term::Var(at - 1))
}

#[cycle(raised)]
fn raised_part(
    alloc: Global,
    part: &Boxed<Term>,
    from: u64,
    by: u32,
) -> Result<Boxed<Term>, AllocError>
    requires fits { IndicesBelow 4294967296 (lift from by (named part.now)) }
    ensures { IfOk result (λ t. named t ≡ lift from by (named part.now)) }
{
    let raised = part.get().raised(alloc, from, by)?;
    Ok(Boxed::new(alloc, raised)?)
}

// The same after one more binder.
#[cycle(raised)]
fn raised_body(
    alloc: Global,
    body: &Boxed<Term>,
    from: u64,
    by: u32,
) -> Result<Boxed<Term>, AllocError>
    requires from { from < 4294967296 }
    requires fits { IndicesBelow 4294967296 (lift (suc from) by (named body.now)) }
    ensures { IfOk result (λ t. named t ≡ lift (suc from) by (named body.now)) }
{
    let raised = body.get().raised(alloc, from + 1, by)?;
    Ok(Boxed::new(alloc, raised)?)
}
