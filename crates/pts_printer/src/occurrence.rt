// Which variables occur in a term.

ghost use Rattle.std.specs.Prelude.{◌≡◌, ◌<◌, ◌≤◌, suc};
ghost use Rattle.pts_terms.specs.Limits.{IndicesBelow};
ghost use Rattle.pts_terms.specs.Seen.{named};
ghost use Rattle.pts_printed.specs.Choice.{occurs};
ghost use Rattle.pts_printer.specs.Marks.{mark_at, marked};

use pts_terms::{Boxed, Term};

/// No index is as large.
pub(crate) const INDICES: u64 = 0x1_0000_0000;

/// Whether the variable of this index occurs in the term.
#[cycle(occurs)]
pub(crate) fn occurs(term: &Term, index: u64) -> bool
    ensures { result ≡ occurs index (named term.now) }
{
    if index >= INDICES {
        return occurs_beyond(term, index);
    }
    match term {
        Term::Sort(_) | Term::Const(_) => false,
        Term::Var(i) => u64::from(*i) == index,
        Term::App(f, a) => occurs(f.get(), index) || occurs(a.get(), index),
        Term::Lam(_, t, b) | Term::Pi(_, t, b) => {
            occurs(t.get(), index) || occurs_behind(b, index)
        }
        Term::Let(_, d, t, b) => {
            occurs(d.get(), index) || occurs(t.get(), index) || occurs_behind(b, index)
        }
    }
}

// The same for the body of a binder.
#[cycle(occurs)]
fn occurs_behind(body: &Boxed<Term>, index: u64) -> bool
    requires { index < 4294967296 }
    ensures { result ≡ occurs (suc index) (named body.now) }
{
    occurs(body.get(), index + 1)
}

/// Marks the variables that occur in the term. The first mark is that of the variable of this index, and each next one
/// that of the next index.
#[tactic(auto, using(crate::proofs::Marking::none_marked))]
pub(crate) fn mark(term: &Term, index: u64, marks: &mut [bool])
    ensures { marks.new ≡ marked index marks.old (named term.now) }
{
    if index >= INDICES {
        indices(term);
        return;
    }
    match term {
        Term::Sort(_) | Term::Const(_) => {}
        Term::Var(i) => mark_index(u64::from(*i), index, marks),
        Term::App(f, a) => {
            mark(f.get(), index, marks);
            mark(a.get(), index, marks);
        }
        Term::Lam(_, t, b) | Term::Pi(_, t, b) => {
            mark(t.get(), index, marks);
            mark(b.get(), index + 1, marks);
        }
        Term::Let(_, d, t, b) => {
            mark(d.get(), index, marks);
            mark(t.get(), index, marks);
            mark(b.get(), index + 1, marks);
        }
    }
}

// No variable has an index as large.
#[tactic(auto, using(crate::proofs::Beyond::none_beyond))]
fn occurs_beyond(term: &Term, index: u64) -> bool
    requires { 4294967296 ≤ index }
    ensures { result ≡ occurs index (named term.now) }
{
    indices(term);
    false
}

// Marks the variable of the index `at`.
fn mark_index(at: u64, index: u64, marks: &mut [bool])
    ensures { marks.new ≡ mark_at index at marks.old }
{
    if at < index {
        return;
    }
    let place = (at - index) as usize;
    if place < marks.len() {
        marks[place] = true;
    }
}

/// Each index is below 2^32. This is said, and nothing is done.
pub(crate) fn indices(term: &Term)
    ensures { IndicesBelow 4294967296 (named term.now) }
{
    match term {
        Term::Sort(_) | Term::Const(_) => {}
        Term::Var(index) => {
            let _index = *index;
        }
        Term::App(f, a) => {
            indices(f.get());
            indices(a.get());
        }
        Term::Lam(_, t, b) | Term::Pi(_, t, b) => {
            indices(t.get());
            indices(b.get());
        }
        Term::Let(_, d, t, b) => {
            indices(d.get());
            indices(t.get());
            indices(b.get());
        }
    }
}
