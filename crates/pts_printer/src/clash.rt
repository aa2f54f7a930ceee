// Whether a name may not be chosen, without a list of those names.

ghost use Rattle.std.specs.Prelude.{◌≡◌, ◌&&◌, suc};
ghost use Rattle.pts_names.specs.Name.{same_name, is_identifier};
ghost use Rattle.pts_terms.specs.Seen.{named};
ghost use Rattle.pts_printer.specs.Clashes.{clashes};

use crate::occurrence::{INDICES, indices};
use crate::outer::Outer;
use pts_names::Name;
use pts_terms::{Boxed, Term};

/// Whether this is the name of a variable that occurs in the term, or a constant of one part that does. The innermost of
/// the variables around has the index `first` in the term.
#[cycle(clashes)]
pub(crate) fn clashes(name: &str, outer: &Outer, term: &Term, first: u64) -> bool
    ensures { result ≡ clashes name.now outer.now first (named term.now) }
{
    match term {
        Term::Sort(_) => false,
        Term::Const(constant) => is_constant(name, constant),
        Term::Var(index) => outer.is_name(name, first, u64::from(*index)),
        Term::App(f, a) => {
            clashes(name, outer, f.get(), first) || clashes(name, outer, a.get(), first)
        }
        Term::Lam(_, t, b) | Term::Pi(_, t, b) => {
            clashes(name, outer, t.get(), first) || clashes_behind(name, outer, b, first)
        }
        Term::Let(_, d, t, b) => {
            clashes(name, outer, d.get(), first)
                || clashes(name, outer, t.get(), first)
                || clashes_behind(name, outer, b, first)
        }
    }
}

// The same for the body of a binder. After 2^32 binders no variable is outer.
#[cycle(clashes)]
#[tactic(auto, using(crate::proofs::Clashing::clashes_beyond))]
fn clashes_behind(name: &str, outer: &Outer, body: &Boxed<Term>, first: u64) -> bool
    ensures { result ≡ clashes name.now outer.now (suc first) (named body.now) }
{
    if first >= INDICES {
        indices(body.get());
        return clashes(name, outer, body.get(), first);
    }
    clashes(name, outer, body.get(), first + 1)
}

// Whether the constant has one part and this name.
#[tactic(auto, using(crate::proofs::Names::name_test))]
fn is_constant(name: &str, constant: &Name) -> bool
    ensures { result ≡ (is_identifier constant.now && same_name name.now constant.now) }
{
    if name != constant.text() {
        return false;
    }
    constant.parts() == 1
}
