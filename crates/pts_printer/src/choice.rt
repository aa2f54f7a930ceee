// The printed names of binders.

ghost use Rattle.std.specs.Prelude.{◌≡◌, ◌++◌, ◌&&◌, IfOk, OnOk};
ghost use Rattle.pts_names.specs.Name.{same_name, underscore};
ghost use Rattle.pts_terms.specs.Seen.{named};
ghost use Rattle.pts_printed.specs.Choice as choice;
ghost use Rattle.pts_printed.specs.Spelled as spelled;
ghost use Rattle.pts_printer.specs.Calls.{forbidden};

use crate::clash::clashes;
use crate::occurrence::occurs;
use crate::outer::Outer;
use crate::taken::{Taken, base};
use pts_names::{Name, Text};
use pts_terms::Term;
use std::alloc::{AllocError, Global};

/// The printed name of a binder with this body, in which its variable occurs or not. The body is gone through once, and takes
/// no memory, where the name needs no number; otherwise the forbidden names are listed and looked at for each number that is
/// tried.
#[tactic(auto, using(crate::proofs::Names::choice_free, crate::proofs::Clashing::clashes_is))]
pub(crate) fn chosen(
    alloc: Global,
    name: &Name,
    outer: &Outer,
    body: &Term,
    used: bool,
) -> Result<Text, AllocError>
    requires { used ≡ choice.occurs 0 (named body.now) }
    ensures { IfOk result (λ text. text ≡ choice.chosen name.now outer.now (named body.now)) }
{
    let own = base(name, used);
    if !clashes(own, outer, body, 1) {
        return Ok(Text::of(String::from_str(alloc, own)?));
    }
    let taken = forbidden(alloc, outer, body)?;
    taken.choice(alloc, name, used)
}

/// The printed name of a product with this body: `_` where its variable does not occur in it.
pub(crate) fn product_name(
    alloc: Global,
    name: &Name,
    outer: &Outer,
    body: &Term,
    used: bool,
) -> Result<Text, AllocError>
    requires { used ≡ choice.occurs 0 (named body.now) }
    ensures { IfOk result (λ text. text ≡ spelled.product_name name.now outer.now (named body.now)) }
{
    if used {
        return chosen(alloc, name, outer, body, used);
    }
    Ok(Text::of(String::from_str(alloc, "_")?))
}

/// Whether the name is `_` and the variable of this index occurs in the term. Of other names it does not matter.
pub(crate) fn is_needed_underscore(name: &Name, term: &Term, index: u64) -> bool
    ensures { result ≡ (same_name name.now underscore && choice.occurs index (named term.now)) }
{
    if is_underscore(name) {
        return occurs(term, index);
    }
    false
}

/// Whether the name is `_`.
#[tactic(auto, using(crate::proofs::Names::arrow_name))]
pub(crate) fn is_underscore(name: &Name) -> bool
    ensures { result ≡ same_name name.now underscore }
{
    name.text() == "_"
}

// What a binder with this body may not be called.
fn forbidden<'a>(alloc: Global, outer: &Outer, body: &'a Term) -> Result<Taken<'a>, AllocError>
    ensures { IfOk result (λ taken. forbidden taken ≡ choice.forbidden outer.now (named body.now)) }
{
    let mut taken = Taken::new(alloc);
    outer.add_occurring(alloc, body, &mut taken)?;
    add_constants(body, &mut taken)?;
    Ok(taken)
}

/// Adds the constants of one part that occur in the term.
pub(crate) fn add_constants<'a>(term: &'a Term, taken: &mut Taken<'a>) -> Result<(), AllocError>
    ensures variables { OnOk result (taken.new.variables ≡ taken.old.variables) }
    ensures constants { OnOk result (taken.new.constants ≡ taken.old.constants ++ choice.constants (named term.now)) }
{
    match term {
        Term::Sort(_) | Term::Var(_) => Ok(()),
        Term::Const(name) => {
            if name.parts() == 1 {
                return taken.add_constant(name.text());
            }
            Ok(())
        }
        Term::App(f, a) => {
            add_constants(f.get(), taken)?;
            add_constants(a.get(), taken)
        }
        Term::Lam(_, t, b) | Term::Pi(_, t, b) => {
            add_constants(t.get(), taken)?;
            add_constants(b.get(), taken)
        }
        Term::Let(_, d, t, b) => {
            add_constants(d.get(), taken)?;
            add_constants(t.get(), taken)?;
            add_constants(b.get(), taken)
        }
    }
}
