// Drafts over the empty front, and what is stated in them.

ghost use Rattle.std.specs.Prelude.{◌≡◌, IfSome};

use pts_core::Context;
use pts_declare::{Meter, Name, Stated, System, Term};
use pts_draft::{Draft, DraftFault};
use pts_terms::{Boxed, Sort};
use std::alloc::Global;

/// A name.
pub fn named(alloc: Global, text: &str) -> Option<Name> {
    Name::read(alloc, text).ok()
}

// The sorts `*` and `#`, or a constant.
fn term(alloc: Global, text: &str) -> Option<Term> {
    if text == "*" {
        return Some(Term::Sort(Sort(0)));
    }
    if text == "#" {
        return Some(Term::Sort(Sort(1)));
    }
    Some(Term::Const(named(alloc, text)?))
}

fn given(alloc: Global, ty: &str, body: &str) -> Option<Stated> {
    if body.is_empty() {
        return Some(Stated::Assumption(term(alloc, ty)?));
    }
    if ty.is_empty() {
        return Some(Stated::Definition(term(alloc, body)?));
    }
    let ty = term(alloc, ty)?;
    Some(Stated::Typed(ty, term(alloc, body)?))
}

/// An assumption where there is no body, else a definition, with its type where there is one.
pub fn stated(alloc: Global, ty: &str, body: &str) -> Option<Boxed<Stated>> {
    Boxed::new(alloc, given(alloc, ty, body)?).ok()
}

/// States something of a name.
pub fn state(
    system: &System,
    draft: &mut Draft,
    name: Name,
    stated: &Stated,
    meter: &mut Meter,
) -> Result<(), DraftFault>
    requires { system.now ≡ draft.old.system }
    ensures { draft.new.system ≡ draft.old.system }
{
    match stated {
        Stated::Assumption(ty) => draft.assume(system, name, ty, meter),
        Stated::Definition(body) => draft.define(system, name, None, body, meter),
        Stated::Typed(ty, body) => draft.define(system, name, Some(ty), body, meter),
    }
}

// Whether nine units are enough for a declaration.
fn is_declared(system: &System, draft: &mut Draft, name: Name, stated: &Stated) -> bool
    requires { system.now ≡ draft.old.system }
    ensures { draft.new.system ≡ draft.old.system }
{
    let mut meter = Meter::new(9);
    state(system, draft, name, stated, &mut meter).is_ok()
}

/// Declares a name.
pub fn declare(
    alloc: Global,
    system: &System,
    draft: &mut Draft,
    name: &str,
    ty: &str,
    body: &str,
) -> Option<()>
    requires { system.now ≡ draft.old.system }
    ensures { draft.new.system ≡ draft.old.system }
{
    let name = named(alloc, name)?;
    let stated = stated(alloc, ty, body)?;
    if is_declared(system, draft, name, stated.get()) {
        Some(())
    } else {
        None
    }
}

/// The empty draft over the empty front.
pub fn begun(alloc: Global, system: &System) -> Option<Draft>
    ensures { IfSome result (λ d. d.system ≡ system.now) }
{
    let front = Context::new(alloc);
    match Draft::new(alloc, system, front) {
        Ok(draft) => Some(draft),
        Err(_) => None,
    }
}

/// The draft of the type `a`, and of `b`, which is `a`.
pub fn filled(alloc: Global, system: &System) -> Option<Draft>
    ensures { IfSome result (λ d. d.system ≡ system.now) }
{
    let mut draft = begun(alloc, system)?;
    declare(alloc, system, &mut draft, "a", "*", "")?;
    declare(alloc, system, &mut draft, "b", "", "a")?;
    Some(draft)
}
