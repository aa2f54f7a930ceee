// Declarations that come with their records are added to a draft.

ghost use Rattle.std.specs.Prelude.{◌≡◌};

use crate::makers::{filled, named};
use crate::words::says;
use pts_check::declaration_fault;
use pts_core::Context;
use pts_declare::{Declaration, Meter, Name, Stated, System, Term, check};
use pts_draft::Draft;
use pts_samples::simple;
use pts_terms::Sort;
use std::alloc::Global;

// The assumption of a name as a type, over the empty front.
fn assumption(alloc: Global, system: &System, name: Name) -> Option<Declaration> {
    let front = Context::new(alloc);
    if let Some(_) = front.place_of(&name) {
        return None;
    }
    let ty = Stated::Assumption(Term::Sort(Sort(0)));
    let mut meter = Meter::new(9);
    check(alloc, system, &front, name, ty, &mut meter).ok()
}

// Whether a declaration that has no fault in the scope of a draft is added, or is answered so.
#[tactic(auto, using(pts_check::proofs::Entering::without_fault))]
fn adds(
    alloc: Global,
    system: &System,
    draft: &mut Draft,
    declaration: Declaration,
    wanted: &str,
) -> bool
    requires { system.now ≡ draft.old.system }
{
    if let Some(_) = declaration_fault(system, draft.scope(), &declaration) {
        return false;
    }
    says(alloc, system, &draft.add(declaration), wanted)
}

// Whether the assumption of a name is answered so, where there are `a` and `b`, and leaves so many declarations.
fn is_answered(alloc: Global, name: &str, wanted: &str, count: usize) -> Option<bool> {
    let system = simple(alloc)?;
    let mut draft = filled(alloc, &system)?;
    let declaration = assumption(alloc, &system, named(alloc, name)?)?;
    Some(adds(alloc, &system, &mut draft, declaration, wanted) && draft.len() == count)
}

#[test]
fn a_declaration_with_its_record_is_added_where_its_name_is_free(rt: HostRuntime) {
    assert!(rt; is_answered(rt.alloc(), "c", "", 3) == Some(true));
    assert!(rt; is_answered(rt.alloc(), "b", "Taken b 1", 2) == Some(true));
}
