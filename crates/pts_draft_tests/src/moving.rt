// A draft moves to a longer front.

ghost use Rattle.std.specs.Prelude.{◌≡◌, IfSome};

use crate::makers::{begun, declare, filled};
use crate::offering::{empty, is_committed, submit};
use crate::words::says;
use pts_core::Core;
use pts_draft::Draft;
use std::alloc::Global;

// A core with `a` and `b`.
fn filled_core(alloc: Global) -> Option<Core> {
    let mut core = empty(alloc)?;
    let draft = filled(alloc, core.system())?;
    let reply = submit(alloc, &mut core, &draft)?;
    if !is_committed(&reply, 2) {
        return None;
    }
    Some(core)
}

// A draft over the empty front in which these two are types.
fn types(alloc: Global, core: &Core, first: &str, second: &str) -> Option<Draft>
    ensures { IfSome result (λ d. d.system ≡ core.now.system) }
{
    let system = core.system();
    let mut draft = begun(alloc, system)?;
    declare(alloc, system, &mut draft, first, "*", "")?;
    declare(alloc, system, &mut draft, second, "*", "")?;
    Some(draft)
}

// Whether a draft that moves to the front of a core, of which its own is one, is answered so.
fn moves_to(alloc: Global, core: &Core, draft: &mut Draft, wanted: &str) -> bool
    requires { draft.old.system ≡ core.now.system }
{
    let Ok(front) = core.context().copy() else {
        return false;
    };
    if !draft.front().is_front_of(&front) {
        return false;
    }
    core.is_legal();
    says(alloc, core.system(), &draft.move_to(front), wanted)
}

// Whether a draft of two declarations has so many entries in its front, and so many in its scope.
fn is_over(draft: &Draft, front: usize, scope: usize) -> bool {
    draft.front().len() == front && draft.scope().len() == scope && draft.len() == 2
}

fn moves(alloc: Global) -> Option<bool> {
    let core = filled_core(alloc)?;
    let mut draft = types(alloc, &core, "c", "d")?;
    let is_free = draft.first_taken(core.context()).is_none();
    Some(is_free && moves_to(alloc, &core, &mut draft, "") && is_over(&draft, 2, 4))
}

#[test]
fn a_draft_moves_to_a_longer_front_with_its_declarations(rt: HostRuntime) {
    assert!(rt; moves(rt.alloc()) == Some(true));
}

// Whether this is the first name of a draft that the core has.
fn is_first_taken(core: &Core, draft: &Draft, taken: &str, at: usize) -> bool {
    match draft.first_taken(core.context()) {
        Some((name, place)) => name.text() == taken && place == at,
        None => false,
    }
}

fn stays(alloc: Global) -> Option<bool> {
    let core = filled_core(alloc)?;
    let mut draft = types(alloc, &core, "c", "b")?;
    let is_taken = is_first_taken(&core, &draft, "b", 1);
    Some(is_taken && moves_to(alloc, &core, &mut draft, "Taken b 1") && is_over(&draft, 0, 2))
}

#[test]
fn a_draft_stays_where_a_name_of_it_is_taken_in_the_longer_front(rt: HostRuntime) {
    assert!(rt; stays(rt.alloc()) == Some(true));
}
