// What a draft has, and how its declarations are taken back.

ghost use Rattle.std.specs.Prelude.{◌≡◌};

use crate::makers::{declare, filled, named};
use pts_core::Context;
use pts_declare::System;
use pts_draft::Draft;
use pts_samples::simple;
use std::alloc::Global;

// The place of a name.
fn place(alloc: Global, front: &Context, name: &str) -> Option<usize> {
    front.place_of(&named(alloc, name)?)
}

fn has_both(alloc: Global, draft: &Draft) -> bool {
    draft.is_legal();
    draft.len() == 2
        && draft.front().len() == 0
        && draft.scope().len() == 2
        && place(alloc, draft.scope(), "a") == Some(0)
        && place(alloc, draft.scope(), "b") == Some(1)
}

fn has_first_alone(alloc: Global, draft: &Draft) -> bool {
    draft.len() == 1
        && place(alloc, draft.scope(), "a") == Some(0)
        && place(alloc, draft.scope(), "b") == None
}

fn is_empty(draft: &Draft) -> bool {
    draft.len() == 0 && draft.scope().len() == 0
}

fn holds_both(alloc: Global) -> Option<bool> {
    let system = simple(alloc)?;
    Some(has_both(alloc, &filled(alloc, &system)?))
}

#[test]
fn a_draft_has_its_declarations_after_the_front(rt: HostRuntime) {
    assert!(rt; holds_both(rt.alloc()) == Some(true));
}

// Takes the last declaration back.
fn drop_one(draft: &mut Draft) -> Option<()>
    ensures { draft.new.system ≡ draft.old.system }
{
    if draft.len() < 1 {
        return None;
    }
    draft.drop_last(1);
    Some(())
}

fn drops_one(alloc: Global) -> Option<bool> {
    let system = simple(alloc)?;
    let mut draft = filled(alloc, &system)?;
    drop_one(&mut draft)?;
    let has_first = has_first_alone(alloc, &draft);
    declare(alloc, &system, &mut draft, "b", "a", "")?;
    Some(has_first && has_both(alloc, &draft))
}

#[test]
fn the_last_declaration_is_taken_back_and_its_name_is_free(rt: HostRuntime) {
    assert!(rt; drops_one(rt.alloc()) == Some(true));
}

fn discards(alloc: Global) -> Option<bool> {
    let system = simple(alloc)?;
    let mut draft = filled(alloc, &system)?;
    let count = draft.discard();
    Some(count == 2 && is_empty(&draft) && draft.discard() == 0)
}

#[test]
fn all_declarations_are_taken_back(rt: HostRuntime) {
    assert!(rt; discards(rt.alloc()) == Some(true));
}

// A copy from which all is taken back.
fn emptied_copy(system: &System, draft: &Draft) -> Option<Draft>
    requires { system.now ≡ draft.now.system }
{
    let mut copy = draft.copy(system).ok()?;
    if copy.discard() != 2 {
        return None;
    }
    Some(copy)
}

fn copies(alloc: Global) -> Option<bool> {
    let system = simple(alloc)?;
    let draft = filled(alloc, &system)?;
    let copy = emptied_copy(&system, &draft)?;
    Some(is_empty(&copy) && has_both(alloc, &draft))
}

#[test]
fn a_copy_goes_its_own_way(rt: HostRuntime) {
    assert!(rt; copies(rt.alloc()) == Some(true));
}
