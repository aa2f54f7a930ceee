// What is asked about: a system, and a scope in it.

ghost use Rattle.std.specs.Prelude.{◌≡◌, IfSome};

use crate::texts::term;
use pts_ctx::{Context, System};
use pts_declare::Meter;
use pts_draft::Draft;
use pts_queries::Name;
use pts_samples::simple;
use std::alloc::Global;

/// A system, and a draft whose scope has a type A, its identity, and something of it.
#[derive(Drop)]
pub struct Scene {
    pub system: System,
    pub draft: Draft,
}

// Assumes something of a type.
fn assume(alloc: Global, system: &System, draft: &mut Draft, name: &str, ty: &str) -> Option<()>
    requires { system.now ≡ draft.old.system }
    ensures { draft.new.system ≡ draft.old.system }
{
    let name = Name::read(alloc, name).ok()?;
    let ty = term(alloc, system, draft.scope(), ty)?;
    let mut meter = Meter::new(9);
    draft.assume(system, name, ty.get(), &mut meter).ok()
}

// Defines a name.
fn define(alloc: Global, system: &System, draft: &mut Draft, name: &str, body: &str) -> Option<()>
    requires { system.now ≡ draft.old.system }
    ensures { draft.new.system ≡ draft.old.system }
{
    let name = Name::read(alloc, name).ok()?;
    let body = term(alloc, system, draft.scope(), body)?;
    let mut meter = Meter::new(9);
    draft
        .define(system, name, None, body.get(), &mut meter)
        .ok()
}

// The draft over the empty front.
fn begun(alloc: Global, system: &System) -> Option<Draft>
    ensures { IfSome result (λ d. d.system ≡ system.now) }
{
    let front = Context::new(alloc);
    match Draft::new(alloc, system, front) {
        Ok(draft) => Some(draft),
        Err(_) => None,
    }
}

/// The scene, made.
pub fn made(alloc: Global) -> Option<Scene> {
    let system = simple(alloc)?;
    let mut draft = begun(alloc, &system)?;
    assume(alloc, &system, &mut draft, "A", "*")?;
    define(alloc, &system, &mut draft, "id", "\\x:A. x")?;
    assume(alloc, &system, &mut draft, "y", "A")?;
    Some(Scene { system, draft })
}
