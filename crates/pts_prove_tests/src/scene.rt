// A system, and a scope in it, with terms that are written in them.

ghost use Rattle.std.specs.Prelude.{◌≡◌, IfSome};

use pts_ctx::{Context, SortName, System};
use pts_draft::Draft;
use pts_names::Name;
use pts_parser::read_term;
use pts_queries::FrontScope;
use pts_rules::Meter;
use pts_samples::{one_axiom, spelled, stars_and_boxes};
use pts_terms::{Boxed, Term};
use std::alloc::Global;

/// A calculus with functions between types, of types, and to types, and a draft with the scope.
#[derive(Drop)]
pub struct Scene {
    pub system: System,
    pub draft: Draft,
}

// The rule of functions from things of one sort to things of another.
fn rule(alloc: Global, from: &str, to: &str) -> Option<(SortName, SortName, SortName)> {
    Some((
        spelled(alloc, from)?,
        spelled(alloc, to)?,
        spelled(alloc, to)?,
    ))
}

fn rules(alloc: Global) -> Option<Vec<(SortName, SortName, SortName)>> {
    let mut rules = Vec::new(alloc);
    rules.push(rule(alloc, "*", "*")?).ok()?;
    rules.push(rule(alloc, "*", "#")?).ok()?;
    rules.push(rule(alloc, "#", "*")?).ok()?;
    Some(rules)
}

fn system(alloc: Global) -> Option<System> {
    let sorts = stars_and_boxes(alloc)?;
    let axioms = one_axiom(alloc)?;
    let rules = rules(alloc)?;
    System::new(alloc, sorts, axioms, rules).ok()
}

// The term of a text in a scope, under locals with these names.
fn term_in(
    alloc: Global,
    system: &System,
    scope: &Context,
    locals: &[Name],
    text: &str,
) -> Option<Boxed<Term>> {
    if !text.is_char_boundary(0) {
        return None;
    }
    let term = read_term(alloc, text, 0, system, locals, &FrontScope::of(scope)).ok()?;
    Boxed::new(alloc, term).ok()
}

/// The term of a text, under locals with these names.
pub fn term(alloc: Global, scene: &Scene, locals: &[Name], text: &str) -> Option<Boxed<Term>> {
    term_in(alloc, &scene.system, scene.draft.scope(), locals, text)
}

// Assumes something of a type.
fn assume(alloc: Global, system: &System, draft: &mut Draft, name: &str, ty: &str) -> Option<()>
    requires { system.now ≡ draft.old.system }
    ensures { draft.new.system ≡ draft.old.system }
{
    let name = Name::read(alloc, name).ok()?;
    let ty = term_in(alloc, system, draft.scope(), &[], ty)?;
    let mut meter = Meter::new(100);
    draft.assume(system, name, ty.get(), &mut meter).ok()
}

// Defines a name.
fn define(alloc: Global, system: &System, draft: &mut Draft, name: &str, body: &str) -> Option<()>
    requires { system.now ≡ draft.old.system }
    ensures { draft.new.system ≡ draft.old.system }
{
    let name = Name::read(alloc, name).ok()?;
    let body = term_in(alloc, system, draft.scope(), &[], body)?;
    let mut meter = Meter::new(100);
    draft
        .define(system, name, None, body.get(), &mut meter)
        .ok()
}

// The draft over the empty front.
fn begun(alloc: Global, system: &System) -> Option<Draft>
    ensures { IfSome result (λ d. d.system ≡ system.now) }
{
    let front = Context::new(alloc);
    match Draft::new(alloc, system, front) {
        Ok(draft) => Some(draft),
        Err(_) => None,
    }
}

// A type with something of it, and a predicate over it.
fn assume_things(alloc: Global, system: &System, draft: &mut Draft) -> Option<()>
    requires { system.now ≡ draft.old.system }
    ensures { draft.new.system ≡ draft.old.system }
{
    assume(alloc, system, draft, "A", "*")?;
    assume(alloc, system, draft, "a", "A")?;
    assume(alloc, system, draft, "P", "A -> *")
}

// Functions, of which the last one has a defined type.
fn assume_functions(alloc: Global, system: &System, draft: &mut Draft) -> Option<()>
    requires { system.now ≡ draft.old.system }
    ensures { draft.new.system ≡ draft.old.system }
{
    assume(alloc, system, draft, "all", "@x:A. P x")?;
    assume(alloc, system, draft, "from", "@x:A. @y:A. P x -> P y")?;
    assume(alloc, system, draft, "twice", "(A -> A) -> A -> A")?;
    assume(alloc, system, draft, "same", "@X:*. X -> X")?;
    define(alloc, system, draft, "Map", "A -> A")?;
    assume(alloc, system, draft, "map", "Map")
}

/// The scene, made.
pub fn made(alloc: Global) -> Option<Scene> {
    let system = system(alloc)?;
    let mut draft = begun(alloc, &system)?;
    assume_things(alloc, &system, &mut draft)?;
    assume_functions(alloc, &system, &mut draft)?;
    Some(Scene { system, draft })
}
