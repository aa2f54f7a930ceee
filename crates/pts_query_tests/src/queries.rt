// The lines that ask about a scope and change nothing.

use crate::scene::{Scene, made};
use crate::texts::tree;
use pts_parser::resolve;
use pts_queries::{
    Entry, FrontScope, Name, Text, declared_line, equal, infer, reduce, show, shown_line,
};
use pts_terms::Term;
use std::alloc::{AllocError, Global};

/// Whether a line is that one.
pub fn is_line(line: &Result<Text, AllocError>, wanted: &str) -> bool {
    match line {
        Ok(line) => line.text() == wanted,
        Err(_) => false,
    }
}

// Whether `infer` is answered so, on a budget.
fn infers(alloc: Global, scene: &Scene, budget: u64, term: &str, wanted: &str) -> Option<bool> {
    let tree = tree(alloc, term)?;
    let line = infer(alloc, &scene.system, scene.draft.scope(), budget, &tree);
    Some(is_line(&line, wanted))
}

// A budget and a term, and what is answered.
const INFERRED: [(u64, &str, &str); 5] = [
    (100, "id y", "id y : A"),
    (0, "id y", "refused Spent"),
    (100, "y y", "refused term 0 NotProduct A"),
    (0, "* z", "refused UnknownName 2 z"),
    (0, "'u", "refused UnknownSort 0 'u"),
];

#[test]
fn a_term_is_answered_with_its_type_or_refused(rt: HostRuntime) {
    let Some(scene) = made(rt.alloc()) else {
        panic!(rt; "no scene")
    };
    for (budget, term, wanted) in INFERRED {
        assert!(rt;
            infers(rt.alloc(), &scene, budget, term, wanted) == Some(true),
            "{term}"
        );
    }
}

fn reduces(alloc: Global, scene: &Scene, term: &str, wanted: &str) -> Option<bool> {
    let tree = tree(alloc, term)?;
    let line = reduce(alloc, &scene.system, scene.draft.scope(), 100, &tree);
    Some(is_line(&line, wanted))
}

fn compares(alloc: Global, scene: &Scene, left: &str, right: &str, wanted: &str) -> Option<bool> {
    let left = tree(alloc, left)?;
    let right = tree(alloc, right)?;
    let line = equal(
        alloc,
        &scene.system,
        scene.draft.scope(),
        100,
        &left,
        &right,
    );
    Some(is_line(&line, wanted))
}

#[test]
fn a_term_is_answered_with_its_form_and_terms_are_equal_or_differ_at_a_place(rt: HostRuntime) {
    let Some(scene) = made(rt.alloc()) else {
        panic!(rt; "no scene")
    };
    assert!(rt; reduces(rt.alloc(), &scene, "id y", "y") == Some(true));
    assert!(rt; reduces(rt.alloc(), &scene, "(\\x:A. \\y:A. x) y", "\\y1:A. y") == Some(true));
    assert!(rt; compares(rt.alloc(), &scene, "id y", "y", "yes") == Some(true));
    assert!(rt; compares(rt.alloc(), &scene, "y", "A", "no -") == Some(true));
    assert!(rt; compares(rt.alloc(), &scene, "\\x:A. y", "\\x:A. x", "no 1") == Some(true));
}

fn shows(alloc: Global, scene: &Scene, name: &str, wanted: &str) -> Option<bool> {
    let name = Name::read(alloc, name).ok()?;
    let line = show(alloc, &scene.system, scene.draft.scope(), 5, &name);
    Some(is_line(&line, wanted))
}

fn is_declared(alloc: Global, scene: &Scene, entry: &Entry) -> bool {
    is_line(
        &declared_line(alloc, &scene.system, "defined", entry),
        "defined id : A -> A",
    ) && is_line(
        &shown_line(alloc, &scene.system, entry),
        "id := \\x:A. x : A -> A",
    )
}

fn identity_is_declared(alloc: Global, scene: &Scene) -> Option<bool> {
    let name = Name::read(alloc, "id").ok()?;
    let entry = scene.draft.scope().lookup(&name)?;
    Some(is_declared(alloc, scene, entry))
}

// Whether a name is that of an entry.
fn is_known(alloc: Global, scene: &Scene, name: &str) -> Option<bool> {
    let tree = tree(alloc, name)?;
    let scope = FrontScope::of(scene.draft.scope());
    match resolve(alloc, &tree, &scene.system, &[], &scope) {
        Ok(Term::Const(known)) => Some(known.text() == name),
        Ok(_) => None,
        Err(_) => Some(false),
    }
}

#[test]
fn an_entry_is_shown_known_and_declared_by_its_name(rt: HostRuntime) {
    let Some(scene) = made(rt.alloc()) else {
        panic!(rt; "no scene")
    };
    assert!(rt; shows(rt.alloc(), &scene, "y", "y : A") == Some(true));
    assert!(rt; shows(rt.alloc(), &scene, "id", "id := \\x:A. x : A -> A") == Some(true));
    assert!(rt; shows(rt.alloc(), &scene, "z", "refused UnknownName 5 z") == Some(true));
    assert!(rt; identity_is_declared(rt.alloc(), &scene) == Some(true));
    assert!(rt; is_known(rt.alloc(), &scene, "y") == Some(true));
    assert!(rt; is_known(rt.alloc(), &scene, "z") == Some(false));
}
