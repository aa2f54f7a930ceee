// What `apply` answers.

use crate::beginning::begin;
use crate::commands::{Command, answer, applied};
use crate::proving::proved;
use crate::scene::{Scene, made};
use pts_rules::Meter;
use pts_terms::{Boxed, Sort, Term};
use std::alloc::Global;

// A statement, a function and how much may be spent; then what comes of it, its cost, and how many goals are open.
const CASES: [(&str, &'static str, u64, (&str, usize), u64, usize); 9] = [
    ("P a", "all", 99, ("refined", 0), 5, 0),
    ("A", "twice", 99, ("refined", 0), 8, 2),
    ("A", "map", 99, ("refined", 0), 9, 1),
    ("P a", "from", 99, ("undetermined", 1), 5, 1),
    ("P a", "a", 99, ("no match", 0), 2, 1),
    ("P a", "map", 99, ("no match", 1), 4, 1),
    ("P a", "a a", 99, ("a flaw of the term", 0), 2, 1),
    ("*", "same", 99, ("a flaw of the goal", 0), 8, 1),
    ("P a", "all", 4, ("spent", 0), 4, 1),
];

// What comes of a function for a statement, its cost, and how many goals are open.
fn outcome(
    alloc: Global,
    scene: &Scene,
    statement: &str,
    function: &'static str,
    limit: u64,
) -> Option<((&'static str, usize), u64, usize)> {
    let mut proof = begin(alloc, scene, statement)?;
    let mut meter = Meter::new(limit);
    let seen = answer(
        alloc,
        scene,
        &mut proof,
        Command::Apply(function),
        &mut meter,
    )?;
    Some((seen, meter.spent(), proof.goals()))
}

#[test]
fn a_function_is_applied_or_refused_at_its_cost(rt: HostRuntime) {
    let Some(scene) = made(rt.alloc()) else {
        panic!(rt; "no scene")
    };
    for (statement, function, limit, seen, cost, goals) in CASES {
        assert_eq!(rt;
            outcome(rt.alloc(), &scene, statement, function, limit),
            Some((seen, cost, goals)),
            "{function}"
        );
    }
}

fn again(alloc: Global, scene: &Scene) -> Option<((&'static str, usize), u64)> {
    let mut proof = proved(alloc, scene, "P a", &[Command::Apply("all")])?;
    let mut meter = Meter::new(99);
    let seen = answer(alloc, scene, &mut proof, Command::Apply("all"), &mut meter)?;
    Some((seen, meter.spent()))
}

#[test]
fn a_function_needs_a_goal(rt: HostRuntime) {
    let Some(scene) = made(rt.alloc()) else {
        panic!(rt; "no scene")
    };
    assert!(rt; again(rt.alloc(), &scene) == Some((("no goal", 0), 0)));
}

// A term that is deeper than 2,000 by one.
fn deep(alloc: Global) -> Option<Boxed<Term>> {
    let mut term = Boxed::new(alloc, Term::Sort(Sort(0))).ok()?;
    for _ in 0..2000 {
        let function = Boxed::new(alloc, Term::Sort(Sort(0))).ok()?;
        term = Boxed::new(alloc, Term::App(function, term)).ok()?;
    }
    Some(term)
}

fn too_deep(alloc: Global, scene: &Scene) -> Option<((&'static str, usize), u64)> {
    let mut proof = begin(alloc, scene, "A")?;
    let function = deep(alloc)?;
    let mut meter = Meter::new(99);
    let seen = applied(scene, &mut proof, function.get(), &mut meter);
    Some((seen, meter.spent()))
}

#[test]
fn a_function_beyond_the_limits_is_refused_at_no_cost(rt: HostRuntime) {
    let Some(scene) = made(rt.alloc()) else {
        panic!(rt; "no scene")
    };
    assert!(rt; too_deep(rt.alloc(), &scene) == Some((("deep", 0), 0)));
}
