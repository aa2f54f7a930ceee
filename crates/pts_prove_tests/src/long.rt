// A function with as many arguments as the limits allow.

use crate::beginning::begin_term;
use crate::commands::{applied, introduced};
use crate::scene::{Scene, made};
use pts_names::Name;
use pts_rules::Meter;
use pts_terms::{Boxed, Term};
use std::alloc::Global;

fn constant(alloc: Global) -> Option<Boxed<Term>> {
    let name = Name::read(alloc, "A").ok()?;
    Boxed::new(alloc, Term::Const(name)).ok()
}

fn arrow(alloc: Global, domain: Boxed<Term>, body: Boxed<Term>) -> Option<Boxed<Term>> {
    let name = Name::read(alloc, "_").ok()?;
    Boxed::new(alloc, Term::Pi(name, domain, body)).ok()
}

// The type of functions with so many arguments of the type `A`, and a value of it.
fn functions(alloc: Global, arguments: usize) -> Option<Boxed<Term>> {
    let mut ty = constant(alloc)?;
    for _ in 0..arguments {
        ty = arrow(alloc, constant(alloc)?, ty)?;
    }
    Some(ty)
}

// That there is something of the type `A` where there is such a function.
fn statement(alloc: Global, arguments: usize) -> Option<Boxed<Term>> {
    arrow(alloc, functions(alloc, arguments)?, constant(alloc)?)
}

// What comes of the function for the statement, and how many goals are open.
fn answer(
    alloc: Global,
    scene: &Scene,
    arguments: usize,
) -> Option<((&'static str, usize), (&'static str, usize), usize)> {
    let name = Name::read(alloc, "f").ok()?;
    let statement = statement(alloc, arguments)?;
    let mut proof = begin_term(alloc, scene, statement.get())?;
    let mut meter = Meter::new(1_000_000);
    let first = introduced(scene, &mut proof, &name, &mut meter);
    let second = applied(scene, &mut proof, &Term::Var(0), &mut meter);
    Some((first, second, proof.goals()))
}

#[test]
fn a_function_is_applied_to_1998_goals(rt: HostRuntime) {
    let Some(scene) = made(rt.alloc()) else {
        panic!(rt; "no scene")
    };
    let refined = ("refined", 0);
    assert_eq!(rt;
        answer(rt.alloc(), &scene, 1998),
        Some((refined, refined, 1998))
    );
}
