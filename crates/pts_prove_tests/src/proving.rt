// Whole proofs.

ghost use Rattle.std.specs.Prelude.{◌≡◌, IfSome, false};

use crate::beginning::begin;
use crate::commands::{Command, answer};
use crate::scene::{Scene, made};
use pts_check::declaration_fault;
use pts_goals::{Declaration, Proof};
use pts_rules::Meter;
use std::alloc::Global;

// Whether each of the commands refines the goal that then comes first.
fn refine(alloc: Global, scene: &Scene, proof: &mut Proof, commands: &[Command]) -> bool
    requires here { proof.old.is_lent ≡ false }
    ensures here { proof.new.is_lent ≡ false }
{
    for command in commands {
        let mut meter = Meter::new(99);
        if answer(alloc, scene, proof, *command, &mut meter) != Some(("refined", 0)) {
            return false;
        }
    }
    true
}

/// The proof of a statement after these commands, where each refines a goal.
pub fn proved(alloc: Global, scene: &Scene, statement: &str, commands: &[Command]) -> Option<Proof>
    ensures here { IfSome result (λ p. p.is_lent ≡ false) }
{
    let mut proof = begin(alloc, scene, statement)?;
    if refine(alloc, scene, &mut proof, commands) {
        Some(proof)
    } else {
        None
    }
}

fn finished(
    alloc: Global,
    scene: &Scene,
    statement: &str,
    commands: &[Command],
) -> Option<Declaration> {
    match proved(alloc, scene, statement, commands)?.finish() {
        Ok(declaration) => Some(declaration),
        Err(_) => None,
    }
}

// Whether the commands prove the statement, and the checker finds no fault in the declaration.
fn is_proved(alloc: Global, scene: &Scene, statement: &str, commands: &[Command]) -> Option<bool> {
    let declaration = finished(alloc, scene, statement, commands)?;
    Some(declaration_fault(&scene.system, scene.draft.scope(), &declaration).is_none())
}

// Statements with their proofs.
const PROOFS: [(&str, &[Command]); 4] = [
    ("P a", &[Command::Apply("all")]),
    ("A", &[Command::Apply("map"), Command::Exact("a")]),
    (
        "@X:*. X -> X",
        &[
            Command::Intro("X"),
            Command::Intro("x"),
            Command::Apply("same"),
            Command::Exact("x"),
        ],
    ),
    (
        "Map",
        &[
            Command::Unfold("Map"),
            Command::Convert("Map"),
            Command::Intro("x"),
            Command::Cut("y", "A"),
            Command::Exact("map x"),
            Command::Exact("y"),
        ],
    ),
];

#[test]
fn theorems_are_proved_by_commands(rt: HostRuntime) {
    let Some(scene) = made(rt.alloc()) else {
        panic!(rt; "no scene")
    };
    for (statement, commands) in PROOFS {
        assert!(rt;
            is_proved(rt.alloc(), &scene, statement, commands) == Some(true),
            "{statement}"
        );
    }
}

// A statement, a command, and its refusal.
const REFUSED: [(&str, Command, (&str, usize)); 9] = [
    ("A -> A", Command::Intro("a"), ("taken", 1)),
    ("P a", Command::Intro("x"), ("no product", 0)),
    ("P a", Command::Exact("map"), ("a flaw of the term", 0)),
    ("P a", Command::Cut("a", "A"), ("taken", 1)),
    ("*", Command::Cut("X", "*"), ("a flaw of the goal", 0)),
    ("A", Command::Unfold("Map"), ("not there", 0)),
    ("A", Command::Unfold("A"), ("no body", 0)),
    ("P a", Command::Convert("a"), ("a flaw of the type", 0)),
    ("P a", Command::Convert("A"), ("a flaw of the goal", 0)),
];

fn refusal(
    alloc: Global,
    scene: &Scene,
    statement: &str,
    command: Command,
) -> Option<((&'static str, usize), usize)> {
    let mut proof = begin(alloc, scene, statement)?;
    let mut meter = Meter::new(99);
    let seen = answer(alloc, scene, &mut proof, command, &mut meter)?;
    Some((seen, proof.goals()))
}

#[test]
fn commands_are_refused_and_change_no_goal(rt: HostRuntime) {
    let Some(scene) = made(rt.alloc()) else {
        panic!(rt; "no scene")
    };
    for (statement, command, wanted) in REFUSED {
        assert_eq!(rt;
            refusal(rt.alloc(), &scene, statement, command),
            Some((wanted, 1)),
            "{statement}"
        );
    }
}
