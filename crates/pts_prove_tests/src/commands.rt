// Commands as they are written.

ghost use Rattle.std.specs.Prelude.{◌≡◌, false};

use crate::answers::seen;
use crate::scene::{Scene, term};
use pts_goals::Proof;
use pts_names::Name;
use pts_prove::{apply, convert_goal, cut, exact, intro, unfold};
use pts_rules::Meter;
use pts_terms::{Boxed, Term};
use std::alloc::Global;

/// A command, with what is handed in.
#[derive(Clone, Copy)]
pub enum Command {
    Intro(&'static str),
    Exact(&'static str),
    Apply(&'static str),
    Cut(&'static str, &'static str),
    Unfold(&'static str),
    Convert(&'static str),
}

/// What comes of `intro`.
pub fn introduced(
    scene: &Scene,
    proof: &mut Proof,
    name: &Name,
    meter: &mut Meter,
) -> (&'static str, usize)
    requires here { proof.old.is_lent ≡ false }
    ensures here { proof.new.is_lent ≡ false }
{
    let scope = scene.draft.scope();
    seen(&intro(&scene.system, scope, proof, name, meter))
}

fn unfolded(
    scene: &Scene,
    proof: &mut Proof,
    name: &Name,
    meter: &mut Meter,
) -> (&'static str, usize)
    requires here { proof.old.is_lent ≡ false }
    ensures here { proof.new.is_lent ≡ false }
{
    let scope = scene.draft.scope();
    seen(&unfold(&scene.system, scope, proof, name, meter))
}

fn closed(scene: &Scene, proof: &mut Proof, term: &Term, meter: &mut Meter) -> (&'static str, usize)
    requires here { proof.old.is_lent ≡ false }
    ensures here { proof.new.is_lent ≡ false }
{
    let scope = scene.draft.scope();
    seen(&exact(&scene.system, scope, proof, term, meter))
}

/// What comes of `apply`.
pub fn applied(
    scene: &Scene,
    proof: &mut Proof,
    term: &Term,
    meter: &mut Meter,
) -> (&'static str, usize)
    requires here { proof.old.is_lent ≡ false }
    ensures here { proof.new.is_lent ≡ false }
{
    let scope = scene.draft.scope();
    seen(&apply(&scene.system, scope, proof, term, meter))
}

fn converted(
    scene: &Scene,
    proof: &mut Proof,
    term: &Term,
    meter: &mut Meter,
) -> (&'static str, usize)
    requires here { proof.old.is_lent ≡ false }
    ensures here { proof.new.is_lent ≡ false }
{
    let scope = scene.draft.scope();
    seen(&convert_goal(&scene.system, scope, proof, term, meter))
}

fn assumed(
    scene: &Scene,
    proof: &mut Proof,
    name: &Name,
    ty: &Term,
    meter: &mut Meter,
) -> (&'static str, usize)
    requires here { proof.old.is_lent ≡ false }
    ensures here { proof.new.is_lent ≡ false }
{
    let scope = scene.draft.scope();
    seen(&cut(&scene.system, scope, proof, name, ty, meter))
}

// The term of a text among the hypotheses of the goal that comes first.
fn goal_term(alloc: Global, scene: &Scene, proof: &Proof, text: &str) -> Option<Boxed<Term>>
    requires here { proof.now.is_lent ≡ false }
{
    if proof.goals() == 0 {
        return term(alloc, scene, &[], text);
    }
    term(alloc, scene, proof.goal(0).names.items(), text)
}

// What comes of a command with a name.
fn answer_name(
    alloc: Global,
    scene: &Scene,
    proof: &mut Proof,
    command: Command,
    name: &str,
    meter: &mut Meter,
) -> Option<(&'static str, usize)>
    requires here { proof.old.is_lent ≡ false }
    ensures here { proof.new.is_lent ≡ false }
{
    let name = Name::read(alloc, name).ok()?;
    match command {
        Command::Intro(_) => Some(introduced(scene, proof, &name, meter)),
        _ => Some(unfolded(scene, proof, &name, meter)),
    }
}

// What comes of a command with a term.
fn answer_term(
    alloc: Global,
    scene: &Scene,
    proof: &mut Proof,
    command: Command,
    text: &str,
    meter: &mut Meter,
) -> Option<(&'static str, usize)>
    requires here { proof.old.is_lent ≡ false }
    ensures here { proof.new.is_lent ≡ false }
{
    let term = goal_term(alloc, scene, proof, text)?;
    match command {
        Command::Exact(_) => Some(closed(scene, proof, term.get(), meter)),
        Command::Apply(_) => Some(applied(scene, proof, term.get(), meter)),
        _ => Some(converted(scene, proof, term.get(), meter)),
    }
}

fn answer_cut(
    alloc: Global,
    scene: &Scene,
    proof: &mut Proof,
    name: &str,
    ty: &str,
    meter: &mut Meter,
) -> Option<(&'static str, usize)>
    requires here { proof.old.is_lent ≡ false }
    ensures here { proof.new.is_lent ≡ false }
{
    let name = Name::read(alloc, name).ok()?;
    let ty = goal_term(alloc, scene, proof, ty)?;
    Some(assumed(scene, proof, &name, ty.get(), meter))
}

/// What comes of a command.
pub fn answer(
    alloc: Global,
    scene: &Scene,
    proof: &mut Proof,
    command: Command,
    meter: &mut Meter,
) -> Option<(&'static str, usize)>
    requires here { proof.old.is_lent ≡ false }
    ensures here { proof.new.is_lent ≡ false }
{
    match command {
        Command::Intro(name) | Command::Unfold(name) => {
            answer_name(alloc, scene, proof, command, name, meter)
        }
        Command::Exact(text) | Command::Apply(text) | Command::Convert(text) => {
            answer_term(alloc, scene, proof, command, text, meter)
        }
        Command::Cut(name, ty) => answer_cut(alloc, scene, proof, name, ty, meter),
    }
}
