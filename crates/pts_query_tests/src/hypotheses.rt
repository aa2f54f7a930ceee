// The lines that ask under a hypothesis.

use crate::queries::is_line;
use crate::texts::tree;
use pts_ctx::{Context, System};
use pts_queries::{Name, Under};
use pts_record::Record;
use pts_samples::simple;
use pts_worked::{begun, front, is_typed};
use std::alloc::Global;

// In the worked record node 4 is the context of one hypothesis, of the type A.
const UNDER: usize = 4;

// A system and a front, and a name for the hypothesis.
#[derive(Drop)]
struct Scene {
    system: System,
    front: Context,
    names: Vec<Name>,
}

fn made(alloc: Global) -> Option<Scene> {
    let system = simple(alloc)?;
    let front = front(alloc).ok()?;
    let mut names = Vec::new(alloc);
    names.push(Name::read(alloc, "h").ok()?).ok()?;
    Some(Scene {
        system,
        front,
        names,
    })
}

fn infers(alloc: Global, scene: &Scene, term: &str, wanted: &str) -> Option<bool> {
    let tree = tree(alloc, term)?;
    let mut proof = begun(alloc, &scene.system, &scene.front)?;
    if !is_typed(&proof, UNDER) {
        return None;
    }
    let mut under = Under {
        proof: &mut proof,
        ctx: UNDER,
        names: scene.names.as_slice(),
    };
    let line = under.infer(alloc, &scene.system, &scene.front, 100, &tree);
    Some(is_line(&line, wanted))
}

fn reduces(alloc: Global, scene: &Scene, term: &str, wanted: &str) -> Option<bool> {
    let tree = tree(alloc, term)?;
    let mut proof = begun(alloc, &scene.system, &scene.front)?;
    if !is_typed(&proof, UNDER) {
        return None;
    }
    let mut under = Under {
        proof: &mut proof,
        ctx: UNDER,
        names: scene.names.as_slice(),
    };
    let line = under.reduce(alloc, &scene.system, &scene.front, 100, &tree);
    Some(is_line(&line, wanted))
}

fn compares(alloc: Global, scene: &Scene, left: &str, right: &str, wanted: &str) -> Option<bool> {
    let left = tree(alloc, left)?;
    let right = tree(alloc, right)?;
    let mut proof = begun(alloc, &scene.system, &scene.front)?;
    if !is_typed(&proof, UNDER) {
        return None;
    }
    let mut under = Under {
        proof: &mut proof,
        ctx: UNDER,
        names: scene.names.as_slice(),
    };
    let line = under.equal(alloc, &scene.system, &scene.front, 100, &left, &right);
    Some(is_line(&line, wanted))
}

fn shows(alloc: Global, scene: &Scene, name: &str, wanted: &str) -> Option<bool> {
    let name = Name::read(alloc, name).ok()?;
    let mut proof = begun(alloc, &scene.system, &scene.front)?;
    if !is_typed(&proof, UNDER) {
        return None;
    }
    let under = Under {
        proof: &mut proof,
        ctx: UNDER,
        names: scene.names.as_slice(),
    };
    let line = under.show(alloc, &scene.system, &scene.front, 5, &name);
    Some(is_line(&line, wanted))
}

#[test]
fn a_line_asks_about_a_hypothesis_by_its_name(rt: HostRuntime) {
    let Some(scene) = made(rt.alloc()) else {
        panic!(rt; "no scene")
    };
    assert!(rt; infers(rt.alloc(), &scene, "\\x:A. h", "\\x:A. h : A -> A") == Some(true));
    assert!(rt;
        infers(
            rt.alloc(),
            &scene,
            "\\x:A. h x",
            "refused term 1.0 NotProduct A"
        ) == Some(true)
    );
    assert!(rt; reduces(rt.alloc(), &scene, "(\\x:A. x) h", "h") == Some(true));
    assert!(rt; compares(rt.alloc(), &scene, "(\\x:A. x) h", "h", "yes") == Some(true));
    assert!(rt; compares(rt.alloc(), &scene, "h", "a", "no -") == Some(true));
    assert!(rt; shows(rt.alloc(), &scene, "h", "h : A") == Some(true));
    assert!(rt; shows(rt.alloc(), &scene, "a", "a : A") == Some(true));
    assert!(rt; shows(rt.alloc(), &scene, "b", "refused UnknownName 5 b") == Some(true));
}
