use pts_batch::{Batch, World, batch, modules_have_one_answer};
use pts_ctx::System;
use pts_names::Name;
use pts_spec::read_system;
use std::alloc::{AllocError, Global};

/// The simply typed calculus.
const SIMPLE: &[u8] = b"sorts = ['*', '#']\naxioms = [['*', '#']]\nrules = [['*', '*']]\n";

fn simple(alloc: Global) -> Option<System> {
    read_system(alloc, SIMPLE).ok()
}

/// A law is a function that does nothing.
#[test]
fn the_law_of_batches_can_be_called() {
    modules_have_one_answer();
}

/// The batch of a module called `m`.
fn batch_m(alloc: Global, text: &str, budget: u64) -> Option<Batch> {
    let world = World {
        system: simple(alloc)?,
    };
    let name = Name::read(alloc, "m").ok()?;
    batch(alloc, &world, &name, text.as_bytes(), budget).ok()
}

fn has_line(batch: &Batch, place: usize, line: &str) -> bool {
    match batch.lines.items().get(place) {
        Some(text) => text.text() == line,
        None => false,
    }
}

/// Nothing entered, and this is the one line.
fn is_refused(answer: &Option<Batch>, line: &str) -> bool {
    match answer {
        Some(batch) => {
            batch.refused
                && batch.lines.items().len() == 1
                && has_line(batch, 0, line)
                && batch.context.len() == 0
        }
        None => false,
    }
}

fn has_entered(answer: &Option<Batch>, units: u64) -> bool {
    match answer {
        Some(batch) => {
            !batch.refused
                && batch.context.len() == 2
                && batch.units == units
                && has_line(batch, 0, "m.A : *")
                && has_line(batch, 1, "m.i : m.A -> m.A")
        }
        None => false,
    }
}

#[test]
fn declarations_enter_under_the_label(rt: HostRuntime) {
    let text = "yarrow-module 1\nmodule m\nassume A : *\ndefine i := \\x:A. x\nend\n";
    assert!(rt; has_entered(&batch_m(rt.alloc(), text, 1000), 5));
}

#[test]
fn a_refused_module_is_one_line(rt: HostRuntime) {
    let refusals = [
        ("", 9, "refused m BadFile 1 Form"),
        (
            "yarrow-module 1\nmodule m\nuses n\nend\n",
            9,
            "refused m NotBuilt 3",
        ),
        (
            "yarrow-module 1\nmodule m\ndefine k := #\nend",
            9,
            "refused m Declaration 3 term - NoAxiom #",
        ),
        (
            "yarrow-module 1\nmodule m\nassume A : *\nassume A : B\nend",
            9,
            "refused m Declaration 4 UnknownName 11 B",
        ),
        (
            "yarrow-module 1\nmodule m\nassume A : *\nassume A : A\nend",
            9,
            "refused m Declaration 4 Taken m.A 0",
        ),
        (
            "yarrow-module 1\nmodule m\nassume A : *\nend",
            0,
            "refused m Declaration 3 Spent",
        ),
        (
            "yarrow-module 1\nmodule m\nassume A : *\ndefine c : A := A\nend",
            9,
            "refused m Declaration 4 term - NotConvertible - * ; m.A",
        ),
        (
            "yarrow-module 1\nmodule m\nassume A : * -> #\nend",
            9,
            "refused m Declaration 3 type 1 NoAxiom #",
        ),
    ];
    for (text, budget, line) in refusals {
        assert!(rt; is_refused(&batch_m(rt.alloc(), text, budget), line));
    }
}

// The text of a module of so many assumptions.
fn assumptions(alloc: Global, count: u32) -> Result<String, AllocError> {
    let mut text = String::from_str(alloc, "yarrow-module 1\nmodule m\n")?;
    for number in 0..count {
        let line = format!(in alloc; "assume a{number} : *\n")?;
        text.push_str(line.as_str())?;
    }
    text.push_str("end\n")?;
    Ok(text)
}

#[test]
fn a_module_has_room_for_200000_declarations(rt: HostRuntime) {
    match assumptions(rt.alloc(), 200_001) {
        Ok(text) => {
            let full = batch_m(rt.alloc(), text.as_str(), 1_000_000);
            assert!(rt; is_refused(&full, "refused m ContextFull 0"));
        }
        Err(_) => assert!(rt; false),
    }
}
