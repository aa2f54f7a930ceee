use crate::makers::{arrow, is_valid_with, named};
use pts_check::{Name, Record, Term};
use pts_image::{OneName, rename_const, rename_declaration};
use pts_record::{Declaration, Sort};
use std::alloc::Global;

fn renamed(alloc: Global) -> Option<Record> {
    let old = arrow(alloc, "_.A")?;
    rename_const(&old, &named(alloc, "_.A")?, &named(alloc, "m.A")?).ok()
}

#[test]
fn a_renamed_record_is_valid_over_the_front_with_the_new_name_alone(rt: HostRuntime) {
    match renamed(rt.alloc()) {
        Some(new) => {
            assert!(rt; is_valid_with("m.A", &new));
            assert!(rt; !is_valid_with("_.A", &new));
        }
        None => assert!(rt; false),
    }
}

// `d := A : *`, with the record of another term.
fn definition(alloc: Global) -> Option<Declaration> {
    Some(Declaration {
        name: named(alloc, "d")?,
        body: Some(Term::Const(named(alloc, "A")?)),
        ty: Term::Sort(Sort(0)),
        proof: arrow(alloc, "A")?,
    })
}

// The same with another name for one of these.
fn renamed_definition(alloc: Global, old: &str, new: &str) -> Option<Declaration> {
    let declaration = definition(alloc)?;
    let old = named(alloc, old)?;
    let new = named(alloc, new)?;
    let names = OneName {
        old: &old,
        new: &new,
    };
    rename_declaration(alloc, &declaration, &names).ok()
}

fn is_constant(term: &Option<Term>, text: &str) -> bool {
    match term {
        Some(Term::Const(name)) => name.text() == text,
        _ => false,
    }
}

fn is_named(name: &Name, text: &str) -> bool {
    name.text() == text
}

#[test]
fn a_declaration_is_renamed_in_its_name_or_in_its_terms_and_its_record(rt: HostRuntime) {
    match renamed_definition(rt.alloc(), "d", "e") {
        Some(new) => {
            assert!(rt; is_named(&new.name, "e"));
            assert!(rt; is_constant(&new.body, "A"));
        }
        None => assert!(rt; false),
    }
    match renamed_definition(rt.alloc(), "A", "B") {
        Some(new) => {
            assert!(rt; is_named(&new.name, "d"));
            assert!(rt; is_constant(&new.body, "B"));
            assert!(rt; is_valid_with("B", &new.proof));
        }
        None => assert!(rt; false),
    }
}
