use crate::makers::{arrow, is_valid_with, last_size, named};
use pts_check::{Name, Record};
use pts_image::{Replacement, Replacements, append_image, is_last_closed, subst_const};
use pts_record::Shape;
use pts_terms::Big;
use std::alloc::{AllocError, Global};

// `B -> B` for `A` in the record of `A -> A : *`.
fn substituted(alloc: Global) -> Option<Record> {
    let proof = arrow(alloc, "A")?;
    let argument = arrow(alloc, "B")?;
    let name = named(alloc, "A")?;
    if !is_last_closed(&argument) {
        return None;
    }
    subst_const(&proof, &name, &argument).ok()
}

#[test]
fn a_constant_is_replaced_by_a_term_of_its_type(rt: HostRuntime) {
    match substituted(rt.alloc()) {
        Some(image) => {
            assert!(rt; is_valid_with("B", &image));
            assert!(rt; !is_valid_with("A", &image));
            assert!(rt; last_size(&image) == 7);
        }
        None => assert!(rt; false),
    }
}

// Every constant is replaced by one.
#[derive(Drop)]
struct All {
    name: Name,
}

impl Replacements for All {
    ghost use Rattle.pts_image.specs.declared.replacement.Replacement.TheVariants.{Constant};

    ghost replacement = { λ all _. Constant all.name };

    fn replacement(&self, _: &Name) -> Result<Replacement, AllocError> {
        Ok(Replacement::Constant(self.name.copy()?))
    }
}

fn appended(alloc: Global) -> Option<Record> {
    let proof = arrow(alloc, "A")?;
    let all = All {
        name: named(alloc, "B")?,
    };
    let mut into = Record::new(alloc);
    into.shapes_linked();
    append_image(&mut into, &all, 0, &proof).ok()?;
    Some(into)
}

#[test]
fn an_image_is_appended_with_other_constants(rt: HostRuntime) {
    match appended(rt.alloc()) {
        Some(image) => {
            assert!(rt; is_valid_with("B", &image));
            assert!(rt; image.nodes() == 5);
        }
        None => assert!(rt; false),
    }
}

// The terms `A`, `A -> A`, `A -> A -> A`, with so many arrows at most.
fn arrows(alloc: Global, most: usize) -> Option<Record> {
    let mut proof = Record::new(alloc);
    let mut last = proof.add_term(Shape::Const(named(alloc, "A")?)).ok()?;
    for _ in 0..most {
        last = proof.add_term(Shape::Pi(named(alloc, "_")?, 0, last)).ok()?;
    }
    Some(proof)
}

// Whether `B -> B` for `A` makes one of them too deep.
fn is_too_deep(alloc: Global, most: usize) -> Option<bool> {
    let proof = arrows(alloc, most)?;
    let argument = arrow(alloc, "B")?;
    let name = named(alloc, "A")?;
    if !is_last_closed(&argument) {
        return None;
    }
    match subst_const(&proof, &name, &argument) {
        Ok(_) => Some(false),
        Err(Big::Deep) => Some(true),
        Err(Big::Memory) => None,
    }
}

#[test]
fn the_first_depth_beyond_the_limit_is_refused(rt: HostRuntime) {
    assert!(rt; is_too_deep(rt.alloc(), 1998) == Some(false));
    assert!(rt; is_too_deep(rt.alloc(), 1999) == Some(true));
}
