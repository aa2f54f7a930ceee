use pts_flaw_text::{flaw_text, place_text};
use pts_infer::{Flaw, FlawKind};
use pts_names::{List, Name};
use pts_samples::simple;
use pts_terms::{Boxed, Sort, Term};
use std::alloc::Global;

fn place_is_printed(alloc: Global, place: &[u8], text: &str) -> bool {
    match place_text(alloc, place) {
        Ok(printed) => printed.as_str() == text,
        Err(_) => false,
    }
}

#[test]
fn a_place_is_printed_with_dots(rt: HostRuntime) {
    assert!(rt; place_is_printed(rt.alloc(), &[], "-"));
    assert!(rt; place_is_printed(rt.alloc(), &[1], "1"));
    assert!(rt; place_is_printed(rt.alloc(), &[2, 10, 0], "2.10.0"));
}

fn boxed(alloc: Global, kind: FlawKind) -> Option<Boxed<FlawKind>> {
    Boxed::new(alloc, kind).ok()
}

// A flaw of the first part of the second one, under a binder `x`.
fn flawed(alloc: Global, kind: Option<Boxed<FlawKind>>) -> Option<Boxed<Flaw>> {
    let kind = kind?;
    let place = Vec::from_slice(alloc, &[1, 0]).ok()?;
    let mut names = Vec::new(alloc);
    names.push(Name::read(alloc, "x").ok()?).ok()?;
    let flaw = Flaw {
        place: List::of(place),
        names: List::of(names),
        kind: kind.into_inner(),
    };
    Boxed::new(alloc, flaw).ok()
}

fn is_printed(alloc: Global, flaw: &Option<Boxed<Flaw>>, text: &str) -> Option<bool> {
    let Some(flaw) = flaw else {
        return None;
    };
    let system = simple(alloc)?;
    let printed = flaw_text(alloc, &system, "argument 2", flaw.get()).ok()?;
    Some(printed.as_str() == text)
}

fn no_sort(alloc: Global) -> Option<Boxed<Flaw>> {
    flawed(alloc, boxed(alloc, FlawKind::NotASort(Term::Var(0))))
}

fn no_product(alloc: Global) -> Option<Boxed<Flaw>> {
    flawed(
        alloc,
        boxed(alloc, FlawKind::NotProduct(Term::Sort(Sort(1)))),
    )
}

fn no_rule(alloc: Global) -> Option<Boxed<Flaw>> {
    flawed(alloc, boxed(alloc, FlawKind::NoRule(Sort(0), Sort(1))))
}

fn no_axiom(alloc: Global) -> Option<Boxed<Flaw>> {
    flawed(alloc, boxed(alloc, FlawKind::NoAxiom(Sort(1))))
}

// Two types that differ are `x` and `*`.
fn difference(alloc: Global) -> Option<Boxed<Flaw>> {
    let place = Vec::from_slice(alloc, &[0, 1]).ok()?;
    let kind = FlawKind::NotConvertible {
        place: List::of(place),
        have: Term::Var(0),
        want: Term::Sort(Sort(0)),
    };
    flawed(alloc, boxed(alloc, kind))
}

#[test]
fn a_flaw_is_printed_with_its_part_and_its_place(rt: HostRuntime) {
    let alloc = rt.alloc();
    let text = "argument 2 1.0 NotASort x";
    assert!(rt; is_printed(alloc, &no_sort(alloc), text) == Some(true));
    let text = "argument 2 1.0 NotProduct #";
    assert!(rt; is_printed(alloc, &no_product(alloc), text) == Some(true));
    let text = "argument 2 1.0 NoRule * #";
    assert!(rt; is_printed(alloc, &no_rule(alloc), text) == Some(true));
    let text = "argument 2 1.0 NoAxiom #";
    assert!(rt; is_printed(alloc, &no_axiom(alloc), text) == Some(true));
    let text = "argument 2 1.0 NotConvertible 0.1 x ; *";
    assert!(rt; is_printed(alloc, &difference(alloc), text) == Some(true));
}
