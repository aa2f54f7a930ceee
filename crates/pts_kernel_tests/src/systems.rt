use pts_ctx::{Sort, SortName, System, SystemFault, SystemPart};
use pts_samples::{add_axiom, one_axiom, prints, simple, spelled, stars_and_boxes};
use std::alloc::{AllocError, Global};

fn has_its_axiom_and_its_rule(system: &System) -> bool {
    system.is_declared();
    system.axiom(Sort(0)) == Some(Sort(1))
        && system.axiom(Sort(1)).is_none()
        && system.rule(Sort(0), Sort(0)) == Some(Sort(0))
}

fn spells_star(system: &System) -> bool {
    match system.spelling(Sort(0)) {
        Some(name) => name.text() == "*" && system.sort(name) == Some(Sort(0)),
        None => false,
    }
}

fn is_same(copy: &Result<System, AllocError>, system: &System) -> bool {
    match copy {
        Ok(copy) => copy.same_as(system),
        Err(_) => false,
    }
}

#[test]
fn a_system_answers_as_it_is_written(rt: HostRuntime) {
    match simple(rt.alloc()) {
        Some(system) => {
            assert!(rt; has_its_axiom_and_its_rule(&system));
            assert!(rt; spells_star(&system));
            assert!(rt; is_same(&system.copy(rt.alloc()), &system));
        }
        None => assert!(rt; false),
    }
}

fn refusal(alloc: Global, right: &str) -> Option<SystemFault> {
    let sorts = stars_and_boxes(alloc)?;
    let mut axioms = one_axiom(alloc)?;
    add_axiom(alloc, &mut axioms, right)?;
    System::new(alloc, sorts, axioms, Vec::new(alloc)).err()
}

#[test]
fn the_first_fault_of_a_system_is_named(rt: HostRuntime) {
    assert!(rt; refusal(rt.alloc(), "*") == Some(SystemFault::AxiomClash(0, 1)));
    let unknown = SystemFault::UnknownSort(SystemPart::Axiom, 1);
    assert!(rt; refusal(rt.alloc(), "'T") == Some(unknown));
}

// The first sort, this many times.
fn stars(alloc: Global, count: usize) -> Option<Vec<SortName>> {
    let mut sorts = Vec::new(alloc);
    for _ in 0..count {
        sorts.push(spelled(alloc, "*")?).ok()?;
    }
    Some(sorts)
}

fn refused_stars(alloc: Global, count: usize) -> Option<SystemFault> {
    let sorts = stars(alloc, count)?;
    System::new(alloc, sorts, Vec::new(alloc), Vec::new(alloc)).err()
}

#[test]
fn a_system_has_at_most_64_sorts(rt: HostRuntime) {
    assert!(rt; refused_stars(rt.alloc(), 64) == Some(SystemFault::DuplicateSort(0, 1)));
    assert!(rt; refused_stars(rt.alloc(), 65) == Some(SystemFault::TooManySorts(65)));
}

#[test]
fn faults_of_systems_are_printed(rt: HostRuntime) {
    let texts = [
        (SystemFault::TooManySorts(65), "TooManySorts 65"),
        (SystemFault::DuplicateSort(0, 2), "DuplicateSort 0 2"),
        (
            SystemFault::UnknownSort(SystemPart::Axiom, 1),
            "UnknownSort Axiom 1",
        ),
        (
            SystemFault::UnknownSort(SystemPart::Rule, 3),
            "UnknownSort Rule 3",
        ),
        (SystemFault::AxiomClash(4, 5), "AxiomClash 4 5"),
        (SystemFault::RuleClash(6, 17), "RuleClash 6 17"),
        (SystemFault::Memory, "Memory"),
    ];
    for (fault, text) in texts {
        assert!(rt; prints(rt.alloc(), &fault, text), "{text}");
    }
}
