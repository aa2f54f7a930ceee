use pts_check::{
    Context, Declaration, Name, Record, Sort, System, Term, Verdict, Why, check, concludes,
    declaration_fault,
};
use pts_samples::{fill, simple};
use std::alloc::Global;

fn verdict(alloc: Global, system: &System, proof: &Record) -> Verdict {
    check(system, &Context::new(alloc), proof)
}

fn has_verdict(alloc: Global, proof: &Record, verdict: Verdict) -> bool {
    match simple(alloc) {
        Some(system) => self::verdict(alloc, &system, proof) == verdict,
        None => false,
    }
}

#[test]
fn a_record_is_valid_or_its_first_fault_is_named(rt: HostRuntime) {
    let mut valid = Record::new(rt.alloc());
    assert!(rt; fill(&mut valid, 1).is_ok());
    assert!(rt; has_verdict(rt.alloc(), &valid, Verdict::Valid));
    let faulty = Verdict::Faulty {
        node: 1,
        why: Why::Claim,
    };
    let mut wrong = Record::new(rt.alloc());
    assert!(rt; fill(&mut wrong, 0).is_ok());
    assert!(rt; has_verdict(rt.alloc(), &wrong, faulty));
}

// The definition of a name as the first sort, with the sort `ty` as its type.
fn defined(name: Name, ty: Sort, proof: Record) -> Declaration {
    Declaration {
        name,
        body: Some(Term::Sort(Sort(0))),
        ty: Term::Sort(ty),
        proof,
    }
}

fn is_concluded(alloc: Global, name: Name, proof: Record) -> bool {
    let declaration = defined(name, Sort(1), proof);
    concludes(&Context::new(alloc), &declaration)
}

#[test]
fn a_record_concludes_the_declaration_of_its_last_node(rt: HostRuntime) {
    let mut proof = Record::new(rt.alloc());
    assert!(rt; fill(&mut proof, 1).is_ok());
    match Name::read(rt.alloc(), "x") {
        Ok(name) => assert!(rt; is_concluded(rt.alloc(), name, proof)),
        Err(_) => assert!(rt; false),
    }
}

// The fault of such a definition, whose record says that the first sort has the term `claim` as its type.
fn fault(alloc: Global, ty: Sort, claim: usize) -> Option<Option<(usize, Why)>> {
    let system = simple(alloc)?;
    let name = Name::read(alloc, "x").ok()?;
    let mut proof = Record::new(alloc);
    fill(&mut proof, claim).ok()?;
    let declaration = defined(name, ty, proof);
    Some(declaration_fault(&system, &Context::new(alloc), &declaration))
}

#[test]
fn a_declaration_has_the_fault_of_its_record_or_is_not_concluded(rt: HostRuntime) {
    assert!(rt; fault(rt.alloc(), Sort(1), 1) == Some(None));
    assert!(rt; fault(rt.alloc(), Sort(1), 0) == Some(Some((1, Why::Claim))));
    assert!(rt; fault(rt.alloc(), Sort(0), 1) == Some(Some((2, Why::Conclusion))));
}
