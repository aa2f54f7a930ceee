use pts_terms::{Big, Boxed, Name, Sort, Term};
use std::alloc::{AllocError, Global};

fn applied(alloc: Global, function: Term, argument: Term) -> Result<Term, AllocError> {
    let function = Boxed::new(alloc, function)?;
    let argument = Boxed::new(alloc, argument)?;
    Ok(Term::App(function, argument))
}

fn copied(alloc: Global) -> Result<Term, AllocError> {
    applied(alloc, Term::Var(0), Term::Sort(Sort(1)))?.copy(alloc)
}

fn is_copied(copy: &Result<Term, AllocError>) -> bool {
    match copy {
        Ok(term) => term.depth() == 2 && term.size() == 3 && matches!(term, Term::App(_, _)),
        Err(_) => false,
    }
}

#[test]
fn a_copy_has_the_depth_and_the_size(rt: HostRuntime) {
    assert!(rt; is_copied(&copied(rt.alloc())));
}

fn lifted(alloc: Global) -> Result<Term, AllocError> {
    Term::Var(3).lift(alloc, 3, 2)
}

fn is_lifted(answer: &Result<Term, AllocError>, body: &Term, wanted: &Term) -> bool {
    match answer {
        Ok(term) => term.alpha_eq(wanted) && term.is_lift_of(body, 3, 2),
        Err(_) => false,
    }
}

fn substituted(alloc: Global) -> Result<Term, Big> {
    Term::Var(0).subst(alloc, 0, &Term::Sort(Sort(1)))
}

fn is_substituted(answer: &Result<Term, Big>, body: &Term, argument: &Term) -> bool {
    match answer {
        Ok(term) => term.same(argument) && term.is_subst_of(body, 0, argument),
        Err(_) => false,
    }
}

#[test]
fn operations_answer_what_the_comparisons_accept(rt: HostRuntime) {
    assert!(rt; is_lifted(&lifted(rt.alloc()), &Term::Var(3), &Term::Var(5)));
    assert!(rt;
        is_substituted(
            &substituted(rt.alloc()),
            &Term::Var(0),
            &Term::Sort(Sort(1))
        )
    );
}

fn constant(alloc: Global) -> Option<Name> {
    Name::read(alloc, "c").ok()
}

fn replaced(alloc: Global, body: &Term, name: &Name) -> Result<Term, Big> {
    body.subst_const(alloc, name, &Term::Sort(Sort(0)))
}

fn is_replaced(answer: &Result<Term, Big>, body: &Term, name: &Name, by: &Term) -> bool {
    match answer {
        Ok(term) => term.is_subst_const_of(body, name, by),
        Err(_) => false,
    }
}

fn replaces(alloc: Global, name: &Name) -> Result<bool, AllocError> {
    let body = Term::Const(name.copy()?);
    Ok(is_replaced(
        &replaced(alloc, &body, name),
        &body,
        name,
        &Term::Sort(Sort(0)),
    ))
}

fn deep(alloc: Global) -> Result<Term, AllocError> {
    let mut term = Term::Var(0);
    for _ in 0..2000 {
        term = applied(alloc, term, Term::Sort(Sort(0)))?;
    }
    Ok(term)
}

fn is_refused(alloc: Global, name: &Name) -> Result<bool, AllocError> {
    let body = deep(alloc)?;
    Ok(matches!(replaced(alloc, &body, name), Err(Big::Deep)))
}

#[test]
fn a_constant_is_replaced_where_the_result_is_not_too_deep(rt: HostRuntime) {
    match constant(rt.alloc()) {
        Some(name) => {
            assert!(rt; matches!(replaces(rt.alloc(), &name), Ok(true)));
            assert!(rt; matches!(is_refused(rt.alloc(), &name), Ok(true)));
        }
        None => assert!(rt; false),
    }
}
