use pts_ctx::System;
use pts_names::{Name, SortName};
use pts_printer::{print_goal, print_term};
use pts_terms::{Boxed, Sort, Term};
use std::alloc::{AllocError, Global};
use std::test::Fail;

fn star(alloc: Global) -> Result<System, Fail> {
    let mut sorts = Vec::new(alloc);
    sorts.push(SortName::read(alloc, "*")?)?;
    Ok(System::new(alloc, sorts, Vec::new(alloc), Vec::new(alloc))?)
}

fn applied(alloc: Global, function: Term, argument: Term) -> Result<Term, AllocError> {
    Ok(Term::App(Boxed::new(alloc, function)?, Boxed::new(alloc, argument)?))
}

fn lam(alloc: Global, name: &Name, domain: Term, body: Term) -> Result<Term, AllocError> {
    let name = name.copy()?;
    Ok(Term::Lam(name, Boxed::new(alloc, domain)?, Boxed::new(alloc, body)?))
}

fn pi(alloc: Global, name: &Name, domain: Term, body: Term) -> Result<Term, AllocError> {
    let name = name.copy()?;
    Ok(Term::Pi(name, Boxed::new(alloc, domain)?, Boxed::new(alloc, body)?))
}

// `\x:*. \x:x. x`, whose body is the variable of this index.
fn twice(alloc: Global, name: &Name, index: u32) -> Result<Term, AllocError> {
    let inner = lam(alloc, name, Term::Var(0), Term::Var(index))?;
    lam(alloc, name, Term::Sort(Sort(0)), inner)
}

fn prints(alloc: Global, system: &System, locals: &[Name], term: &Term, text: &str) -> bool {
    match print_term(alloc, system, locals, term) {
        Ok(printed) => printed.as_str() == text,
        Err(_) => false,
    }
}

#[test]
fn a_binder_is_numbered_where_its_name_would_capture(rt: HostRuntime) -> Result<(), Fail> {
    let alloc = rt.alloc();
    let system = star(alloc)?;
    let x = Name::read(alloc, "x")?;
    let own = twice(alloc, &x, 0)?;
    assert!(rt; prints(alloc, &system, &[], &own, "\\x:*. \\x:x. x"));
    let outer = twice(alloc, &x, 1)?;
    assert!(rt; prints(alloc, &system, &[], &outer, "\\x:*. \\x1:x. x"));
    Ok(())
}

// `(* -> *) -> *`
fn arrows(alloc: Global, name: &Name) -> Result<Term, AllocError> {
    let left = pi(alloc, name, Term::Sort(Sort(0)), Term::Sort(Sort(0)))?;
    pi(alloc, name, left, Term::Sort(Sort(0)))
}

#[test]
fn an_arrow_to_the_left_of_an_arrow_has_parentheses(rt: HostRuntime) -> Result<(), Fail> {
    let alloc = rt.alloc();
    let system = star(alloc)?;
    let term = arrows(alloc, &Name::read(alloc, "x")?)?;
    assert!(rt; prints(alloc, &system, &[], &term, "(* -> *) -> *"));
    Ok(())
}

// The variable of index 0 applied to itself applied to that of index 1.
fn nested(alloc: Global) -> Result<Term, AllocError> {
    let argument = applied(alloc, Term::Var(0), Term::Var(1))?;
    applied(alloc, Term::Var(0), argument)
}

// Two locals, of which the first has no name and is called like the second.
fn two_locals(alloc: Global) -> Result<Vec<Name>, Fail> {
    let mut locals = Vec::new(alloc);
    locals.push(Name::read(alloc, "_")?)?;
    locals.push(Name::read(alloc, "x")?)?;
    Ok(locals)
}

#[test]
fn an_application_as_an_argument_has_parentheses(rt: HostRuntime) -> Result<(), Fail> {
    let alloc = rt.alloc();
    let system = star(alloc)?;
    let locals = two_locals(alloc)?;
    let term = nested(alloc)?;
    assert!(rt; prints(alloc, &system, &locals, &term, "x1 (x1 x)"));
    Ok(())
}

fn goal_is_printed(alloc: Global, system: &System, names: &[Name], types: &[Term]) -> bool {
    if names.len() != types.len() {
        return false;
    }
    match print_goal(alloc, system, names, types, &Term::Var(0)) {
        Ok(printed) => printed.as_str() == "A : *, x : A |- x",
        Err(_) => false,
    }
}

#[test]
fn a_goal_has_its_hypotheses_before_the_statement(rt: HostRuntime) -> Result<(), Fail> {
    let alloc = rt.alloc();
    let system = star(alloc)?;
    let mut names = Vec::new(alloc);
    names.push(Name::read(alloc, "A")?)?;
    names.push(Name::read(alloc, "x")?)?;
    let mut types = Vec::new(alloc);
    types.push(Term::Sort(Sort(0)))?;
    types.push(Term::Var(0))?;
    assert!(rt; goal_is_printed(alloc, &system, &names, &types));
    Ok(())
}

// Products nested to the left, and abstractions nested to the right, 2,000 deep.
fn deep(alloc: Global, name: &Name) -> Result<Term, AllocError> {
    let mut term = Term::Sort(Sort(0));
    for _ in 0..1000 {
        term = pi(alloc, name, term, Term::Sort(Sort(0)))?;
    }
    for _ in 0..999 {
        term = lam(alloc, name, Term::Sort(Sort(0)), term)?;
    }
    Ok(term)
}

#[test]
fn a_term_of_the_greatest_depth_is_printed(rt: HostRuntime) -> Result<(), Fail> {
    let alloc = rt.alloc();
    let system = star(alloc)?;
    let term = deep(alloc, &Name::read(alloc, "x")?)?;
    let text = print_term(alloc, &system, &[], &term)?;
    assert!(rt; text.len() == 999 * 6 + 999 * 7 + 6);
    Ok(())
}

// This many abstractions by a name before the body.
fn abstracted(alloc: Global, name: &Name, count: usize, body: Term) -> Result<Term, AllocError> {
    let mut term = body;
    for _ in 0..count {
        term = lam(alloc, name, Term::Sort(Sort(0)), term)?;
    }
    Ok(term)
}

fn push_times(text: &mut String, piece: &str, count: usize) -> Result<(), AllocError> {
    for _ in 0..count {
        text.push_str(piece)?;
    }
    Ok(())
}

// 300 abstractions by `x`, and then 300 by `y` around the first variable of these.
fn far_outside(alloc: Global) -> Result<Term, Fail> {
    let y = Name::read(alloc, "y")?;
    let inner = abstracted(alloc, &y, 300, Term::Var(299))?;
    let x = Name::read(alloc, "x")?;
    Ok(abstracted(alloc, &x, 300, inner)?)
}

// Its text.
fn far_text(alloc: Global) -> Result<String, AllocError> {
    let mut text = String::new(alloc);
    push_times(&mut text, "\\x:*. ", 300)?;
    text.push_str("\\y:*. ")?;
    push_times(&mut text, "\\y1:*. ", 299)?;
    text.push_str("y")?;
    Ok(text)
}

#[test]
fn a_name_given_far_outside_is_not_hidden(rt: HostRuntime) -> Result<(), Fail> {
    let alloc = rt.alloc();
    let system = star(alloc)?;
    let text = far_text(alloc)?;
    let term = far_outside(alloc)?;
    assert!(rt; prints(alloc, &system, &[], &term, text.as_str()));
    Ok(())
}

// A product around 500 others that are arrows, and around its variable.
fn far_arrows(alloc: Global) -> Result<Term, Fail> {
    let name = Name::read(alloc, "x")?;
    let mut term = Term::Var(500);
    for _ in 0..501 {
        term = pi(alloc, &name, Term::Sort(Sort(0)), term)?;
    }
    Ok(term)
}

// Its text.
fn arrows_text(alloc: Global) -> Result<String, AllocError> {
    let mut text = String::new(alloc);
    text.push_str("@x:*. ")?;
    push_times(&mut text, "* -> ", 500)?;
    text.push_str("x")?;
    Ok(text)
}

#[test]
fn a_product_around_arrows_keeps_its_name(rt: HostRuntime) -> Result<(), Fail> {
    let alloc = rt.alloc();
    let system = star(alloc)?;
    let text = arrows_text(alloc)?;
    let term = far_arrows(alloc)?;
    assert!(rt; prints(alloc, &system, &[], &term, text.as_str()));
    Ok(())
}
