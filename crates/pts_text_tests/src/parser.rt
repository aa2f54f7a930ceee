ghost use Rattle.std.specs.Prelude.{◌≡◌, Option, List, ℕ, IfOk};

use pts_ctx::System;
use pts_names::{Name, SortName};
use pts_parser::{Kind, ReadFault, Scope, read_term, read_tree, resolve};
use pts_samples::prints;
use pts_terms::Term;
use std::alloc::{AllocError, Global};
use std::test::Fail;

/// A scope with one constant, which stands for itself.
#[derive(Drop)]
struct Only {
    name: Name,
}

impl Scope for Only {
    ghost use Rattle.std.specs.Prelude.{if◌then◌else◌, Some, None};
    ghost use Rattle.pts_names.specs.Name.{same_name};

    ghost constants = { λ s x. if same_name s.name x then Some x else None };

    fn constant(&self, alloc: Global, name: &Name) -> Result<Option<Name>, AllocError> {
        if self.name.same(name) {
            return Ok(Some(name.copy()?));
        }
        Ok(None)
    }
}

fn pair_is_resolved(alloc: Global, system: &System, locals: &[Name], scope: &Only) -> bool {
    match read_tree(alloc, "y x", 0) {
        Ok(tree) => match resolve(alloc, &tree, system, locals, scope) {
            Ok(Term::App(f, a)) => {
                matches!(f.get(), Term::Var(0)) && matches!(a.get(), Term::Var(1))
            }
            _ => false,
        },
        Err(_) => false,
    }
}

fn bound_is_read(alloc: Global, system: &System, locals: &[Name], scope: &Only) -> bool {
    match read_term(alloc, "? \\x:é. x", 2, system, locals, scope) {
        Ok(Term::Lam(_, domain, body)) => {
            matches!(domain.get(), Term::Const(_)) && matches!(body.get(), Term::Var(0))
        }
        _ => false,
    }
}

#[test]
fn a_name_is_its_innermost_binder(rt: HostRuntime) -> Result<(), Fail> {
    let alloc = rt.alloc();
    let system = System::new(alloc, Vec::new(alloc), Vec::new(alloc), Vec::new(alloc))?;
    let scope = Only {
        name: Name::read(alloc, "é")?,
    };
    let mut locals = Vec::new(alloc);
    locals.push(Name::read(alloc, "x")?)?;
    locals.push(Name::read(alloc, "y")?)?;
    assert!(rt; pair_is_resolved(alloc, &system, locals.as_slice(), &scope));
    assert!(rt; bound_is_read(alloc, &system, locals.as_slice(), &scope));
    Ok(())
}

fn refused(alloc: Global, text: &str, system: &System, scope: &Only) -> Option<ReadFault> {
    if !text.is_char_boundary(0) {
        return None;
    }
    read_term(alloc, text, 0, system, &[], scope).err()
}

#[test]
fn the_first_fault_is_answered_with_its_place(rt: HostRuntime) -> Result<(), Fail> {
    let alloc = rt.alloc();
    let system = System::new(alloc, Vec::new(alloc), Vec::new(alloc), Vec::new(alloc))?;
    let scope = Only {
        name: Name::read(alloc, "é")?,
    };
    let bad = refused(alloc, "(é ?", &system, &scope);
    assert!(rt; matches!(&bad, Some(ReadFault::BadChar(4))));
    let open = refused(alloc, "(é *", &system, &scope);
    assert!(rt; matches!(&open, Some(ReadFault::Expected(5, Kind::Close))));
    let sort = refused(alloc, "é * b", &system, &scope);
    assert!(rt; matches!(&sort, Some(ReadFault::UnknownSort(3, _))));
    let name = refused(alloc, "\\_:é. _", &system, &scope);
    assert!(rt; matches!(&name, Some(ReadFault::UnknownName(7, _))));
    Ok(())
}

#[test]
fn a_term_of_the_greatest_depth_is_read(rt: HostRuntime) -> Result<(), Fail> {
    let alloc = rt.alloc();
    let system = System::new(alloc, Vec::new(alloc), Vec::new(alloc), Vec::new(alloc))?;
    let scope = Only {
        name: Name::read(alloc, "é")?,
    };
    let mut text = String::new(alloc);
    for _ in 0..1999 {
        text.push_str("let x := é : é in ")?;
    }
    text.push_str("*")?;
    let deep = refused(alloc, text.as_str(), &system, &scope);
    assert!(rt; matches!(&deep, Some(ReadFault::UnknownSort(_, _))));
    Ok(())
}

#[test]
fn refusals_of_texts_are_printed(rt: HostRuntime) -> Result<(), Fail> {
    let alloc = rt.alloc();
    let name = Name::read(alloc, "é.x")?;
    let sort = SortName::read(alloc, "'s")?;
    let texts = [
        (ReadFault::BadChar(0), "BadChar 0"),
        (ReadFault::LongName(10), "LongName 10"),
        (ReadFault::Expected(2, Kind::Close), "Expected 2 Close"),
        (ReadFault::TooDeep(65536), "TooDeep 65536"),
        (ReadFault::UnknownName(3, name), "UnknownName 3 é.x"),
        (ReadFault::UnknownSort(4, sort), "UnknownSort 4 's"),
        (ReadFault::Memory, "Memory"),
    ];
    for (fault, text) in texts {
        assert!(rt; prints(alloc, &fault, text), "{text}");
    }
    Ok(())
}
