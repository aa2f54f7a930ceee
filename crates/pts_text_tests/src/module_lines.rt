use pts_lines::{
    Declaring, DeclaringLine, Kind, Line, ReadFault, Tree, declaring_word,
    line_refusals_are_determined, lines_are_unambiguous, read_declaration, read_line,
};
use std::alloc::{AllocError, Global};

fn refused(alloc: Global, text: &str) -> Option<ReadFault> {
    read_line(alloc, text).err()
}

fn is_definition(read: &Result<Line, ReadFault>) -> bool {
    match read {
        Ok(Line::Define(name, Some(ty), Tree::Lam(_, _, _))) => {
            name.text() == "id" && matches!(ty, Tree::Pi(_, _, _))
        }
        _ => false,
    }
}

fn is_instance(read: &Result<Line, ReadFault>) -> bool {
    match read {
        Ok(Line::Instance(module, label, arguments)) => {
            module.text() == "m" && label.text() == "l" && arguments.len() == 2
        }
        _ => false,
    }
}

fn is_budget(read: &Result<Line, ReadFault>, units: u64) -> bool {
    match read {
        Ok(Line::Budget(number)) => *number == units,
        _ => false,
    }
}

fn is_shown_at(read: &Result<Line, ReadFault>, place: usize) -> bool {
    match read {
        Ok(Line::Show(at, name)) => *at == place && name.text() == "a.b",
        _ => false,
    }
}

#[test]
fn lines_are_read(rt: HostRuntime) {
    lines_are_unambiguous();
    line_refusals_are_determined();
    let alloc = rt.alloc();
    assert!(rt; matches!(read_line(alloc, " draft\t"), Ok(Line::Draft)));
    assert!(rt; is_definition(&read_line(alloc, "define id:@A:*.A->A := \\A:*. \\x:A. x")));
    assert!(rt; is_instance(&read_line(alloc, "instance m l a b ; (c)")));
    assert!(rt; is_budget(&read_line(alloc, "budget 10000000"), 10_000_000));
    assert!(rt; is_shown_at(&read_line(alloc, "show  a.b"), 6));
}

#[test]
fn a_refusal_names_the_first_token_that_does_not_fit(rt: HostRuntime) {
    let refusals = [
        ("", 0, Kind::Command),
        ("  ", 2, Kind::Command),
        (" lock", 0, Kind::Command),
        ("look look", 5, Kind::End),
        ("assume _ : *", 7, Kind::Plain),
        ("assume x := *", 9, Kind::Colon),
        ("define x *", 9, Kind::Assign),
        ("define x : * ;", 13, Kind::Assign),
        ("equal a", 7, Kind::Semicolon),
        ("equal a )", 8, Kind::Semicolon),
        ("equal a ;", 9, Kind::Term),
        ("instance m l ;", 13, Kind::End),
        ("instance m l a ;", 16, Kind::Term),
        ("infer \\x:* x", 12, Kind::Dot),
        ("show *", 5, Kind::Name),
        ("budget 10000001", 7, Kind::Number),
        ("budget 00", 7, Kind::Number),
    ];
    for (text, place, kind) in refusals {
        let found = refused(rt.alloc(), text);
        assert!(rt;
            matches!(&found, Some(ReadFault::Expected(at, wanted)) if *at == place && *wanted == kind)
        );
    }
}

fn is_assumption(read: &Result<DeclaringLine, ReadFault>) -> bool {
    match read {
        Ok(DeclaringLine::Assume(name, Tree::Named(place, _))) => {
            name.text() == "a" && *place == 11
        }
        _ => false,
    }
}

fn is_typed_definition(read: &Result<DeclaringLine, ReadFault>) -> bool {
    match read {
        Ok(DeclaringLine::Define(_, Some(ty), body)) => {
            matches!(ty, Tree::Sort(_, _)) && matches!(body, Tree::Named(_, _))
        }
        _ => false,
    }
}

fn is_parameter(read: &Result<DeclaringLine, ReadFault>) -> bool {
    matches!(read, Ok(DeclaringLine::Parameter(_, _)))
}

fn is_no_declaration(read: &Result<DeclaringLine, ReadFault>) -> bool {
    matches!(read, Err(ReadFault::Expected(0, Kind::Command)))
}

#[test]
fn declarations_are_read(rt: HostRuntime) {
    let alloc = rt.alloc();
    assert!(rt; is_assumption(&read_declaration(alloc, "assume a : A")));
    assert!(rt; is_typed_definition(&read_declaration(alloc, "define a : * := A")));
}

#[test]
fn parameters_are_declarations_and_commands_are_not(rt: HostRuntime) {
    let alloc = rt.alloc();
    assert!(rt; is_parameter(&read_declaration(alloc, "parameter a : *")));
    assert!(rt; is_no_declaration(&read_declaration(alloc, "infer a")));
}

fn declares(word: &Result<Option<Declaring>, AllocError>, wanted: Option<Declaring>) -> bool {
    match word {
        Ok(word) => *word == wanted,
        Err(_) => false,
    }
}

#[test]
fn the_first_word_says_what_a_line_declares(rt: HostRuntime) {
    let words = [
        ("parameter", Some(Declaring::Parameter)),
        ("assume $", Some(Declaring::Assume)),
        ("define := )", Some(Declaring::Define)),
        ("infer a", None),
        ("$", None),
    ];
    for (text, wanted) in words {
        assert!(rt;
            declares(&declaring_word(rt.alloc(), text), wanted),
            "{text}"
        );
    }
}
