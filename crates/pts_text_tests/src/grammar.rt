use pts_grammar::{
    Kind, Parsed, SyntaxFault, Tree, parse, parse_term, refusals_are_determined,
    texts_are_unambiguous,
};
use pts_samples::prints;
use pts_tokens::read_tokens;
use std::alloc::Global;
use std::test::Fail;

/// The term that a text says.
fn parsed(alloc: Global, text: &str) -> Result<Tree, SyntaxFault> {
    match read_tokens(alloc, text, 0) {
        Ok(tokens) => parse_term(alloc, tokens.as_slice(), text.len()),
        Err(_) => Err(SyntaxFault::Memory),
    }
}

#[test]
fn arrows_group_to_the_right_and_arguments_to_the_left(rt: HostRuntime) {
    texts_are_unambiguous();
    refusals_are_determined();
    let tree = parsed(rt.alloc(), "a b c -> d -> e");
    let Ok(Tree::Pi(_, domain, body)) = tree else {
        panic!(rt; "a product")
    };
    assert!(rt;
        matches!(domain.get(), Tree::App(_, last) if matches!(last.get(), Tree::Named(4, _)))
    );
    assert!(rt;
        matches!(body.get(), Tree::Pi(_, first, _) if matches!(first.get(), Tree::Named(9, _)))
    );
}

#[test]
fn a_refusal_names_the_first_token_that_does_not_fit(rt: HostRuntime) {
    let refusals = [
        ("", SyntaxFault::Expected(0, Kind::Term)),
        ("\\x:*", SyntaxFault::Expected(4, Kind::Dot)),
        ("\\x.y:*. x", SyntaxFault::Expected(1, Kind::Name)),
        ("@x *", SyntaxFault::Expected(3, Kind::Colon)),
        ("let x : *", SyntaxFault::Expected(6, Kind::Assign)),
        ("let x := é : * x", SyntaxFault::Expected(17, Kind::In)),
        ("(a b", SyntaxFault::Expected(4, Kind::Close)),
        ("a )", SyntaxFault::Expected(2, Kind::End)),
        ("a ->", SyntaxFault::Expected(4, Kind::Term)),
        ("( ( a . ) )", SyntaxFault::Expected(6, Kind::Close)),
    ];
    for (text, fault) in refusals {
        match parsed(rt.alloc(), text) {
            Ok(_) => assert_eq!(rt; text, "refused"),
            Err(found) => assert_eq!(rt; found, fault),
        }
    }
}

#[test]
fn deep_texts_are_refused_without_a_deep_tree(rt: HostRuntime) -> Result<(), Fail> {
    let alloc = rt.alloc();
    let mut binders = String::new(alloc);
    for _ in 0..100_000 {
        binders.push_str("\\x:*.")?;
    }
    binders.push_str("x")?;
    let length = binders.len();
    assert!(rt;
        matches!(parsed(alloc, binders.as_str()), Err(SyntaxFault::TooDeep(n)) if n == length)
    );
    let mut parens = String::new(alloc);
    for _ in 0..2001 {
        parens.push_str("(")?;
    }
    assert!(rt;
        matches!(
            parsed(alloc, parens.as_str()),
            Err(SyntaxFault::TooDeep(2000))
        )
    );
    Ok(())
}

#[test]
fn a_term_of_the_greatest_depth_is_read(rt: HostRuntime) -> Result<(), Fail> {
    let alloc = rt.alloc();
    let mut text = String::new(alloc);
    for _ in 0..1999 {
        text.push_str("let x := * : # in ")?;
    }
    text.push_str("x")?;
    assert!(rt; matches!(parsed(alloc, text.as_str()), Ok(Tree::Let(_, _, _, _))));
    Ok(())
}

/// What comes of the term with which a text begins.
fn begun(alloc: Global, text: &str) -> Option<Parsed> {
    match read_tokens(alloc, text, 0) {
        Ok(tokens) => parse(alloc, tokens.as_slice(), text.len()).ok(),
        Err(_) => None,
    }
}

#[test]
fn a_term_ends_before_the_first_token_that_does_not_go_on(rt: HostRuntime) {
    let read = begun(rt.alloc(), "a b ; c");
    assert!(rt; matches!(&read, Some(Parsed::Read(Some(Tree::App(_, _)), 2))));
    let refused = begun(rt.alloc(), "; c");
    assert!(rt; matches!(&refused, Some(Parsed::Expected(0, Kind::Term))));
}

#[test]
fn kinds_of_tokens_are_printed(rt: HostRuntime) {
    let texts = [
        (Kind::Command, "Command"),
        (Kind::Term, "Term"),
        (Kind::Name, "Name"),
        (Kind::Plain, "Plain"),
        (Kind::Colon, "Colon"),
        (Kind::Dot, "Dot"),
        (Kind::Assign, "Assign"),
        (Kind::In, "In"),
        (Kind::Close, "Close"),
        (Kind::Semicolon, "Semicolon"),
        (Kind::Number, "Number"),
        (Kind::End, "End"),
    ];
    for (kind, text) in texts {
        assert!(rt; prints(rt.alloc(), &kind, text), "{text}");
    }
}
