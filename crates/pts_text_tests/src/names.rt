use pts_names::{
    List, Name, NameFault, SortName, SortNameFault, Text, continues_identifier, is_identifier,
    is_keyword, names_are_dotted_identifiers, starts_identifier,
};
use std::alloc::{AllocError, Global};

fn joins(alloc: Global) -> Result<bool, NameFault> {
    let label = Name::read(alloc, "é.b")?;
    let last = Name::read(alloc, "c")?;
    let joined = Name::join(alloc, &label, &last)?;
    Ok(joined.text() == "é.b.c" && joined.parts() == 3 && !joined.same(&label))
}

fn shows(alloc: Global) -> Result<bool, NameFault> {
    let name = Name::read(alloc, "имя.α2")?;
    let copy = name.copy()?;
    let shown = format!(in alloc; "<{copy}>")?;
    Ok(copy.same(&name) && shown.as_str() == "<имя.α2>")
}

#[test]
fn a_name_is_read_joined_and_shown(rt: HostRuntime) {
    assert!(rt; matches!(joins(rt.alloc()), Ok(true)));
    assert!(rt; matches!(shows(rt.alloc()), Ok(true)));
}

fn refuses(alloc: Global, text: &str, fault: NameFault) -> bool {
    match Name::read(alloc, text) {
        Ok(_) => false,
        Err(found) => found == fault,
    }
}

#[test]
fn a_text_that_is_no_name_is_refused_at_its_first_fault(rt: HostRuntime) {
    let refusals = [
        ("", NameFault::Empty),
        ("in.x", NameFault::BadStart(0)),
        ("a..b", NameFault::BadStart(2)),
        ("é.٣", NameFault::BadStart(3)),
        ("let%", NameFault::BadPart(3)),
        ("имя%.let", NameFault::BadPart(6)),
    ];
    for (text, fault) in refusals {
        assert!(rt; refuses(rt.alloc(), text, fault), "{text}");
    }
}

/// 63 letters.
const LETTERS: &str = "aaaaaaaaaaaaaaaaaaaaaaaaaaaaaaaaaaaaaaaaaaaaaaaaaaaaaaaaaaaaaaa";

fn is_named(alloc: Global, text: &str, plain: bool, short: bool) -> bool {
    match Name::read(alloc, text) {
        Ok(name) => name.is_plain() == plain && name.is_short() == short,
        Err(_) => false,
    }
}

#[test]
fn a_short_name_is_one_identifier_of_at_most_63_bytes(rt: HostRuntime) {
    assert!(rt; is_named(rt.alloc(), LETTERS, true, true));
    assert!(rt;
        is_named(
            rt.alloc(),
            "aaaaaaaaaaaaaaaaaaaaaaaaaaaaaaaaaaaaaaaaaaaaaaaaaaaaaaaaaaaaaaaa",
            true,
            false
        )
    );
    assert!(rt; is_named(rt.alloc(), "_a", true, true));
    assert!(rt; is_named(rt.alloc(), "_", false, false));
    assert!(rt; is_named(rt.alloc(), "a.b", false, false));
}

fn spells(alloc: Global, text: &str) -> Result<bool, SortNameFault> {
    let spelling = SortName::read(alloc, text)?;
    let copy = spelling.copy()?;
    let shown = format!(in alloc; "{copy}")?;
    Ok(copy.same(&spelling) && copy.text() == text && shown.as_str() == text)
}

#[test]
fn a_sort_is_spelled_by_a_sign_or_a_quoted_identifier(rt: HostRuntime) {
    for text in ["*", "#", "'名1"] {
        assert!(rt; matches!(spells(rt.alloc(), text), Ok(true)), "{text}");
    }
    for text in ["", "**", "'let", "'a.b"] {
        let answer = spells(rt.alloc(), text);
        assert!(rt; answer == Err(SortNameFault::BadSpelling), "{text}");
    }
}

#[test]
fn identifiers_begin_and_go_on_as_the_standard_says(rt: HostRuntime) {
    assert!(rt; starts_identifier('é') && !starts_identifier('7'));
    assert!(rt; continues_identifier('7') && !continues_identifier('.'));
    assert!(rt; is_identifier("int") && !is_identifier("in"));
    assert!(rt; is_keyword("let"));
    names_are_dotted_identifiers();
}

fn gives_back(alloc: Global) -> Result<bool, AllocError> {
    let text = Text::of(String::from_str(alloc, "né")?);
    let list = List::of(Vec::from_slice(alloc, &[3, 1])?);
    let are_kept = text.text() == "né" && list.items() == [3, 1].as_slice();
    Ok(are_kept && list.into_vec().len() == 2)
}

#[test]
fn a_list_and_a_text_give_back_what_they_hold(rt: HostRuntime) {
    assert!(rt; matches!(gives_back(rt.alloc()), Ok(true)));
}
