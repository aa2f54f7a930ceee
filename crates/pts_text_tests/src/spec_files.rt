use pts_ctx::Sort;
use pts_samples::prints;
use pts_spec::{SpecFault, SystemFault, SystemPart, Text, read_system};
use std::alloc::{AllocError, Global};

/// The calculus of constructions, with a sort more, an axiom twice, and a rule of three spellings.
const CONSTRUCTIONS: &str = "# comment
rules = [['*', '*'], [\"#\", '''*'''], [\"*\", \"#\",], ['#', '#', '#'], [\"'é\", '*', \"'é\"]]
sorts = [\"*\", \"#\", \"'é\",]
axioms = [['*', '#'], ['*', '#']]
";

/// The sort of the products of two sorts of a system that a text writes.
fn product(alloc: Global, text: &str, first: u8, second: u8) -> Option<Sort> {
    match read_system(alloc, text.as_bytes()) {
        Ok(system) => system.rule(Sort(first), Sort(second)),
        Err(_) => None,
    }
}

#[test]
fn a_rule_of_two_spellings_has_the_second_twice(rt: HostRuntime) {
    let cases = [
        (0, 1, Some(Sort(1))),
        (1, 0, Some(Sort(0))),
        (2, 0, Some(Sort(2))),
        (0, 2, None),
    ];
    for (first, second, third) in cases {
        let found = product(rt.alloc(), CONSTRUCTIONS, first, second);
        assert_eq!(rt; found, third);
    }
}

/// Whether bytes are a document of TOML.
fn is_toml(alloc: Global, bytes: &[u8]) -> bool {
    !matches!(read_system(alloc, bytes), Err(SpecFault::NotToml))
}

#[test]
fn bytes_that_are_no_document_are_not_toml(rt: HostRuntime) {
    let alloc = rt.alloc();
    assert!(rt; is_toml(alloc, b""));
    assert!(rt; is_toml(alloc, CONSTRUCTIONS.as_bytes()));
    assert!(rt; !is_toml(alloc, b"# \xc3\n"));
    assert!(rt; !is_toml(alloc, b"sorts = []\nsorts = []\n"));
    assert!(rt; !is_toml(alloc, b"sorts = ['*' '#']\n"));
    assert!(rt; !is_toml(alloc, b"sorts\n"));
}

/// Whether this key is at fault in a text.
fn is_at_fault(alloc: Global, text: &str, key: &str) -> bool {
    match read_system(alloc, text.as_bytes()) {
        Err(SpecFault::Shape(named)) => named.text() == key,
        _ => false,
    }
}

#[test]
fn the_first_key_at_fault_is_named(rt: HostRuntime) {
    let cases = [
        ("", "sorts"),
        ("rules = []\naxioms = []", "sorts"),
        ("sorts = '*'\naxioms = 0\nrules = 0", "sorts"),
        ("sorts = ['x']\naxioms = []\nrules = []", "sorts"),
        ("sorts = [['*']]\naxioms = []\nrules = []", "sorts"),
        ("sorts = ['*']\nrules = true", "axioms"),
        ("sorts = []\naxioms = ['*', '#']\nrules = []", "axioms"),
        (
            "sorts = []\naxioms = [['*', '*', '*']]\nrules = []",
            "axioms",
        ),
        ("sorts = []\naxioms = [['*', ' *']]\nrules = []", "axioms"),
        ("sorts = []\naxioms = []\n[rules]\nx = 1", "rules"),
        ("sorts = []\naxioms = []\nrules = [[]]", "rules"),
        ("sorts = []\naxioms = []\nrules = [['*']]", "rules"),
        (
            "sorts = []\naxioms = []\nrules = [['*', '*', '*', '*']]",
            "rules",
        ),
        (
            "foo = 1\nsorts = []\naxioms = []\nrules = [['*', '*', 1]]",
            "rules",
        ),
        (
            "foo = 1\nsorts = ['*', '*']\nsort = 1\naxioms = []\nrules = []",
            "foo",
        ),
        ("sorts = []\naxioms = []\nrules = []\na = 1\nZ = 1", "Z"),
    ];
    for (text, key) in cases {
        assert!(rt; is_at_fault(rt.alloc(), text, key), "{text}");
    }
}

/// Whether the lists of a text have this fault.
fn is_faulty(alloc: Global, text: &str, fault: SystemFault) -> bool {
    match read_system(alloc, text.as_bytes()) {
        Err(SpecFault::System(found)) => found == fault,
        _ => false,
    }
}

#[test]
fn the_first_fault_of_the_lists_is_named(rt: HostRuntime) {
    let clash = "sorts = ['*', '#']\naxioms = []\nrules = [['*', '*', '*'], ['*', '*', '#']]";
    assert!(rt; is_faulty(rt.alloc(), clash, SystemFault::RuleClash(0, 1)));
    let twice = "sorts = ['*', '#', '*']\naxioms = [['*', '*'], ['*', '#']]\nrules = []";
    assert!(rt; is_faulty(rt.alloc(), twice, SystemFault::DuplicateSort(0, 2)));
    let unknown = "sorts = ['*']\naxioms = [['*', '*'], ['*', '#']]\nrules = [['#', '*']]";
    assert!(rt;
        is_faulty(
            rt.alloc(),
            unknown,
            SystemFault::UnknownSort(SystemPart::Axiom, 1),
        )
    );
    let axioms = "sorts = ['*', '#']\naxioms = [['*', '*'], ['*', '#']]\nrules = []";
    assert!(rt; is_faulty(rt.alloc(), axioms, SystemFault::AxiomClash(0, 1)));
}

fn shape_of(alloc: Global, key: &str) -> Result<SpecFault, AllocError> {
    let key = String::from_str(alloc, key)?;
    Ok(SpecFault::Shape(Text::of(key)))
}

fn shape_is_printed(alloc: Global, key: &str, text: &str) -> bool {
    match shape_of(alloc, key) {
        Ok(fault) => prints(alloc, &fault, text),
        Err(_) => false,
    }
}

#[test]
fn refusals_of_specifications_are_printed(rt: HostRuntime) {
    assert!(rt; shape_is_printed(rt.alloc(), "axioms", "Shape axioms"));
    let texts = [
        (SpecFault::NotToml, "NotToml"),
        (
            SpecFault::System(SystemFault::RuleClash(0, 1)),
            "RuleClash 0 1",
        ),
        (SpecFault::Memory, "Memory"),
    ];
    for (fault, text) in texts {
        assert!(rt; prints(rt.alloc(), &fault, text), "{text}");
    }
}
