// The order of modules.

use crate::shelves::put;
use pts_modules::{
    FileWhy, Name, OrderFault, Shelf, modules_have_one_order, order_modules, place_module,
};
use std::alloc::Global;

// Modules by their names, with those that each uses.
type Library = &'static [(&'static str, &'static str)];

const CHAIN: Library = &[
    (
        "top",
        "yarrow-module 1\nmodule top\nuses middle\nuses base\nend\n",
    ),
    ("base", "yarrow-module 1\nmodule base\nend\n"),
    ("middle", "yarrow-module 1\nmodule middle\nuses base\nend\n"),
];

const CYCLE: Library = &[
    ("a", "yarrow-module 1\nmodule a\nuses b\nend\n"),
    ("b", "yarrow-module 1\nmodule b\nuses a\nend\n"),
];

const MISSING: Library = &[("a", "yarrow-module 1\nmodule a\nuses b\nend\n")];

const BROKEN: Library = &[("a", "yarrow-module 1\nmodule a\n")];

fn shelf(alloc: Global, library: Library) -> Option<Shelf> {
    let mut shelf = Shelf::new(alloc);
    for (name, text) in library {
        put(alloc, &mut shelf, name, text)?;
    }
    Some(shelf)
}

// The names between blanks.
fn names(alloc: Global, words: &str) -> Option<Vec<Name>> {
    let mut names = Vec::new(alloc);
    for word in words.split_whitespace() {
        names.push(Name::read(alloc, word).ok()?).ok()?;
    }
    Some(names)
}

fn ordered(alloc: Global, library: Library, words: &str) -> Option<Result<Vec<Name>, OrderFault>> {
    let shelf = shelf(alloc, library)?;
    let names = names(alloc, words)?;
    Some(order_modules(alloc, &shelf, &names))
}

// Whether these are the names, in their order.
fn are(names: &[Name], wanted: &str) -> bool {
    let mut words = wanted.split_whitespace();
    for name in names {
        match words.next() {
            Some(word) if name.text() == word => {}
            _ => return false,
        }
    }
    words.next().is_none()
}

fn is_ordered(alloc: Global, words: &str, wanted: &str) -> bool {
    match ordered(alloc, CHAIN, words) {
        Some(Ok(names)) => are(&names, wanted),
        _ => false,
    }
}

#[test]
fn modules_come_after_those_that_they_use(rt: HostRuntime) {
    assert!(rt; is_ordered(rt.alloc(), "top", "base middle top"));
    assert!(rt; is_ordered(rt.alloc(), "middle top base", "base middle top"));
    assert!(rt; is_ordered(rt.alloc(), "base base", "base"));
    assert!(rt; is_ordered(rt.alloc(), "", ""));
}

// The fault in a word, with what it names.
fn fault(alloc: Global, library: Library, words: &str) -> Option<(&'static str, usize)> {
    match ordered(alloc, library, words)? {
        Ok(_) => None,
        Err(OrderFault::NoModule(name)) => Some(("no module", name.text().len())),
        Err(OrderFault::BadFile(line, FileWhy::Form)) => Some(("bad form", line)),
        Err(OrderFault::BadFile(line, FileWhy::Read(_))) => Some(("bad line", line)),
        Err(OrderFault::CycleOfUses(name)) => Some(("cycle", name.text().len())),
        Err(OrderFault::Memory) => Some(("memory", 0)),
    }
}

#[test]
fn the_first_fault_is_named(rt: HostRuntime) {
    assert!(rt; fault(rt.alloc(), CYCLE, "a b") == Some(("cycle", 1)));
    assert!(rt; fault(rt.alloc(), MISSING, "a") == Some(("no module", 1)));
    assert!(rt; fault(rt.alloc(), BROKEN, "a") == Some(("bad form", 3)));
}

// Whether an order goes on with `top` where `base` has its place.
fn goes_on(alloc: Global) -> Option<bool> {
    let shelf = shelf(alloc, CHAIN)?;
    let mut done = names(alloc, "base")?;
    let top = Name::read(alloc, "top").ok()?;
    place_module(alloc, &shelf, &mut done, &top).ok()?;
    Some(are(&done, "base middle top"))
}

#[test]
fn an_order_goes_on(rt: HostRuntime) {
    assert!(rt; goes_on(rt.alloc()) == Some(true));
}

#[test]
fn the_law_of_orders_can_be_called() {
    modules_have_one_order();
}
