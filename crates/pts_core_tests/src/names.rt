// Inner names.

use crate::makers::{VALID, assumptions};
use pts_core::{Name, first_inner, is_inner};
use std::alloc::Global;

fn has_inner(alloc: Global, name: &str) -> Option<bool> {
    Some(is_inner(&Name::read(alloc, name).ok()?))
}

fn inner_place(alloc: Global, names: &str) -> Option<Option<usize>> {
    Some(first_inner(assumptions(alloc, names, VALID)?.as_slice()))
}

#[test]
fn inner_names_begin_with_an_underscore_and_a_dot(rt: HostRuntime) {
    assert!(rt; has_inner(rt.alloc(), "_.a") == Some(true));
    assert!(rt; has_inner(rt.alloc(), "_") == Some(false));
    assert!(rt; has_inner(rt.alloc(), "a._") == Some(false));
    assert!(rt; inner_place(rt.alloc(), "A _.a _.b") == Some(Some(1)));
    assert!(rt; inner_place(rt.alloc(), "A _a") == Some(None));
}
