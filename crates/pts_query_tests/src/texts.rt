// Terms as they are written.

use pts_ctx::{Context, System};
use pts_parser::{Tree, read_tree, resolve};
use pts_queries::FrontScope;
use pts_terms::{Boxed, Term};
use std::alloc::Global;

/// The tree of a text.
pub fn tree(alloc: Global, text: &str) -> Option<Tree> {
    if !text.is_char_boundary(0) {
        return None;
    }
    read_tree(alloc, text, 0).ok()
}

/// The term of a text in a scope.
pub fn term(alloc: Global, system: &System, scope: &Context, text: &str) -> Option<Boxed<Term>> {
    let tree = tree(alloc, text)?;
    let term = resolve(alloc, &tree, system, &[], &FrontScope::of(scope)).ok()?;
    Boxed::new(alloc, term).ok()
}
