// Systems.

use pts_ctx::{SortName, System};
use std::alloc::Global;

/// The spelling of a sort.
pub fn spelled(alloc: Global, text: &str) -> Option<SortName> {
    SortName::read(alloc, text).ok()
}

/// The sorts `*` and `#`.
pub fn stars_and_boxes(alloc: Global) -> Option<Vec<SortName>> {
    let mut sorts = Vec::new(alloc);
    sorts.push(spelled(alloc, "*")?).ok()?;
    sorts.push(spelled(alloc, "#")?).ok()?;
    Some(sorts)
}

/// Adds the axiom of `*` and this sort.
pub fn add_axiom(alloc: Global, axioms: &mut Vec<(SortName, SortName)>, right: &str) -> Option<()> {
    let left = spelled(alloc, "*")?;
    let right = spelled(alloc, right)?;
    axioms.push((left, right)).ok()
}

/// The axiom `* : #`.
pub fn one_axiom(alloc: Global) -> Option<Vec<(SortName, SortName)>> {
    let mut axioms = Vec::new(alloc);
    add_axiom(alloc, &mut axioms, "#")?;
    Some(axioms)
}

// The rule of functions between types.
fn one_rule(alloc: Global) -> Option<Vec<(SortName, SortName, SortName)>> {
    let first = spelled(alloc, "*")?;
    let second = spelled(alloc, "*")?;
    let third = spelled(alloc, "*")?;
    let mut rules = Vec::new(alloc);
    rules.push((first, second, third)).ok()?;
    Some(rules)
}

/// The simply typed calculus.
pub fn simple(alloc: Global) -> Option<System> {
    let sorts = stars_and_boxes(alloc)?;
    let axioms = one_axiom(alloc)?;
    let rules = one_rule(alloc)?;
    System::new(alloc, sorts, axioms, rules).ok()
}
