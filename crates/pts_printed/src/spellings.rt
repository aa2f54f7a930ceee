// What is sure of the spellings in every system.
ghost use Rattle.std.specs.Prelude.{◌<◌, length, get_or, []};
ghost use Rattle.pts_printed.specs.Laws.{AllAreSpellings, IsSpelling};

use pts_ctx::System;
use pts_names::SortName;
use pts_terms::Sort;

/// What is sure of every spelling. It is of no use at run time.
fn is_spelling(name: &SortName)
    ensures { IsSpelling name.now }
{
    let _ = name.text();
}

/// The same of the spelling of a sort in a system, if it has the sort.
fn is_spelled(system: &System, sort: Sort)
    ensures { sort.0 < length system.now.sorts → IsSpelling (get_or system.now.sorts sort.0 []) }
{
    if let Some(name) = system.spelling(sort) {
        is_spelling(name);
    }
}

/// What is sure of every system: its sorts have spellings. It is of no use at run time.
pub fn sorts_of_systems_have_spellings(system: &System)
    ensures { AllAreSpellings system.now.sorts }
{
    system.is_declared();
    for number in 0..64 {
        is_spelled(system, Sort(number));
    }
}
