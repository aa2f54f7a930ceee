// What is stated of a name becomes a declaration, or is refused.

ghost use Rattle.std.specs.Prelude.{◌≡◌};

use crate::makers::{filled, named, state, stated};
use crate::words::says;
use pts_declare::{Meter, Name, Stated, System};
use pts_draft::Draft;
use pts_samples::simple;
use std::alloc::Global;

// A name, a type and a body; how many units there are; and what is answered, how many units that takes, and how many
// declarations there are then. Before it `a` is a type, and `b` is `a`.
const STATED: [(&str, &str, &str, u64, &str, u64, usize); 11] = [
    ("c", "*", "", 9, "", 1, 3),
    ("c", "a", "", 9, "", 1, 3),
    ("c", "", "a", 9, "", 1, 3),
    ("c", "*", "a", 2, "", 2, 3),
    ("b", "*", "", 0, "Taken b 1", 0, 2),
    ("a", "", "b", 9, "Taken a 0", 0, 2),
    ("c", "*", "", 0, "Spent", 0, 2),
    ("c", "*", "a", 1, "Spent", 1, 2),
    ("c", "#", "", 9, "type - NoAxiom #", 1, 2),
    ("c", "", "#", 9, "term - NoAxiom #", 1, 2),
    ("c", "a", "b", 9, "term - NotConvertible - * ; a", 4, 2),
];

type Row = (
    &'static str,
    &'static str,
    &'static str,
    u64,
    &'static str,
    u64,
    usize,
);

// Whether a statement is answered so, at this cost.
fn answers(
    alloc: Global,
    system: &System,
    draft: &mut Draft,
    name: Name,
    stated: &Stated,
    units: u64,
    wanted: &str,
    spent: u64,
) -> bool
    requires { system.now ≡ draft.old.system }
{
    let mut meter = Meter::new(units);
    let answer = state(system, draft, name, stated, &mut meter);
    says(alloc, system, &answer, wanted) && meter.spent() == spent
}

fn is_answered(alloc: Global, row: &Row) -> Option<bool> {
    let (name, ty, body, units, wanted, spent, count) = *row;
    let system = simple(alloc)?;
    let mut draft = filled(alloc, &system)?;
    let name = named(alloc, name)?;
    let stated = stated(alloc, ty, body)?;
    let is_answered = answers(
        alloc,
        &system,
        &mut draft,
        name,
        stated.get(),
        units,
        wanted,
        spent,
    );
    Some(is_answered && draft.len() == count)
}

#[test]
fn a_name_is_declared_or_refused(rt: HostRuntime) {
    for row in STATED {
        assert!(rt;
            is_answered(rt.alloc(), &row) == Some(true),
            "{} {}",
            row.0,
            row.3
        );
    }
}
