// What a theorem begins with.

use pts_begin::{Context, InferFault, Meter, Name, Proof, System, Term, begin};
use pts_samples::simple;
use pts_terms::Sort;
use std::alloc::Global;

fn seen(begun: &Result<Proof, InferFault>) -> (&'static str, usize) {
    match begun {
        Ok(proof) => ("begun", proof.goals()),
        Err(InferFault::Flaw(_)) => ("a flaw", 0),
        Err(InferFault::Spent) => ("spent", 0),
        Err(InferFault::Deep) => ("deep", 0),
        Err(InferFault::Memory) => ("memory", 0),
    }
}

// What comes of a statement, and how many goals are open.
fn begins(
    alloc: Global,
    system: &System,
    statement: &Term,
    budget: u64,
) -> Option<(&'static str, usize)> {
    let front = Context::new(alloc);
    let name = Name::read(alloc, "first").ok()?;
    let mut meter = Meter::new(budget);
    Some(seen(&begin(alloc, system, &front, name, statement, &mut meter)))
}

#[test]
fn a_statement_with_a_sort_is_the_one_goal_of_its_proof(rt: HostRuntime) {
    let Some(system) = simple(rt.alloc()) else {
        panic!(rt; "no system")
    };
    let cases = [
        (0, 9, ("begun", 1)),
        (1, 9, ("a flaw", 0)),
        (0, 0, ("spent", 0)),
    ];
    for (sort, budget, wanted) in cases {
        let statement = Term::Sort(Sort(sort));
        assert_eq!(rt;
            begins(rt.alloc(), &system, &statement, budget),
            Some(wanted)
        );
    }
}
