use pts_check::{Verdict, check};
use pts_samples::simple;
use pts_worked::{begun, front};
use std::alloc::Global;

fn is_valid(alloc: Global) -> Option<bool> {
    let system = simple(alloc)?;
    let front = front(alloc).ok()?;
    let record = begun(alloc, &system, &front)?;
    Some(record.nodes() == 11 && check(&system, &front, &record) == Verdict::Valid)
}

#[test]
fn contexts_and_judgements_without_parts_are_added(rt: HostRuntime) {
    assert!(rt; is_valid(rt.alloc()) == Some(true));
}
