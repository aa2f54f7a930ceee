// Differences, which are found deep inside and shown from the whole.

ghost use Rattle.std.specs.Prelude.{◌≡◌, ◌<◌, ℕ, List, length, false};
ghost use Rattle.pts_record.specs.declared.shape.Shape.{Shape};
ghost use Rattle.pts_record.specs.Table.{named_at};
ghost use Rattle.pts_reduce_cost.specs.Run.{turned};
ghost use Rattle.pts_reduce_cost.specs.Work.{Answer, of_part, agree};
ghost use Rattle.pts_reduce.specs.Given.{TestFault};

use crate::fault::{Fault, FoundDifference};
use pts_record::Boxed;
use std::alloc::Global;

/// A difference of a part, shown from the whole.
#[tactic(auto, using(crate::proofs::Faults::in_part_facts))]
pub(crate) fn in_part(alloc: Global, fault: Fault, part: u8) -> Fault
    ensures { (ss : List Shape) (k : ℕ) (r : Answer) → TestFault ss fault k r → TestFault ss result k (turned (of_part part) r) }
{
    match fault {
        Fault::Differ(found) => {
            let FoundDifference { place, left, right } = found.into_inner();
            let mut place = place;
            if place.push(part).is_err() {
                return Fault::Memory;
            }
            match Boxed::new(alloc, FoundDifference { place, left, right }) {
                Ok(found) => Fault::Differ(found),
                Err(_) => Fault::Memory,
            }
        }
        Fault::Spent => Fault::Spent,
        Fault::Deep => Fault::Deep,
        Fault::Memory => Fault::Memory,
    }
}

/// Two forms that differ here.
#[tactic(auto, using(crate::proofs::Faults::here))]
pub(crate) fn differ_here(alloc: Global, left: usize, right: usize) -> Fault
    ensures { (ss : List Shape) (k : ℕ) → left < length ss → right < length ss → TestFault ss result k (agree false (named_at ss left) (named_at ss right) k) }
{
    let found = FoundDifference {
        place: Vec::new(alloc),
        left,
        right,
    };
    match Boxed::new(alloc, found) {
        Ok(found) => Fault::Differ(found),
        Err(_) => Fault::Memory,
    }
}
