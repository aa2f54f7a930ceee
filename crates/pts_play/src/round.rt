ghost use Rattle.std.specs.Prelude.{ℕ, List, IfOk, OnOk, false, ◌≡◌, ◌≤◌, ◌<◌, ◌+◌, ◌++◌, ◌∷◌, [], None, Some, length, All};
ghost use Rattle.std.specs.List.{AllByRecursion};
ghost use Rattle.pts_play.specs.Rounds.{OrderFrom};
ghost use Rattle.pts_play.specs.Turns.{TurnAt, AllRest, AllFit, RunSoFar, Turned, Promises, RisesFrom, is_waiting_at, AllFresh, AllClear, StartedAll, HaveLines, PlayedRound, NoneWaits, players};

use crate::machines::{Player, Table};
use crate::seat::{Seat, run_on, take_turn};
use std::alloc::{AllocError, Global};

/// Plays a round: the sessions, which are numbered from 1, run their lines over the core. Each of the numbers is the session
/// whose request is the core's next event, if it waits then; after them the sessions run to their ends, the least number
/// first. Answers the sessions of the events, in order.
///
/// # Errors
///
/// Out of memory, or what a step refuses. Then nothing is said of the seats, and of the core what its steps keep.
pub fn play_round<P: Player>(
    alloc: Global,
    world: &P::World,
    core: &mut P::Core,
    seats: &mut [Seat<P, P::Request>],
    numbers: &[u32],
) -> Result<Vec<u32>, AllocError>
    requires few { length seats.old ≤ 64 }
    requires numbers { All (λ n. (1 ≤ n) × (n ≤ length seats.old)) numbers.now }
    requires clear { AllClear seats.old }
    requires free { AllByRecursion (P.free world.now) (players seats.old) }
    requires fits { AllFit (P.fits world.now) core.old seats.old }
    ensures played { IfOk result (λ order. (lines : List (ℕ × List ℕ)) → HaveLines 1 lines seats.old → PlayedRound (P.local world.now) (P.resumes world.now) P.Core.steps lines numbers.now core.old seats.old core.new seats.new order.items) }
    ensures idle { OnOk result (NoneWaits seats.new) }
    ensures free { OnOk result (AllByRecursion (P.free world.now) (players seats.new)) }
    ensures fits { OnOk result (AllFit (P.fits world.now) core.new seats.new) }
    ensures keeps { P.Core.keeps core.old core.new }
{
    start_all(alloc, world, seats)?;
    let mut order = Vec::new(alloc);
    for number in numbers {
        turn_of(alloc, world, core, seats, *number, &mut order)?;
    }
    for index in 0..seats.len() {
        turns_at(alloc, world, core, seats, index, &mut order)?;
    }
    Ok(order)
}

// Runs the lines of each session until it asks or has none left.
fn start_all<P: Player>(
    alloc: Global,
    world: &P::World,
    seats: &mut [Seat<P, P::Request>],
) -> Result<(), AllocError>
    requires fresh { AllFresh (P.free world.now) seats.old }
    ensures started { OnOk result (StartedAll (P.local world.now) (P.resumes world.now) (P.free world.now) (P.awaits world.now) (P.fits world.now) seats.old seats.new) }
{
    if let Some((seat, rest)) = seats.split_first_mut() {
        run_on(alloc, world, seat)?;
        start_all(alloc, world, rest)?;
    }
    Ok(())
}

// The turn of the session with this number, if it waits.
fn turn_of<P: Player>(
    alloc: Global,
    world: &P::World,
    core: &mut P::Core,
    seats: &mut [Seat<P, P::Request>],
    number: u32,
    order: &mut Vec<u32>,
) -> Result<(), AllocError>
    requires known { (1 ≤ number) × (number ≤ length seats.old) }
    requires few { length seats.old ≤ 64 }
    requires rests { AllRest (P.free world.now) (P.awaits world.now) seats.old }
    requires fits { AllFit (P.fits world.now) core.old seats.old }
    ensures turned { OnOk result (Turned (P.local world.now) (P.resumes world.now) P.Core.steps (P.free world.now) (P.awaits world.now) (P.fits world.now) core.old seats.old order.old.items core.new seats.new order.new.items) }
    ensures promises { OnOk result ((numbers left : List ℕ) → Promises numbers (OrderFrom (number ∷ left)) seats.old order.old.items → Promises numbers (OrderFrom left) seats.new order.new.items) }
    ensures keeps { P.Core.keeps core.old core.new }
{
    if turn_at(alloc, world, core, seats, number as usize - 1)? {
        order.push(number)?;
    }
    Ok(())
}

// All turns of the session at this index.
fn turns_at<P: Player>(
    alloc: Global,
    world: &P::World,
    core: &mut P::Core,
    seats: &mut [Seat<P, P::Request>],
    index: usize,
    order: &mut Vec<u32>,
) -> Result<(), AllocError>
    requires known { index < length seats.old }
    requires few { length seats.old ≤ 64 }
    requires rests { AllRest (P.free world.now) (P.awaits world.now) seats.old }
    requires fits { AllFit (P.fits world.now) core.old seats.old }
    ensures turned { OnOk result (Turned (P.local world.now) (P.resumes world.now) P.Core.steps (P.free world.now) (P.awaits world.now) (P.fits world.now) core.old seats.old order.old.items core.new seats.new order.new.items) }
    ensures promises { OnOk result ((numbers : List ℕ) → Promises numbers (RisesFrom (index + 1)) seats.old order.old.items → Promises numbers (RisesFrom (index + 2)) seats.new order.new.items) }
    ensures ended { OnOk result (is_waiting_at seats.new (index + 1) ≡ false) }
    ensures keeps { P.Core.keeps core.old core.new }
{
    while turn_at(alloc, world, core, seats, index)? {
        order.push(index as u32 + 1)?;
    }
    Ok(())
}

// The turn of the session at this index. Answers whether it waited.
fn turn_at<P: Player>(
    alloc: Global,
    world: &P::World,
    core: &mut P::Core,
    seats: &mut [Seat<P, P::Request>],
    index: usize,
) -> Result<bool, AllocError>
    requires known { index < length seats.old }
    requires few { length seats.old ≤ 64 }
    requires rests { AllRest (P.free world.now) (P.awaits world.now) seats.old }
    requires fits { AllFit (P.fits world.now) core.old seats.old }
    ensures turn { IfOk result (λ taken. TurnAt (P.local world.now) (P.resumes world.now) P.Core.steps (P.free world.now) (P.awaits world.now) (P.fits world.now) index core.old seats.old taken core.new seats.new) }
    ensures keeps { P.Core.keeps core.old core.new }
{
    take_turn(alloc, world, core, &mut seats[index], index as u32 + 1)
}
