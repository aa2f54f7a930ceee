ghost use Rattle.std.specs.Prelude.{ℕ, List, OnOk, None, ◌≡◌};
ghost use Rattle.pts_play.specs.Turns.{IsClear};
ghost use Rattle.pts_play.specs.Alone.{RanThrough};

use crate::machines::{Player, Table};
use crate::seat::{Seat, run_on, take_turn};
use std::alloc::{AllocError, Global};

/// Runs the lines of one session to their end, over a core of its own or over the way to one that others use too. Then the
/// session waits for nothing, and may go on with that core.
///
/// # Errors
///
/// Out of memory, or what a step refuses. Then nothing is said of the seat, and of the core what its steps keep.
pub fn run_through<P: Player>(
    alloc: Global,
    world: &P::World,
    core: &mut P::Core,
    seat: &mut Seat<P, P::Request>,
    number: u32,
) -> Result<(), AllocError>
    requires clear { IsClear seat.old }
    requires free { P.free world.now seat.old.player }
    requires fits { P.fits world.now seat.old.player core.old }
    ensures ran { OnOk result (RanThrough (P.local world.now) (P.resumes world.now) P.Core.steps number core.old seat.old core.new seat.new) }
    ensures idle { OnOk result (seat.new.asked ≡ None) }
    ensures free { OnOk result (P.free world.now seat.new.player) }
    ensures fits { OnOk result (P.fits world.now seat.new.player core.new) }
    ensures keeps { P.Core.keeps core.old core.new }
{
    run_on(alloc, world, seat)?;
    while take_turn(alloc, world, core, seat, number)? {}
    Ok(())
}
