ghost use Rattle.std.specs.Prelude.{◌≡◌, ◌≤◌, ◌<◌, ◌+◌, ◌++◌, ◌∷◌, ℕ, List, [], length, OnOk};
ghost use Rattle.pts_play.specs.Turns.{HaveLines, AllClear, players};

use crate::seat::Seat;
use pts_names::Text;
use std::alloc::{AllocError, Global};

/// Adds a line to those of the session at this index, whose number is one more, for the round that has not run yet.
///
/// # Errors
///
/// Out of memory. Then nothing is said of the seats.
pub fn add_line<P, Q>(seats: &mut [Seat<P, Q>], index: usize, text: Text) -> Result<(), AllocError>
    requires known { index < length seats.old }
    requires few { length seats.old ≤ 64 }
    ensures lines { OnOk result ((lines : List (ℕ × List ℕ)) → HaveLines 1 lines seats.old → HaveLines 1 (lines ++ (index + 1, text) ∷ []) seats.new) }
    ensures clear { OnOk result (AllClear seats.old → AllClear seats.new) }
    ensures players { OnOk result (players seats.new ≡ players seats.old) }
{
    push_line(&mut seats[index], text)
}

// Adds a line to those of a session.
fn push_line<P, Q>(seat: &mut Seat<P, Q>, text: Text) -> Result<(), AllocError>
    ensures lines { OnOk result (seat.new.lines.items ≡ seat.old.lines.items ++ text ∷ []) }
    ensures player { seat.new.player ≡ seat.old.player }
    ensures next { seat.new.next ≡ seat.old.next }
    ensures replies { seat.new.replies.items ≡ seat.old.replies.items }
    ensures asked { seat.new.asked ≡ seat.old.asked }
{
    seat.lines.push(text)?;
    Ok(())
}
