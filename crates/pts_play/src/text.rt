ghost use Rattle.std.specs.Prelude.{◌≡◌, ◌≤◌, ◌+◌, ◌++◌, ◌∷◌, [], None, length, map, string_bytes, IfOk, OnOk, codes};
ghost use Rattle.std.specs.Fmt.{decimal};
ghost use Rattle.pts_play.specs.Rounds.{reply_line, order_line, done_line};
ghost use Rattle.pts_play.specs.Play.{full_line};
ghost use Rattle.pts_play.specs.Turns.{AllClear, IsClear, NoLines, NoneWaits, players, replies_of};

use crate::seat::Seat;
use pts_names::Text;
use std::alloc::{AllocError, Global};

/// A reply of the session with this number, as it is printed, with a line feed.
pub fn reply_line(alloc: Global, number: u32, reply: &str) -> Result<String, AllocError>
    ensures { IfOk result (λ s. string_bytes s ≡ full_line (reply_line number reply.now)) }
{
    let mut line = format!(in alloc; "@{number} {reply}")?;
    line.push_str("\n")?;
    Ok(line)
}

/// The order of a round, as it is printed, with a line feed.
pub fn order_line(alloc: Global, order: &[u32]) -> Result<String, AllocError>
    ensures { IfOk result (λ s. string_bytes s ≡ full_line (order_line order.now)) }
{
    let mut line = String::from_str(alloc, "order")?;
    for number in order {
        push_number(alloc, &mut line, *number)?;
    }
    line.push_str("\n")?;
    Ok(line)
}

// Adds a blank and a number.
fn push_number(alloc: Global, line: &mut String, number: u32) -> Result<(), AllocError>
    ensures { OnOk result (string_bytes line.new ≡ string_bytes line.old ++ (codes " " ++ decimal number)) }
{
    let word = format!(in alloc; " {number}")?;
    line.push_str(word.as_str())
}

/// The last line of the round with this number, as it is printed, with a line feed.
pub fn done_line(alloc: Global, number: u64) -> Result<String, AllocError>
    ensures { IfOk result (λ s. string_bytes s ≡ full_line (done_line number)) }
{
    let mut line = format!(in alloc; "done {number}")?;
    line.push_str("\n")?;
    Ok(line)
}

/// The lines that are printed for a round that has run: the replies of the sessions, the order, and the number of the round.
/// They leave the seats, which are clear for the next round.
///
/// # Errors
///
/// Out of memory. Then the sessions are as before, and nothing is said of their lines and replies.
pub fn close_round<P, Q>(
    alloc: Global,
    seats: &mut [Seat<P, Q>],
    order: &[u32],
    number: u64,
) -> Result<Vec<Text>, AllocError>
    requires few { length seats.old ≤ 64 }
    requires idle { NoneWaits seats.old }
    ensures lines { IfOk result (λ lines. lines.items ≡ map full_line (replies_of 1 seats.old ++ order_line order.now ∷ done_line number ∷ [])) }
    ensures clear { OnOk result (AllClear seats.new) }
    ensures bare { OnOk result (NoLines seats.new) }
    ensures players { players seats.new ≡ players seats.old }
{
    let mut lines = Vec::new(alloc);
    take_replies(alloc, seats, 1, &mut lines)?;
    lines.push(Text::of(order_line(alloc, order)?))?;
    lines.push(Text::of(done_line(alloc, number)?))?;
    Ok(lines)
}

// The replies at the seats, of which the first has this number, are put after the lines.
fn take_replies<P, Q>(
    alloc: Global,
    seats: &mut [Seat<P, Q>],
    number: u32,
    lines: &mut Vec<Text>,
) -> Result<(), AllocError>
    requires few { number + length seats.old ≤ 65 }
    requires idle { NoneWaits seats.old }
    ensures lines { OnOk result (lines.new.items ≡ lines.old.items ++ map full_line (replies_of number seats.old)) }
    ensures clear { OnOk result (AllClear seats.new) }
    ensures bare { OnOk result (NoLines seats.new) }
    ensures players { players seats.new ≡ players seats.old }
{
    if let Some((seat, rest)) = seats.split_first_mut() {
        print_replies(alloc, seat.replies.as_slice(), number, lines)?;
        clear(alloc, seat);
        take_replies(alloc, rest, number + 1, lines)?;
    }
    Ok(())
}

// Takes lines and replies away from a seat that doesn't wait.
fn clear<P, Q>(alloc: Global, seat: &mut Seat<P, Q>)
    requires idle { seat.old.asked ≡ None }
    ensures clear { IsClear seat.new }
    ensures bare { seat.new.lines.items ≡ [] }
    ensures player { seat.new.player ≡ seat.old.player }
{
    seat.lines = Vec::new(alloc);
    seat.next = 0;
    seat.replies = Vec::new(alloc);
}

// Puts the replies of the session with this number after the lines.
fn print_replies(
    alloc: Global,
    replies: &[Text],
    number: u32,
    lines: &mut Vec<Text>,
) -> Result<(), AllocError>
    ensures { OnOk result (lines.new.items ≡ lines.old.items ++ map full_line (map (reply_line number) replies.now)) }
{
    for reply in replies {
        let line = reply_line(alloc, number, reply.text())?;
        lines.push(Text::of(line))?;
    }
    Ok(())
}
