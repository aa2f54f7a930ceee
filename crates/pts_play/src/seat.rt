ghost use Rattle.std.specs.Prelude.{ℕ, List, IfOk, OnOk, ◌≡◌, ◌≤◌, ◌<◌, ◌+◌, ◌++◌, ◌∷◌, [], None, Some, length};
ghost use Rattle.pts_play.specs.Machines.{Outcome, done, asks, Runs, Call};
ghost use Rattle.pts_play.specs.Seats.{position_of, RunsOn, Rests, Unsettled, replies_in, asked_in, rank, Hears, Turn};

use crate::machines::{Local, Player, Table};
use pts_names::Text;
use std::alloc::{AllocError, Global};

/// The seat of a session in a round.
#[derive(Drop)]
pub struct Seat<P, Q> {
    pub player: P,
    /// Its lines of the round.
    pub lines: Vec<Text>,
    /// How many of them were run.
    pub next: usize,
    /// Its replies so far.
    pub replies: Vec<Text>,
    /// The request for whose answer it waits.
    pub asked: Option<Q>,
}

impl<P, Q> Seat<P, Q> {
    /// The seat of a session that has no line yet. It takes no memory.
    pub fn new(alloc: Global, player: P) -> Seat<P, Q>
        ensures player { result.player ≡ player }
        ensures lines { result.lines.items ≡ [] }
        ensures next { result.next ≡ 0 }
        ensures replies { result.replies.items ≡ [] }
        ensures asked { result.asked ≡ None }
    {
        Seat {
            player,
            lines: Vec::new(alloc),
            next: 0,
            replies: Vec::new(alloc),
            asked: None,
        }
    }
}

// Runs lines until one asks or none is left.
pub(crate) fn run_on<P: Player>(
    alloc: Global,
    world: &P::World,
    seat: &mut Seat<P, P::Request>,
) -> Result<(), AllocError>
    requires idle { seat.old.asked ≡ None }
    requires free { P.free world.now seat.old.player }
    ensures runs_on { OnOk result (RunsOn (P.local world.now) (P.resumes world.now) seat.old seat.new) }
    ensures rests { OnOk result (Rests (P.free world.now) (P.awaits world.now) seat.new) }
    ensures fits { OnOk result ((C : P.Core) → P.fits world.now seat.old.player C → P.fits world.now seat.new.player C) }
    ensures rank { OnOk result (rank seat.new ≤ rank seat.old) }
{
    while seat.asked.is_none() && seat.next < seat.lines.len() {
        run_one(alloc, world, seat)?;
    }
    Ok(())
}

// Runs the next line.
fn run_one<P: Player>(
    alloc: Global,
    world: &P::World,
    seat: &mut Seat<P, P::Request>,
) -> Result<(), AllocError>
    requires idle { seat.old.asked ≡ None }
    requires free { P.free world.now seat.old.player }
    requires some { seat.old.next < length seat.old.lines.items }
    ensures runs_on { OnOk result (RunsOn (P.local world.now) (P.resumes world.now) seat.old seat.new) }
    ensures unsettled { OnOk result (Unsettled (P.free world.now) (P.awaits world.now) seat.new) }
    ensures fits { OnOk result ((C : P.Core) → P.fits world.now seat.old.player C → P.fits world.now seat.new.player C) }
    ensures lines { OnOk result (seat.new.lines.items ≡ seat.old.lines.items) }
    ensures next { OnOk result (seat.new.next ≡ seat.old.next + 1) }
{
    let place = seat.next;
    let local = seat
        .player
        .run_local(alloc, world, seat.lines[place].text())?;
    seat.next = place + 1;
    note(seat, local)
}

// Notes what a line came to.
fn note<P, Q: Drop>(seat: &mut Seat<P, Q>, local: Local<Q>) -> Result<(), AllocError>
    requires idle { seat.old.asked ≡ None }
    ensures player { seat.new.player ≡ seat.old.player }
    ensures lines { seat.new.lines.items ≡ seat.old.lines.items }
    ensures next { seat.new.next ≡ seat.old.next }
    ensures replies { OnOk result (seat.new.replies.items ≡ seat.old.replies.items ++ replies_in local) }
    ensures asked { OnOk result (seat.new.asked ≡ asked_in local) }
{
    match local {
        Local::Done(replies) => append(&mut seat.replies, replies),
        Local::Ask(request) => {
            seat.asked = Some(request);
            Ok(())
        }
    }
}

// Adds replies after the others.
fn append(replies: &mut Vec<Text>, more: Vec<Text>) -> Result<(), AllocError>
    ensures { OnOk result (replies.new.items ≡ replies.old.items ++ more.items) }
{
    let mut more = more;
    replies.append(&mut more)
}

// The turn of a session: if it waits, its request is the core's next event, and it runs on. Answers whether it waited.
pub(crate) fn take_turn<P: Player>(
    alloc: Global,
    world: &P::World,
    core: &mut P::Core,
    seat: &mut Seat<P, P::Request>,
    number: u32,
) -> Result<bool, AllocError>
    requires rests { Rests (P.free world.now) (P.awaits world.now) seat.old }
    requires fits { P.fits world.now seat.old.player core.old }
    ensures turn { IfOk result (λ taken. Turn (P.local world.now) (P.resumes world.now) P.Core.steps (P.free world.now) (P.awaits world.now) (P.fits world.now) number core.old seat.old taken core.new seat.new) }
    ensures keeps { P.Core.keeps core.old core.new }
{
    if seat.asked.is_none() {
        return Ok(false);
    }
    let Some(request) = seat.asked.take() else {
        unreachable!()
    };
    let answer = core.step(alloc, number, request)?;
    hear(alloc, world, seat, answer)?;
    Ok(true)
}

// Gives a session the answer for which it waits, and runs on.
fn hear<P: Player>(
    alloc: Global,
    world: &P::World,
    seat: &mut Seat<P, P::Request>,
    answer: P::Answer,
) -> Result<(), AllocError>
    requires idle { seat.old.asked ≡ None }
    requires takes { P.takes world.now seat.old.player answer }
    requires free { (t : P) (out : List (List ℕ)) → P.resumes world.now seat.old.player answer out t → P.free world.now t }
    ensures hears { OnOk result (Hears (P.local world.now) (P.resumes world.now) seat.old answer seat.new) }
    ensures rests { OnOk result (Rests (P.free world.now) (P.awaits world.now) seat.new) }
    ensures resumed { OnOk result ((t : P) × (out : List (List ℕ)) × P.resumes world.now seat.old.player answer out t × ((C : P.Core) → P.fits world.now t C → P.fits world.now seat.new.player C)) }
    ensures rank { OnOk result (rank seat.new ≤ rank seat.old) }
{
    hear_only(alloc, world, seat, answer)?;
    run_on(alloc, world, seat)
}

// Gives a session the answer, and notes the replies.
fn hear_only<P: Player>(
    alloc: Global,
    world: &P::World,
    seat: &mut Seat<P, P::Request>,
    answer: P::Answer,
) -> Result<(), AllocError>
    requires idle { seat.old.asked ≡ None }
    requires takes { P.takes world.now seat.old.player answer }
    ensures idle { seat.new.asked ≡ None }
    ensures lines { seat.new.lines.items ≡ seat.old.lines.items }
    ensures next { seat.new.next ≡ seat.old.next }
    ensures resumed { OnOk result ((out : List (List ℕ)) × P.resumes world.now seat.old.player answer out seat.new.player × (seat.new.replies.items ≡ seat.old.replies.items ++ out)) }
{
    let replies = seat.player.resume(alloc, world, answer)?;
    append(&mut seat.replies, replies)
}
