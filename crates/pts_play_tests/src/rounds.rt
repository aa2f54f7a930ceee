ghost use Rattle.std.specs.Prelude.{◌≡◌, ◌≤◌, ◌<◌, IfOk, OnOk, All};
ghost use Rattle.pts_play_tests.specs.Sessions.{AreReady};

use crate::sessions::{Register, Request, Session, Sort};
use pts_names::Text;
use pts_play::{
    Seat, add_line, close_round, done_line, lines_say_one_thing, order_line, play_round,
    played_rounds_are_turns, reply_line, rounds_are_merged, rounds_are_turns, run_through,
    served_inputs_are_played,
};
use std::alloc::{AllocError, Global};

type Place = Seat<Session, Request>;

fn text_of(alloc: Global, text: &str) -> Result<Text, AllocError> {
    Ok(Text::of(String::from_str(alloc, text)?))
}

fn star(alloc: Global) -> Result<Sort, AllocError> {
    let text = String::from_str(alloc, " : *")?;
    Ok(Sort { text })
}

fn no_names(alloc: Global) -> Register {
    Register {
        names: Vec::new(alloc),
        steps: 0,
    }
}

// Two sessions, at their seats.
fn two(alloc: Global) -> Result<Vec<Place>, AllocError>
    ensures { IfOk result (λ seats. AreReady (λ s. s.waits) seats.items) }
{
    let mut seats = Vec::new(alloc);
    seats.push(Seat::new(alloc, Session::new(alloc)))?;
    seats.push(Seat::new(alloc, Session::new(alloc)))?;
    Ok(seats)
}

// One more line of the session at an index.
fn say(alloc: Global, seats: &mut [Place], index: usize, text: &str) -> Result<(), AllocError>
    requires ready { AreReady (λ s. s.waits) seats.old }
    requires known { index < 2 }
    ensures { OnOk result (AreReady (λ s. s.waits) seats.new) }
{
    add_line(seats, index, text_of(alloc, text)?)
}

// The lines of a round in which both sessions assume and commit a name, and look.
fn both(alloc: Global) -> Result<Vec<Place>, AllocError>
    ensures { IfOk result (λ seats. AreReady (λ s. s.waits) seats.items) }
{
    let mut seats = two(alloc)?;
    let all = seats.as_mut_slice();
    say(alloc, all, 0, "assume A : *")?;
    say(alloc, all, 0, "commit")?;
    say(alloc, all, 1, "look")?;
    say(alloc, all, 1, "assume A : *")?;
    say(alloc, all, 1, "commit")?;
    say(alloc, all, 0, "look")?;
    Ok(seats)
}

// What is printed for a round of these seats.
fn round(
    alloc: Global,
    core: &mut Register,
    seats: &mut [Place],
    numbers: &[u32],
    number: u64,
) -> Result<String, AllocError>
    requires ready { AreReady (λ s. s.waits) seats.old }
    requires numbers { All (λ n. (1 ≤ n) × (n ≤ 2)) numbers.now }
    ensures { OnOk result (AreReady (λ s. s.waits) seats.new) }
{
    let world = star(alloc)?;
    let order = play_round(alloc, &world, core, seats, numbers)?;
    let lines = close_round(alloc, seats, order.as_slice(), number)?;
    joined(alloc, lines.as_slice())
}

// The lines, one after another.
fn joined(alloc: Global, lines: &[Text]) -> Result<String, AllocError> {
    let mut all = String::new(alloc);
    for line in lines {
        all.push_str(line.text())?;
    }
    Ok(all)
}

fn both_played(alloc: Global, numbers: &[u32]) -> Result<String, AllocError>
    requires { All (λ n. (1 ≤ n) × (n ≤ 2)) numbers.now }
{
    let mut core = no_names(alloc);
    let mut seats = both(alloc)?;
    round(alloc, &mut core, seats.as_mut_slice(), numbers, 1)
}

// The rounds of one look, and of no line.
fn two_played(alloc: Global) -> Result<String, AllocError> {
    let mut core = no_names(alloc);
    let mut seats = two(alloc)?;
    say(alloc, seats.as_mut_slice(), 0, "look")?;
    let mut lines = round(alloc, &mut core, seats.as_mut_slice(), &[], 1)?;
    let more = round(alloc, &mut core, seats.as_mut_slice(), &[], 2)?;
    lines.push_str(more.as_str())?;
    Ok(lines)
}

#[test]
fn the_numbers_choose_whose_call_is_next(rt: HostRuntime) {
    assert!(rt;
        is(
            &both_played(rt.alloc(), &[2, 1, 2, 1]),
            "@1 assumed A : *\n@1 committed 0 1\n@1 seen 1\n@2 seen 0\n@2 assumed A : *\n@2 refused Clash A 0\norder 2 1 2 1\ndone 1\n"
        )
    );
}

#[test]
fn a_number_without_a_call_is_passed_over(rt: HostRuntime) {
    assert!(rt;
        is(
            &both_played(rt.alloc(), &[1, 2, 1, 2]),
            "@1 assumed A : *\n@1 committed 0 1\n@1 seen 1\n@2 seen 1\n@2 refused Taken A 0\n@2 refused NothingToCommit\norder 1 2 1\ndone 1\n"
        )
    );
}

#[test]
fn after_the_numbers_sessions_run_in_rising_order(rt: HostRuntime) {
    assert!(rt;
        is(
            &both_played(rt.alloc(), &[2]),
            "@1 assumed A : *\n@1 committed 0 1\n@1 seen 1\n@2 seen 0\n@2 assumed A : *\n@2 refused Clash A 0\norder 2 1 1 2\ndone 1\n"
        )
    );
}

#[test]
fn a_round_begins_without_the_lines_of_the_last(rt: HostRuntime) {
    assert!(rt;
        is(
            &two_played(rt.alloc()),
            "@1 seen 0\norder 1\ndone 1\norder\ndone 2\n"
        )
    );
}

// The replies of a session that runs alone.
fn ran_alone(alloc: Global) -> Result<String, AllocError> {
    let world = star(alloc)?;
    let mut core = no_names(alloc);
    let mut seat: Place = Seat::new(alloc, Session::new(alloc));
    seat.lines.push(text_of(alloc, "assume B : *")?)?;
    seat.lines.push(text_of(alloc, "commit")?)?;
    run_through(alloc, &world, &mut core, &mut seat, 7)?;
    joined(alloc, seat.replies.as_slice())
}

#[test]
fn a_session_runs_through_its_lines(rt: HostRuntime) {
    assert!(rt; is(&ran_alone(rt.alloc()), "assumed B : *committed 0 1"));
}

fn is(line: &Result<String, AllocError>, wanted: &str) -> bool {
    match line {
        Ok(line) => line.as_str() == wanted,
        Err(_) => false,
    }
}

#[test]
fn lines_of_a_round_are_printed(rt: HostRuntime) {
    let alloc = rt.alloc();
    assert!(rt; is(&reply_line(alloc, 64, "yes"), "@64 yes\n"));
    assert!(rt; is(&order_line(alloc, &[1, 64]), "order 1 64\n"));
    assert!(rt; is(&done_line(alloc, 10), "done 10\n"));
}

#[test]
fn laws_of_rounds_are_called(_rt: HostRuntime) {
    rounds_are_merged::<Session>();
    rounds_are_turns::<Session>();
    played_rounds_are_turns::<Session>();
    lines_say_one_thing::<Session>();
    served_inputs_are_played::<Session>();
}
