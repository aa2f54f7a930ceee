ghost use Rattle.std.specs.Prelude.{◌≡◌, ◌≤◌, false, length, IfOk};
ghost use Rattle.std.specs.List.{AllByRecursion};
ghost use Rattle.pts_replay.specs.Games.{MayGoOn};

use crate::sessions::{Register, Request, Session, Sort};
use pts_io::{Ended, MemorySink, MemorySource};
use pts_replay::{Replay, play_input};
use std::alloc::{AllocError, Global};

type Play = Replay<Session, Request, Register>;

/// How a play ended, what it printed, and how many rounds it played.
#[derive(Drop)]
struct Performance {
    ended: Ended,
    output: Vec<u8>,
    rounds: usize,
}

// 64 sessions that wait for nothing.
fn sessions(alloc: Global) -> Result<Vec<Session>, AllocError>
    ensures count { IfOk result (λ v. length v.items ≡ 64) }
    ensures free { IfOk result (λ v. AllByRecursion (λ s. s.waits ≡ false) v.items) }
{
    let mut sessions = Vec::new(alloc);
    'places: while sessions.len() < 64 {
        sessions.push(Session::new(alloc))?;
    }
    Ok(sessions)
}

// Their play over a core without names.
fn start(alloc: Global) -> Result<Play, AllocError>
    ensures { IfOk result (λ g. MayGoOn (λ s. s.waits ≡ false) (λ _ _. Unit {0}) g) }
{
    let core = Register {
        names: Vec::new(alloc),
        steps: 0,
    };
    let sessions = sessions(alloc)?;
    let play = Replay::new(alloc, core, sessions)?;
    Ok(play)
}

// The play of an input. The source gives so many bytes in a call, and the calls with these numbers fail, if they are not 0.
fn played(
    alloc: Global,
    input: &[u8],
    piece: usize,
    fails: (u64, u64),
    limit: u32,
) -> Result<Performance, AllocError>
    requires { 1 ≤ piece }
{
    let world = Sort {
        text: String::from_str(alloc, " : *")?,
    };
    let mut play = start(alloc)?;
    let bytes = Vec::from_slice(alloc, input)?;
    let mut source = MemorySource::new(bytes, piece, Vec::from_slice(alloc, &[fails.0])?);
    let mut sink = MemorySink::new(alloc, 1000, Vec::from_slice(alloc, &[fails.1])?)?;
    let ended = play_input(
        alloc,
        &world,
        &mut play,
        &mut source,
        &mut sink,
        true,
        limit,
    );
    Ok(Performance {
        ended,
        output: Vec::from_slice(alloc, sink.bytes())?,
        rounds: play.orders.len(),
    })
}

// Whether the play ended so, and printed this in so many rounds.
fn is(
    played: &Result<Performance, AllocError>,
    ended: Ended,
    rounds: usize,
    output: &[u8],
) -> bool {
    match played {
        Ok(played) => {
            played.ended == ended && played.rounds == rounds && played.output.as_slice() == output
        }
        Err(_) => false,
    }
}

// Whether the whole input prints this in so many rounds, whatever the source gives in a call.
fn prints(alloc: Global, input: &[u8], rounds: usize, output: &[u8]) -> bool {
    is(
        &played(alloc, input, 1000, (0, 0), 100_000),
        Ended::Whole,
        rounds,
        output,
    ) && is(
        &played(alloc, input, 1, (0, 0), 100_000),
        Ended::Whole,
        rounds,
        output,
    )
}

/// Both sessions assume and commit one name.
const BOTH: &[u8] =
    b"@1 assume A : *\n@1 commit\n@2 look\n@2 assume A : *\n@2 commit\n@1 look\ngo 2 1 2 1\n";

const BOTH_PRINTED: &[u8] =
    b"@1 assumed A : *\n@1 committed 0 1\n@1 seen 1\n@2 seen 0\n@2 assumed A : *\n@2 refused Clash A 0\norder 2 1 2 1\ndone 1\n";

#[test]
fn the_numbers_after_go_choose_whose_call_is_next(rt: HostRuntime) {
    let alloc = rt.alloc();
    assert!(rt; prints(alloc, BOTH, 1, BOTH_PRINTED));
    assert!(rt;
        prints(
            alloc,
            b"@1 assume A : *\n@1 commit\n@2 look\n@2 assume A : *\n@2 commit\n@1 look\ngo 1 2 1 2\n",
            1,
            b"@1 assumed A : *\n@1 committed 0 1\n@1 seen 1\n@2 seen 1\n@2 refused Taken A 0\n@2 refused NothingToCommit\norder 1 2 1\ndone 1\n",
        )
    );
}

#[test]
fn a_bad_line_is_answered_at_once_and_the_last_round_runs(rt: HostRuntime) {
    let alloc = rt.alloc();
    let printed = b"refused line 1\nrefused line 2\n@1 seen 0\norder 1\ndone 1\n".as_slice();
    assert!(rt; prints(alloc, b"@65 look\n@1\n@1 look\nend\n", 1, printed));
    assert!(rt;
        prints(
            alloc,
            b"@65 look\n@1\n@1 look\nend\n@2 look\ngo\n",
            1,
            printed
        )
    );
    assert!(rt; prints(alloc, b"@65 look\r\n@1\r\n@1 look", 1, printed));
}

#[test]
fn a_round_without_lines_prints_its_order_and_number(rt: HostRuntime) {
    assert!(rt;
        prints(
            rt.alloc(),
            b"go\n@1 undo\n",
            2,
            b"order\ndone 1\n@1 refused NotBuilt\norder\ndone 2\n",
        )
    );
    assert!(rt; prints(rt.alloc(), b"", 0, b""));
    assert!(rt; prints(rt.alloc(), b"end", 0, b""));
}

#[test]
fn go_takes_numbers_of_sessions_each_after_one_blank(rt: HostRuntime) {
    assert!(rt;
        prints(
            rt.alloc(),
            b"go 0\ngo 01\ngo 65\ngo  1\ngo \ngo 1 \n go\ngo\t1\nend\r",
            0,
            b"refused line 1\nrefused line 2\nrefused line 3\nrefused line 4\nrefused line 5\nrefused line 6\nrefused line 7\nrefused line 8\nrefused line 9\n",
        )
    );
    assert!(rt;
        prints(
            rt.alloc(),
            b"@64 look\n@1 look\ngo 64 2 64\n@1 ",
            2,
            b"@1 seen 0\n@64 seen 0\norder 64 1\ndone 1\n@1 refused NotBuilt\norder\ndone 2\n",
        )
    );
}

// A line of session 1 of so many bytes.
fn line_of(alloc: Global, length: usize) -> Result<Vec<u8>, AllocError> {
    let mut line = Vec::from_slice(alloc, b"@1 ")?;
    line.resize(length, b'x')?;
    Ok(line)
}

fn prints_for(
    alloc: Global,
    line: &Result<Vec<u8>, AllocError>,
    rounds: usize,
    output: &[u8],
) -> bool {
    match line {
        Ok(line) => {
            is(
                &played(alloc, line.as_slice(), 1000, (0, 0), 100_000),
                Ended::Whole,
                rounds,
                output,
            )
        }
        Err(_) => false,
    }
}

#[test]
fn a_line_has_at_most_65536_bytes(rt: HostRuntime) {
    let alloc = rt.alloc();
    let printed = b"@1 refused NotBuilt\norder\ndone 1\n";
    assert!(rt; prints_for(alloc, &line_of(alloc, 65_536), 1, printed));
    assert!(rt; prints_for(alloc, &line_of(alloc, 65_537), 0, b"refused line 1\n"));
}

// Whether a sink that fails at this call has the first so many bytes of what is printed.
fn stops(alloc: Global, call: u64, rounds: usize, bytes: usize) -> bool {
    let written = &BOTH_PRINTED[..bytes.min(BOTH_PRINTED.len())];
    is(
        &played(alloc, BOTH, 1000, (0, call), 1000),
        Ended::WriteFailed,
        rounds,
        written,
    )
}

#[test]
fn a_sink_that_fails_has_the_lines_before(rt: HostRuntime) {
    let alloc = rt.alloc();
    let ends: [usize; 8] = [0, 17, 34, 44, 54, 71, 92, 106];
    for (place, bytes) in ends.iter().enumerate() {
        assert!(rt; stops(alloc, place as u64 + 1, 1, *bytes));
    }
}

#[test]
fn a_round_that_has_not_run_is_dropped_where_reading_fails(rt: HostRuntime) {
    let alloc = rt.alloc();
    let input = b"go\n@1 look\n@2 look";
    let printed = b"order\ndone 1\n";
    assert!(rt;
        is(
            &played(alloc, input, 4, (5, 0), 100),
            Ended::ReadFailed,
            1,
            printed
        )
    );
    assert!(rt;
        is(
            &played(alloc, input, 4, (0, 0), 17),
            Ended::TooMuch,
            1,
            printed
        )
    );
    assert!(rt;
        is(
            &played(alloc, input, 4, (1, 0), 100),
            Ended::ReadFailed,
            0,
            b""
        )
    );
}
