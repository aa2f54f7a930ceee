ghost use Rattle.std.specs.Prelude.{◌≡◌, ◌≢◌, ◌≤◌, ℕ, List, length, take, true, All, OnOk, OnErr, IfSome};
ghost use Rattle.std.specs.Io.KnownBytes.{append_known};
ghost use Rattle.pts_io.specs.Counts.{raised, Rose};
ghost use Rattle.pts_io.specs.declared.ended.Ended.{Ended};
ghost use Rattle.pts_io.specs.Ends.{IsCount};
ghost use Rattle.pts_play.specs.Inputs.{IsSession};
ghost use Rattle.pts_play.specs.Play.{Playing};
ghost use Rattle.pts_replay.specs.Endings.{EndPlays, Shows, LeftAt};
ghost use Rattle.pts_replay.specs.Replies.{joined};

use crate::game::Game;
use crate::reply::answer_input;
use pts_io::{Ended, Fail, LineReader, ReadFail, Sink, Source, write_whole};
use pts_names::Text;
use std::alloc::Global;

/// Reads the source line by line, and plays it: a line of a session is added to the next round, `go` runs the round, `end`
/// ends the run, and any other line is refused. At the end the round runs that has not run, if it has a line. At most one byte
/// after the first `limit` is taken, and it is not played. What a line prints is printed before the next one is read, which no
/// clause says.
///
/// Answers how that came to its end. `ReadFailed` comes only where the source's count of faults rose, `WriteFailed` only where
/// the sink's did, and `TooMuch` exactly where a byte after the limit was taken; where the source failed or has too much, the
/// lines are played that a line feed ends, and the round that has not run does not run. `NoMemory` comes where memory ran out,
/// or where a step of the core refuses since it has no room. Where the source doesn't show its bytes, there are some that are
/// played so.
pub fn play_input<G: Game, S: Source, K: Sink>(
    alloc: Global,
    world: &G::World,
    game: &mut G,
    source: &mut S,
    sink: &mut K,
    numbered: bool,
    limit: u32,
) -> Ended
    requires ready { G.ready world.now game.old }
    requires numbers { numbered ≡ true → (ns : List ℕ) → All IsSession ns → G.takes ns }
    ensures read_failed { result ≡ Ended.ReadFailed → Rose (S.state source.old).faults (S.state source.new).faults }
    ensures reads { result ≢ Ended.ReadFailed → (S.state source.new).faults ≡ (S.state source.old).faults }
    ensures write_failed { result ≡ Ended.WriteFailed → Rose (K.state sink.old).faults (K.state sink.new).faults }
    ensures writes { result ≢ Ended.WriteFailed → (K.state sink.new).faults ≡ (K.state sink.old).faults }
    ensures plays { (n : ℕ) × ((S.state source.new).given ≡ raised (S.state source.old).given n) × IsCount limit result n
        × ((bytes : List ℕ) × (out : List ℕ) × (q : Playing G.Core G.State)
        × IfSome (S.state source.old).left (λ all. bytes ≡ all) × (n ≤ length bytes)
        × Shows result (K.state sink.old).written (K.state sink.new).written out
        × EndPlays (G.rounds world.now) numbered limit result n bytes (G.state game.old) out q × LeftAt result q (G.state game.new)) }
    ensures keeps { G.keeps game.old game.new }
{
    let Ok(mut reader) = LineReader::new(alloc, u64::from(limit)) else {
        return Ended::NoMemory;
    };
    // (a line has a byte at least, so no more lines come)
    for before in 0..u64::from(limit) + 1 {
        let input = match reader.next(source) {
            Ok(input) => input,
            Err(ReadFail::Failed) => return Ended::ReadFailed,
            Err(ReadFail::Memory) => return Ended::NoMemory,
        };
        let reply = match answer_input(alloc, world, game, numbered, before + 1, &input) {
            Ok(reply) => reply,
            Err(ended) => return ended,
        };
        let Ok(()) = print_lines(sink, reply.lines.as_slice()) else {
            return Ended::WriteFailed;
        };
        if reply.is_last {
            return Ended::Whole;
        }
    }
    Ended::NoMemory
}

// Prints the lines, which have their line feeds.
fn print_lines<K: Sink>(sink: &mut K, lines: &[Text]) -> Result<(), Fail>
    ensures faults { OnOk result ((K.state sink.new).faults ≡ (K.state sink.old).faults) }
    ensures written { OnOk result ((K.state sink.new).written ≡ append_known (K.state sink.old).written (joined lines.now)) }
    ensures failed { OnErr result (Rose (K.state sink.old).faults (K.state sink.new).faults) }
    ensures part { OnErr result ((n : ℕ) × (n ≤ length (joined lines.now)) × ((K.state sink.new).written ≡ append_known (K.state sink.old).written (take n (joined lines.now)))) }
{
    for line in lines {
        let Ok(()) = write_whole(sink, line.text().as_bytes()) else {
            return Err(Fail::Failed);
        };
    }
    Ok(())
}
