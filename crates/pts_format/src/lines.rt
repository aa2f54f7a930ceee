ghost use Rattle.std.specs.Prelude.{◌≡◌, ◌≢◌, ◌≤◌, ℕ, List, length, IfSome};
ghost use Rattle.std.specs.Io.KnownBytes.{IsAtEnd};
ghost use Rattle.pts_io.specs.Counts.{raised, Rose};
ghost use Rattle.pts_io.specs.declared.ended.Ended.{Ended};
ghost use Rattle.pts_io.specs.Ends.{IsCount};
ghost use Rattle.pts_format.specs.Ends.{Shows, EndAnswers};

use crate::text::answer_input;
use pts_ctx::System;
use pts_io::{Ended, LineReader, ReadFail, Sink, Source, write_whole};
use std::alloc::Global;

/// Reads the source line by line and answers each as soon as it is read: by the closed term that it says over no
/// constants, printed, or by the refusal of it. No more than `limit` bytes are read.
///
/// Answers how that came to its end. `ReadFailed` comes only where the source's count of faults rose, `WriteFailed` only
/// where the sink's did, and `TooMuch` exactly where a byte after the limit was taken. Each line that was read whole was
/// answered before. Where the source doesn't show its bytes, there are some that are answered so.
pub fn format_lines<S: Source, K: Sink>(
    alloc: Global,
    system: &System,
    source: &mut S,
    sink: &mut K,
    limit: u32,
) -> Ended
    ensures read_failed { result ≡ Ended.ReadFailed → Rose (S.state source.old).faults (S.state source.new).faults }
    ensures reads { result ≢ Ended.ReadFailed → (S.state source.new).faults ≡ (S.state source.old).faults }
    ensures write_failed { result ≡ Ended.WriteFailed → Rose (K.state sink.old).faults (K.state sink.new).faults }
    ensures writes { result ≢ Ended.WriteFailed → (K.state sink.new).faults ≡ (K.state sink.old).faults }
    ensures end { result ≡ Ended.Whole → IsAtEnd (S.state source.new).left }
    ensures lines { (n : ℕ) × ((S.state source.new).given ≡ raised (S.state source.old).given n) × IsCount limit result n
        × ((bytes : List ℕ) × (out : List ℕ) × IfSome (S.state source.old).left (λ all. bytes ≡ all) × (n ≤ length bytes)
        × Shows result (K.state sink.old).written (K.state sink.new).written out
        × EndAnswers system.now.sorts limit result n bytes out) }
{
    let Ok(mut reader) = LineReader::new(alloc, u64::from(limit)) else {
        return Ended::NoMemory;
    };
    // (a line has a byte at least, so no more lines come)
    for before in 0..u64::from(limit) + 1 {
        let input = match reader.next(source) {
            Ok(input) => input,
            Err(ReadFail::Failed) => return Ended::ReadFailed,
            Err(ReadFail::Memory) => return Ended::NoMemory,
        };
        let line = match answer_input(alloc, system, before + 1, &input) {
            Ok(line) => line,
            Err(ended) => return ended,
        };
        let Ok(()) = write_whole(sink, line.as_bytes()) else {
            return Ended::WriteFailed;
        };
    }
    Ended::NoMemory
}
