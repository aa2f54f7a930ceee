ghost use Rattle.std.specs.Prelude.{◌≡◌, ◌≢◌, ℕ, ◌+◌, ◌<◌, ◌≤◌, length, take, drop, vec_len, Err, IfOk, OnOk, OnErr, IfSome};
ghost use Rattle.std.specs.Option.{option_map};
ghost use Rattle.std.specs.Io.KnownBytes.{append_known, IsAtEnd};
ghost use Rattle.pts_io.specs.Counts.{raised, Rose};

use crate::faults::{Fail, WholeFault};
use crate::sinks::Sink;
use crate::sources::Source;
use std::alloc::{AllocError, Global};

// How many bytes are asked for in one call, at most.
pub(crate) const PIECE: usize = 65536;

/// Takes all that the source has, if that is at most `limit` bytes.
///
/// # Errors
///
/// `Failed` only where the source's count of faults rose, `TooMuch` exactly where byte `limit` + 1
/// was taken, and `Memory`. No byte after that one is taken.
pub fn read_whole<S: Source>(
    alloc: Global,
    source: &mut S,
    limit: usize,
) -> Result<Vec<u8>, WholeFault>
    ensures never_falls { (S.state source.old).faults ≤ (S.state source.new).faults }
    ensures moved { result ≢ Err WholeFault.TooMuch → (n : ℕ) × (n ≤ limit)
        × ((S.state source.new).given ≡ raised (S.state source.old).given n)
        × ((S.state source.new).left ≡ option_map (λ all. drop n all) (S.state source.old).left) }

    ensures faults { OnOk result ((S.state source.new).faults ≡ (S.state source.old).faults) }
    ensures within { IfOk result (λ bytes. vec_len bytes ≤ limit) }
    ensures given { IfOk result (λ bytes. (S.state source.new).given ≡ raised (S.state source.old).given (vec_len bytes)) }
    ensures read { IfOk result (λ bytes. IfSome (S.state source.old).left (λ all. bytes.items ≡ all)) }
    ensures end { OnOk result (IsAtEnd (S.state source.new).left) }

    ensures too_much_faults { result ≡ Err WholeFault.TooMuch → (S.state source.new).faults ≡ (S.state source.old).faults }
    ensures too_much_given { result ≡ Err WholeFault.TooMuch → (S.state source.new).given ≡ raised (S.state source.old).given (limit + 1) }
    ensures too_much_taken { result ≡ Err WholeFault.TooMuch → (S.state source.new).left ≡ option_map (λ all. drop (limit + 1) all) (S.state source.old).left }
    ensures too_much_left { result ≡ Err WholeFault.TooMuch → IfSome (S.state source.old).left (λ all. limit < length all) }
    ensures failed { result ≡ Err WholeFault.Failed → Rose (S.state source.old).faults (S.state source.new).faults }
{
    let mut storage = piece_buffer(alloc).map_err(|_| WholeFault::Memory)?;
    let buffer = storage.as_mut_slice();
    let mut bytes = Vec::new(alloc);
    'turns: loop {
        let room = limit - bytes.len();
        let wanted = room.min(PIECE - 1) + 1;
        let Ok(count) = source.take(&mut buffer[..wanted]) else {
            return Err(WholeFault::Failed);
        };
        if count == 0 {
            return Ok(bytes);
        }
        if count > room {
            return Err(WholeFault::TooMuch);
        }
        let Ok(()) = bytes.extend_from_slice(&buffer[..count]) else {
            return Err(WholeFault::Memory);
        };
    }
}

fn piece_buffer(alloc: Global) -> Result<Vec<u8>, AllocError>
    ensures { IfOk result (λ buffer. vec_len buffer ≡ PIECE) }
{
    vec![in alloc; 0; PIECE]
}

/// Puts all of these bytes.
///
/// # Errors
///
/// `Failed` only where the sink's count of faults rose; then a first part of the bytes was written.
pub fn write_whole<K: Sink>(sink: &mut K, bytes: &[u8]) -> Result<(), Fail>
    ensures never_falls { (K.state sink.old).faults ≤ (K.state sink.new).faults }
    ensures faults { OnOk result ((K.state sink.new).faults ≡ (K.state sink.old).faults) }
    ensures written { OnOk result ((K.state sink.new).written ≡ append_known (K.state sink.old).written bytes.now) }
    ensures failed { OnErr result (Rose (K.state sink.old).faults (K.state sink.new).faults) }
    ensures part { OnErr result ((n : ℕ) × (n ≤ length bytes.now) × ((K.state sink.new).written ≡ append_known (K.state sink.old).written (take n bytes.now))) }
{
    let mut done = 0;
    while done < bytes.len() {
        let count = sink.put(&bytes[done..])?;
        if count == 0 {
            return Err(Fail::Failed);
        }
        done += count;
    }
    Ok(())
}
