ghost use Rattle.std.specs.Prelude.{◌≡◌, ◌+◌, ◌≤◌, ◌↔◌, ◌++◌, [], Some, length, take, drop, min, is_err, IsErr, IfOk};
ghost use Rattle.pts_io.specs.Counts.{raised};
ghost use Rattle.pts_io.specs.Calls.{FailsNext, counted, moved, is_fault};

use crate::faults::Fail;
use crate::schedule::Schedule;
use crate::sinks::Sink;
use crate::sources::Source;
use std::alloc::{AllocError, Global};
use std::marker::Model;

/// A source over bytes in memory, which fails at chosen calls.
#[derive(Debug, Drop)]
pub struct MemorySource {
    bytes: Vec<u8>,
    at: usize,
    piece: usize,
    schedule: Schedule,
}

impl Model for MemorySource {
    ghost use Rattle.std.specs.Prelude.{◌≤◌, drop, vec_len};
    ghost use Rattle.pts_io.specs.Fakes.{Stock};

    ghost Value = { Stock };

    ghost view = { λ s. record { left = drop s.at s.bytes.items; given = s.at; piece = s.piece; calls = s.schedule } };

    ghost invariant = { λ s. (s.at ≤ vec_len s.bytes) × (1 ≤ s.piece) };
}

impl MemorySource {
    /// Gives these bytes, at most `piece` in a call, and fails at the listed calls, counted from 1.
    /// Takes no memory.
    pub fn new(bytes: Vec<u8>, piece: usize, fail_at: Vec<u64>) -> MemorySource
        requires { 1 ≤ piece }
        ensures left { result.left ≡ bytes.items }
        ensures given { result.given ≡ 0 }
        ensures piece { result.piece ≡ piece }
        ensures calls { result.calls ≡ record { made = 0; faults = 0; fail_at = fail_at.items } }
    {
        MemorySource {
            bytes,
            at: 0,
            piece,
            schedule: Schedule::new(fail_at),
        }
    }
}

impl Source for MemorySource {
    ghost state = { λ s. record { left = Some s.left; given = s.given; faults = s.calls.faults } };

    /// Fails at the listed calls alone, and gives as many bytes as it may.
    fn take(&mut self, buffer: &mut [u8]) -> Result<usize, Fail>
        ensures fails { IsErr result ↔ FailsNext self.old.calls }
        ensures calls { self.new.calls ≡ counted self.old.calls (is_err result) }
        ensures piece { self.new.piece ≡ self.old.piece }
        ensures not_empty { 1 ≤ self.old.piece }

        ensures count { IfOk result (λ n. n ≡ min (length self.old.left) (min self.old.piece (length buffer.old))) }
        ensures left { self.new.left ≡ drop (moved result) self.old.left }
        ensures given { self.new.given ≡ raised self.old.given (moved result) }
        ensures buffer { buffer.new ≡ take (moved result) self.old.left ++ drop (moved result) buffer.old }
    {
        if self.schedule.fails() {
            return Err(Fail::Failed);
        }
        let rest = &self.bytes[self.at..];
        let count = rest.len().min(self.piece).min(buffer.len());
        buffer[..count].copy_from_slice(&rest[..count]);
        self.at += count;
        Ok(count)
    }
}

/// A sink into memory, which fails at chosen calls.
#[derive(Debug, Drop)]
pub struct MemorySink {
    bytes: Vec<u8>,
    room: usize,
    schedule: Schedule,
}

impl Model for MemorySink {
    ghost use Rattle.std.specs.Prelude.{◌≤◌, ◌+◌, vec_len, vec_capacity};
    ghost use Rattle.pts_io.specs.Fakes.{Store};

    ghost Value = { Store };

    ghost view = { λ s. record { written = s.bytes.items; room = s.room; calls = s.schedule } };

    ghost invariant = { λ s. vec_len s.bytes + s.room ≤ vec_capacity s.bytes };
}

impl MemorySink {
    /// Has room for so many bytes, which it takes now, and fails at the listed calls, counted from 1.
    pub fn new(alloc: Global, room: usize, fail_at: Vec<u64>) -> Result<MemorySink, AllocError>
        ensures written { IfOk result (λ sink. sink.written ≡ []) }
        ensures room { IfOk result (λ sink. sink.room ≡ room) }
        ensures calls { IfOk result (λ sink. sink.calls ≡ record { made = 0; faults = 0; fail_at = fail_at.items }) }
    {
        Ok(MemorySink {
            bytes: Vec::with_capacity(alloc, room)?,
            room,
            schedule: Schedule::new(fail_at),
        })
    }

    /// What was written.
    pub fn bytes(&self) -> &[u8]
        ensures { result.now ≡ self.now.written }
    {
        self.bytes.as_slice()
    }
}

impl Sink for MemorySink {
    ghost state = { λ s. record { written = Some s.written; faults = s.calls.faults } };

    /// Fails at the listed calls alone, and takes as many bytes as it has room for. Takes no memory.
    fn put(&mut self, bytes: &[u8]) -> Result<usize, Fail>
        ensures fails { IsErr result ↔ FailsNext self.old.calls }
        ensures calls { self.new.calls ≡ counted self.old.calls (is_fault result bytes.now) }

        ensures count { IfOk result (λ n. n ≡ min (length bytes.now) self.old.room) }
        ensures written { self.new.written ≡ self.old.written ++ take (moved result) bytes.now }
        ensures room { self.new.room + moved result ≡ self.old.room }
    {
        if self.schedule.fails() {
            return Err(Fail::Failed);
        }
        let count = bytes.len().min(self.room);
        if count == 0 && !bytes.is_empty() {
            self.schedule.fault();
        }
        let Ok(()) = self.bytes.extend_from_slice(&bytes[..count]) else {
            unreachable!()
        };
        self.room -= count;
        Ok(count)
    }
}
