ghost use Rattle.std.specs.Prelude.{None};

use crate::faults::Fail;
use crate::sinks::Sink;
use crate::sources::Source;
use std::io::{Read, Stdin, Stdout, Write};

/// Standard input, or another reader, as a source. It shows nothing of its bytes.
#[derive(Drop)]
pub struct StdSource<R = Stdin> {
    reader: R,
    given: u64,
    faults: u64,
}

impl<R> StdSource<R> {
    /// The source of this reader's bytes, as of `rt.stdin()`.
    pub fn new(reader: R) -> StdSource<R> {
        StdSource {
            reader,
            given: 0,
            faults: 0,
        }
    }
}

impl<R: Read> Source for StdSource<R> {
    ghost state = { λ s. record { left = None; given = s.given; faults = s.faults } };

    /// Reads once.
    fn take(&mut self, buffer: &mut [u8]) -> Result<usize, Fail> {
        match self.reader.read(buffer) {
            Ok(count) => {
                self.given = self.given.saturating_add(count as u64);
                Ok(count)
            }
            Err(_) => {
                self.faults = self.faults.saturating_add(1);
                Err(Fail::Failed)
            }
        }
    }
}

/// Standard output, or another writer, as a sink. It shows nothing of its bytes.
#[derive(Drop)]
pub struct StdSink<W = Stdout> {
    writer: W,
    faults: u64,
}

impl<W> StdSink<W> {
    /// The sink of this writer, as of `rt.stdout()`.
    pub fn new(writer: W) -> StdSink<W> {
        StdSink { writer, faults: 0 }
    }
}

impl<W: Write> Sink for StdSink<W> {
    ghost state = { λ s. record { written = None; faults = s.faults } };

    /// Writes once.
    fn put(&mut self, bytes: &[u8]) -> Result<usize, Fail> {
        let outcome = self.writer.write(bytes);
        let is_stuck = matches!(&outcome, Ok(0)) && !bytes.is_empty();
        if outcome.is_err() || is_stuck {
            self.faults = self.faults.saturating_add(1);
        }
        outcome.map_err(|_| Fail::Failed)
    }
}
