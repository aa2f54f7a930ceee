ghost use Rattle.std.specs.Prelude.{◌≡◌, ◌≢◌, ◌↔◌, map, Some, None, Err, true, false, string_bytes, IfOk, MatchOption};
ghost use Rattle.pts_io.specs.Calls.{FailsNext, counted};
ghost use Rattle.pts_io.specs.Files.{file_of, missing_after, too_long_after, IsWithin, Holds};

use crate::faults::ReadFail;
use crate::libraries::{FILE_LIMIT, Found, Library};
use crate::schedule::Schedule;
use std::alloc::Global;
use std::marker::Model;

/// A library over files in memory, which fails at chosen calls.
#[derive(Debug, Drop)]
pub struct MemoryLibrary {
    files: Vec<(String, Vec<u8>)>,
    missing: u64,
    too_long: u64,
    schedule: Schedule,
}

impl Model for MemoryLibrary {
    ghost use Rattle.std.specs.Prelude.{map, string_bytes};
    ghost use Rattle.pts_io.specs.Fakes.{Folder};

    ghost Value = { Folder };

    ghost view = { λ s. record { files = map (λ f. (string_bytes f.0, f.1.items)) s.files.items; missing = s.missing; too_long = s.too_long; calls = s.schedule } };
}

impl MemoryLibrary {
    /// Has these files, where the first of a name counts, and fails at the listed calls, counted from 1.
    /// Takes no memory.
    pub fn new(files: Vec<(String, Vec<u8>)>, fail_at: Vec<u64>) -> MemoryLibrary
        ensures files { result.files ≡ map (λ f. (string_bytes f.0, f.1.items)) files.items }
        ensures missing { result.missing ≡ 0 }
        ensures too_long { result.too_long ≡ 0 }
        ensures calls { result.calls ≡ record { made = 0; faults = 0; fail_at = fail_at.items } }
    {
        MemoryLibrary {
            files,
            missing: 0,
            too_long: 0,
            schedule: Schedule::new(fail_at),
        }
    }
}

impl Library for MemoryLibrary {
    ghost state = { λ s. record { files = Some s.files; missing = s.missing; too_long = s.too_long; faults = s.calls.faults } };

    /// Fails at the listed calls alone.
    fn read(&mut self, alloc: Global, name: &str) -> Result<Found, ReadFail>
        ensures fails { (result ≡ Err ReadFail.Failed) ↔ FailsNext self.old.calls }
        ensures failed { result ≡ Err ReadFail.Failed → self.new.calls ≡ counted self.old.calls true }
        ensures calls { result ≢ Err ReadFail.Failed → self.new.calls ≡ counted self.old.calls false }
        ensures missing { self.new.missing ≡ missing_after self.old.missing result }
        ensures too_long { self.new.too_long ≡ too_long_after self.old.too_long result }
        ensures files { self.new.files ≡ self.old.files }
        ensures within { IfOk result IsWithin }
        ensures found { IfOk result (Holds (file_of self.old.files name.now)) }
    {
        if self.schedule.fails() {
            return Err(ReadFail::Failed);
        }
        let Some(bytes) = find_file(&self.files, name) else {
            self.missing = self.missing.saturating_add(1);
            return Ok(Found::NoFile);
        };
        if bytes.len() > FILE_LIMIT {
            self.too_long = self.too_long.saturating_add(1);
            return Ok(Found::TooLong);
        }
        match Vec::from_slice(alloc, bytes) {
            Ok(copy) => Ok(Found::Bytes(copy)),
            Err(_) => Err(ReadFail::Memory),
        }
    }
}

fn find_file<'a>(files: &'a [(String, Vec<u8>)], name: &str) -> Option<&'a [u8]>
    ensures { MatchOption result
        (file_of (map (λ f. (string_bytes f.0, f.1.items)) files.now) name.now ≡ None)
        (λ bytes. file_of (map (λ f. (string_bytes f.0, f.1.items)) files.now) name.now ≡ Some bytes.now) }
{
    for (file, bytes) in files {
        if name == file.as_str() {
            return Some(bytes.as_slice());
        }
    }
    None
}
