ghost use Rattle.std.specs.Prelude.{◌≡◌, None, Ok, Err, IfOk};
ghost use Rattle.pts_io.specs.Files.{IsWithin};
ghost use Rattle.pts_io.specs.declared.libraries.Found.TheVariants.{Bytes, TooLong};

use crate::faults::{ReadFail, WholeFault};
use crate::libraries::{FILE_LIMIT, Found, Library};
use crate::standard::StdSource;
use crate::whole::read_whole;
use std::alloc::Global;
use std::fs;
use std::io::ErrorKind;
use std::rt::Files;

/// The files of the current folder as a library. It shows nothing of them.
#[derive(Drop)]
pub struct FolderLibrary<R> {
    rt: R,
    faults: u64,
    missing: u64,
    too_long: u64,
}

impl<R> FolderLibrary<R> {
    /// The library of this runtime's files. A name is a path from the current folder.
    pub fn new(rt: R) -> FolderLibrary<R> {
        FolderLibrary {
            rt,
            faults: 0,
            missing: 0,
            too_long: 0,
        }
    }
}

impl<R: Files> Library for FolderLibrary<R> {
    ghost state = { λ s. record { files = None; missing = s.missing; too_long = s.too_long; faults = s.faults } };

    /// A file that can't be opened for another cause than that it isn't there is a failure.
    fn read(&mut self, alloc: Global, name: &str) -> Result<Found, ReadFail> {
        let answer = read_file(&self.rt, alloc, name);
        match &answer {
            Ok(Found::Bytes(_)) | Err(ReadFail::Memory) => {}
            Ok(Found::NoFile) => self.missing = self.missing.saturating_add(1),
            Ok(Found::TooLong) => self.too_long = self.too_long.saturating_add(1),
            Err(ReadFail::Failed) => self.faults = self.faults.saturating_add(1),
        }
        answer
    }
}

fn read_file<R: Files>(rt: &R, alloc: Global, name: &str) -> Result<Found, ReadFail>
    ensures { IfOk result IsWithin }
{
    let file = match fs::open(rt, name) {
        Ok(file) => file,
        Err(error) if error.kind() == ErrorKind::NotFound => return Ok(Found::NoFile),
        Err(_) => return Err(ReadFail::Failed),
    };
    found_by(read_whole(alloc, &mut StdSource::new(file), FILE_LIMIT))
}

// What is found where an open file was read so. It is never that there is no file.
fn found_by(read: Result<Vec<u8>, WholeFault>) -> Result<Found, ReadFail>
    ensures bytes { IfOk read (λ bytes. result ≡ Ok (Bytes bytes)) }
    ensures too_long { read ≡ Err WholeFault.TooMuch → result ≡ Ok TooLong }
    ensures failed { read ≡ Err WholeFault.Failed → result ≡ Err ReadFail.Failed }
    ensures memory { read ≡ Err WholeFault.Memory → result ≡ Err ReadFail.Memory }
{
    match read {
        Ok(bytes) => Ok(Found::Bytes(bytes)),
        Err(WholeFault::TooMuch) => Ok(Found::TooLong),
        Err(WholeFault::Failed) => Err(ReadFail::Failed),
        Err(WholeFault::Memory) => Err(ReadFail::Memory),
    }
}
