ghost use Rattle.std.specs.Prelude.{◌≡◌, ◌≢◌, ◌≤◌, Err, IfOk, IfSome};
ghost use Rattle.pts_io.specs.Counts.{Rose};
ghost use Rattle.pts_io.specs.States.{LibraryState};
ghost use Rattle.pts_io.specs.Files.{file_of, missing_after, too_long_after, IsWithin, Holds};

use crate::faults::ReadFail;
use std::alloc::Global;

/// The most bytes that a file may have.
pub const FILE_LIMIT: usize = 16_777_216;

/// What stands under a name.
#[derive(Debug, Drop)]
pub enum Found {
    /// The file's bytes, at most `FILE_LIMIT`.
    Bytes(Vec<u8>),
    /// There is no such file.
    NoFile,
    /// The file has more than `FILE_LIMIT` bytes.
    TooLong,
}

/// Where files are found by their names.
pub trait Library {
    // What it shows: its files, where they are shown, and its counts.
    ghost state: { Self → LibraryState };

    /// The file of this name. No call changes the files, or whether they are shown.
    ///
    /// # Errors
    ///
    /// `Failed` only where the count of faults rose, and `Memory`.
    fn read(&mut self, alloc: Global, name: &str) -> Result<Found, ReadFail>
        ensures never_falls { (state self.old).faults ≤ (state self.new).faults }
        ensures failed { result ≡ Err ReadFail.Failed → Rose (state self.old).faults (state self.new).faults }
        ensures faults { result ≢ Err ReadFail.Failed → (state self.new).faults ≡ (state self.old).faults }
        ensures missing { (state self.new).missing ≡ missing_after (state self.old).missing result }
        ensures too_long { (state self.new).too_long ≡ too_long_after (state self.old).too_long result }

        ensures files { (state self.new).files ≡ (state self.old).files }
        ensures within { IfOk result IsWithin }
        ensures found { IfOk result (λ found. IfSome (state self.old).files (λ files. Holds (file_of files name.now) found)) };
}
