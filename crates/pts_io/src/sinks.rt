ghost use Rattle.std.specs.Prelude.{◌≡◌, ◌≤◌, length, take, IfOk, OnErr};
ghost use Rattle.std.specs.Io.KnownBytes.{append_known};
ghost use Rattle.pts_io.specs.Counts.{Rose, IsStuck};
ghost use Rattle.pts_io.specs.States.{SinkState};

use crate::faults::Fail;

/// Where bytes go.
pub trait Sink {
    // What it shows: the bytes that were written, where they are shown, and its count of faults.
    ghost state: { Self → SinkState };

    /// Writes the first bytes of the piece after what was written, and answers how many. The answer
    /// 0 for a piece that isn't empty is a fault too. No call changes whether the bytes are shown.
    ///
    /// # Errors
    ///
    /// `Failed` only where the count of faults rose; then nothing was written.
    fn put(&mut self, bytes: &[u8]) -> Result<usize, Fail>
        ensures never_falls { (state self.old).faults ≤ (state self.new).faults }
        ensures failed { OnErr result (Rose (state self.old).faults (state self.new).faults) }
        ensures not_moved { OnErr result ((state self.new).written ≡ (state self.old).written) }

        ensures bound { IfOk result (λ n. n ≤ length bytes.now) }
        ensures moved { IfOk result (λ n. (state self.new).written ≡ append_known (state self.old).written (take n bytes.now)) }
        ensures stuck { IfOk result (λ n. IsStuck n bytes.now → Rose (state self.old).faults (state self.new).faults) }
        ensures faults { IfOk result (λ n. ¬ IsStuck n bytes.now → (state self.new).faults ≡ (state self.old).faults) };
}
