ghost use Rattle.std.specs.Prelude.{◌≡◌, ◌<◌, ◌≤◌, length, take, drop, IfOk, OnOk, OnErr, IsSome};
ghost use Rattle.std.specs.Io.KnownBytes.{prepend_known, IsAtEnd};
ghost use Rattle.pts_io.specs.Counts.{raised, Rose};
ghost use Rattle.pts_io.specs.States.{SourceState};

use crate::faults::Fail;

/// Where bytes come from.
pub trait Source {
    // What it shows: the bytes that are left, where they are shown, and its counts.
    ghost state: { Self → SourceState };

    /// Moves the next bytes into the front of the buffer, and answers how many. The answer 0 for a
    /// buffer that isn't empty is the end. Where the bytes are shown, nothing else in the buffer
    /// changes. No call changes whether they are shown.
    ///
    /// # Errors
    ///
    /// `Failed` only where the count of faults rose; then nothing moved.
    fn take(&mut self, buffer: &mut [u8]) -> Result<usize, Fail>
        ensures never_falls { (state self.old).faults ≤ (state self.new).faults }
        ensures failed { OnErr result (Rose (state self.old).faults (state self.new).faults) }
        ensures not_given { OnErr result ((state self.new).given ≡ (state self.old).given) }
        ensures not_moved { OnErr result ((state self.new).left ≡ (state self.old).left) }
        ensures untouched { OnErr result (IsSome (state self.old).left → buffer.new ≡ buffer.old) }

        ensures faults { OnOk result ((state self.new).faults ≡ (state self.old).faults) }
        ensures bound { IfOk result (λ n. n ≤ length buffer.old) }
        ensures given { IfOk result (λ n. (state self.new).given ≡ raised (state self.old).given n) }
        ensures moved { IfOk result (λ n. (state self.old).left ≡ prepend_known (take n buffer.new) (state self.new).left) }
        ensures rest { IfOk result (λ n. IsSome (state self.old).left → drop n buffer.new ≡ drop n buffer.old) }
        ensures end { IfOk result (λ n. n ≡ 0 → 0 < length buffer.old → IsAtEnd (state self.new).left) };
}
