// Values that a lock guards.

ghost use Rattle.std.specs.Prelude.{◌≡◌, ℕ, List, length};

/// A value with a history that only grows while the value is behind a lock. Each entry of the history has an owner, a number.
pub trait Staged {
    type Entry;

    // The entries, the oldest first, each with its owner.
    ghost history: { Self → List (ℕ × Self.Entry) };

    /// How many entries the history has.
    fn stage(&self) -> u64
        ensures { result ≡ length (history self.now) };
}
