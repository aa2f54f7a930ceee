// What replaces the constants of a record.

use pts_record::Name;
use std::alloc::AllocError;

/// What replaces a constant: a constant, or an argument, which is a term of the record to which the image is appended,
/// with the node that judges it there.
#[derive(Drop)]
pub enum Replacement {
    Constant(Name),
    Argument(usize, usize),
}

/// What replaces each constant of a record. Only the constants that occur are asked for, each as often as it has a line.
pub trait Replacements {
    ghost use Rattle.std.specs.Prelude.{◌≡◌, List, ℕ, IfOk};
    ghost use Rattle.pts_image.specs.declared.replacement.Replacement.{Replacement};

    ghost replacement: { Self → List ℕ → Replacement };

    /// The replacement of a constant; the constant itself where it stays.
    fn replacement(&self, name: &Name) -> Result<Replacement, AllocError>
        ensures { IfOk result (λ found. found ≡ replacement self.now name.now) };
}
