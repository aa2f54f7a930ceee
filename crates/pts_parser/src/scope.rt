ghost use Rattle.std.specs.Prelude.{◌≡◌, Option, List, ℕ, IfOk};

use pts_names::Name;
use std::alloc::{AllocError, Global};

/// The constants that a text may name: a finite map from names to names.
pub trait Scope {
    // What a name stands for.
    ghost constants: { Self → List ℕ → Option (List ℕ) };

    /// What the name stands for, or nothing where the map has not got it.
    fn constant(&self, alloc: Global, name: &Name) -> Result<Option<Name>, AllocError>
        ensures { IfOk result (λ found. found ≡ constants self.now name.now) };
}
