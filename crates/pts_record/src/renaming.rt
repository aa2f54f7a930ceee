// New names for the constants of a record.

ghost use Rattle.std.specs.Prelude.{◌≡◌, length, map, IfOk};
ghost use Rattle.pts_record.specs.Renaming.{renamed_shape};

use crate::Shape;
use pts_ctx::Name;
use std::alloc::{AllocError, Global};

/// What the constants of a record are renamed to.
pub trait Names {
    ghost use Rattle.std.specs.Prelude.{◌≡◌, List, ℕ, IfOk};

    ghost new_name: { Self → List ℕ → List ℕ };

    /// The new name of a constant; its own where it keeps it.
    fn new_name(&self, name: &Name) -> Result<Name, AllocError>
        ensures { IfOk result (λ n. n ≡ new_name self.now name.now) };
}

// The lines of a table of terms with the new names.
pub(crate) fn rename_shapes<N: Names>(
    alloc: Global,
    shapes: Vec<Shape>,
    names: &N,
) -> Result<Vec<Shape>, AllocError>
    ensures { IfOk result (λ v. v.items ≡ map (renamed_shape (N.new_name names.now)) shapes.items) }
{
    let mut renamed = Vec::with_capacity(alloc, shapes.len())?;
    for shape in shapes {
        renamed.push(rename_shape(shape, names)?)?;
    }
    Ok(renamed)
}

fn rename_shape<N: Names>(shape: Shape, names: &N) -> Result<Shape, AllocError>
    ensures { IfOk result (λ s. s ≡ renamed_shape (N.new_name names.now) shape) }
{
    match shape {
        Shape::Const(c) => Ok(Shape::Const(names.new_name(&c)?)),
        other => Ok(other),
    }
}
