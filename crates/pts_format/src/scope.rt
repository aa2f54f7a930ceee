use pts_names::Name;
use pts_parser::Scope;
use std::alloc::{AllocError, Global};

/// The scope without constants.
pub(crate) struct NoConstants;

impl Scope for NoConstants {
    ghost use Rattle.pts_format.specs.Lines.{no_constants};

    ghost constants = { λ _. no_constants };

    fn constant(&self, _: Global, _: &Name) -> Result<Option<Name>, AllocError> {
        Ok(None)
    }
}
