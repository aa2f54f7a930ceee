// A constant with a new name in a record.

ghost use Rattle.std.specs.Prelude.{◌≡◌, IfOk};
ghost use Rattle.pts_record.specs.Renaming.{renamed_record};
ghost use Rattle.pts_image.specs.Renaming.{new_name};

use pts_record::{Name, Names, Record};
use std::alloc::AllocError;

/// One constant has a new name; every other one keeps its own.
#[derive(Drop)]
pub struct OneName<'a> {
    pub old: &'a Name,
    pub new: &'a Name,
}

impl<'a> Names for OneName<'a> {
    ghost use Rattle.pts_image.specs.Renaming.{new_name};

    ghost new_name = { λ o. new_name o.old.now o.new.now };

    fn new_name(&self, name: &Name) -> Result<Name, AllocError> {
        if self.old.same(name) {
            self.new.copy()
        } else {
            name.copy()
        }
    }
}

/// The same tables with the new name in the place of the old one. The record is then valid over the front with the new
/// name, if it was valid over the one with the old name, which has no entry with the new name; and it concludes what it
/// concluded, with the new name. It costs a copy.
pub fn rename_const(proof: &Record, old: &Name, new: &Name) -> Result<Record, AllocError>
    ensures { IfOk result (λ r. r ≡ renamed_record (new_name old.now new.now) proof.now) }
{
    let copy = proof.copy()?;
    copy.renamed(&OneName { old, new })
}
