// The names that the statements of a module may use.

ghost use Rattle.std.specs.Prelude.{◌≡◌, ◌≤◌, length};
ghost use Rattle.pts_names.specs.Name.{is_short};
ghost use Rattle.pts_statement.specs.Statements.{visible};

use pts_ctx::Context;
use pts_names::{Name, NameFault};
use pts_parser::Scope;
use std::alloc::{AllocError, Global};
use std::marker::Model;

/// The declarations of a module that stand in a front, each under its name with the label before it.
#[derive(Drop)]
pub struct FileScope<'a> {
    label: &'a Name,
    front: &'a Context,
}

impl<'a> Model for FileScope<'a> {
    ghost use Rattle.std.specs.Prelude.{◌≤◌, length};
    ghost use Rattle.std.specs.Coded.{codes};
    ghost use Rattle.pts_terms.specs.Code.{coded_tree};
    ghost use Rattle.pts_statement.specs.FileScope.{SeenScope};

    ghost Value = { SeenScope };

    ghost coded = { Prim.hlevel (codes, coded_tree) };

    ghost view = { λ s. record { label = s.label.now; entries = s.front.now.entries } };

    ghost invariant = { λ s. length s.label.now ≤ 63 };
}

impl<'a> FileScope<'a> {
    /// The scope of a module with that label.
    pub fn of(label: &'a Name, front: &'a Context) -> FileScope<'a>
        requires { length label.now ≤ 63 }
        ensures label { result.label ≡ label.now }
        ensures front { result.entries ≡ front.now.entries }
    {
        FileScope { label, front }
    }
}

impl<'a> Scope for FileScope<'a> {
    ghost use Rattle.pts_statement.specs.Statements.{visible};

    ghost constants = { λ s. visible s.label s.entries };

    fn constant(&self, alloc: Global, name: &Name) -> Result<Option<Name>, AllocError> {
        if !name.is_short() {
            return Ok(None);
        }
        let whole = match Name::join(alloc, self.label, name) {
            Ok(whole) => whole,
            Err(NameFault::Memory) => return Err(AllocError),
            Err(_) => unreachable!(),
        };
        match self.front.place_of(&whole) {
            Some(_) => Ok(Some(whole)),
            None => Ok(None),
        }
    }
}
