// The names that a line may use.

ghost use Rattle.std.specs.Prelude.{◌≡◌};

use pts_ctx::Context;
use pts_names::Name;
use pts_parser::Scope;
use std::alloc::{AllocError, Global};
use std::marker::Model;

/// The entries of a front, each under its own name.
#[derive(Drop)]
pub struct FrontScope<'a> {
    front: &'a Context,
}

impl<'a> Model for FrontScope<'a> {
    ghost use Rattle.std.specs.Coded.{codes};
    ghost use Rattle.pts_terms.specs.Code.{coded_tree};
    ghost use Rattle.pts_reduce_cost.specs.Costs.{Globals};

    ghost Value = { Globals };

    ghost coded = { Prim.hlevel (codes, coded_tree) };

    ghost view = { λ s. s.front.now.entries };
}

impl<'a> FrontScope<'a> {
    /// The scope of a front.
    pub fn of(front: &'a Context) -> FrontScope<'a>
        ensures { result ≡ front.now.entries }
    {
        FrontScope { front }
    }
}

impl<'a> Scope for FrontScope<'a> {
    ghost use Rattle.pts_queries.specs.Reading.{known_name};

    ghost constants = { λ G. known_name G };

    fn constant(&self, alloc: Global, name: &Name) -> Result<Option<Name>, AllocError> {
        let _ = alloc;
        match self.front.place_of(name) {
            Some(_) => Ok(Some(name.copy()?)),
            None => Ok(None),
        }
    }
}
