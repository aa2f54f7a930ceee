ghost use Rattle.std.specs.Prelude.{◌≡◌, ◌∷◌, IfOk, OnOk, reverse};
ghost use Rattle.pts_parser.specs.Calls.{outer};
ghost use Rattle.pts_parser.specs.Resolution.{place_of, binder_of};
ghost use Rattle.pts_names.specs.Name.{is_plain};

use pts_names::Name;
use std::alloc::{AllocError, AllocFailed, Global};
use std::marker::Model;

/// The names of the binders around a place. Contracts see the innermost first.
#[derive(Debug, Drop)]
pub(crate) struct Binders {
    names: Vec<Name>,
}

impl Model for Binders {
    ghost use Rattle.std.specs.Prelude.{List, ℕ, reverse};
    ghost use Rattle.std.specs.Coded.{coded_list, coded_ℕ};

    ghost Value = { List (List ℕ) };

    ghost coded = { coded_list (coded_list coded_ℕ) };

    ghost view = { λ b. reverse b.names.items };
}

impl Binders {
    /// Those of these names, of which the outermost is the first.
    pub(crate) fn of(alloc: Global, locals: &[Name]) -> Result<Binders, AllocError>
        ensures { IfOk result (λ b. b ≡ reverse locals.now) }
    {
        let mut names = Vec::with_capacity(alloc, locals.len())?;
        for local in locals {
            names.push(local.copy()?)?;
        }
        Ok(Binders { names })
    }

    /// One more inside.
    #[tactic(auto, using(crate::proofs::Places::reverse_more))]
    pub(crate) fn push(&mut self, name: Name) -> Result<(), AllocFailed<Name>>
        ensures { OnOk result (self.new ≡ name ∷ self.old) }
    {
        self.names.push(name)
    }

    /// Leaves the innermost.
    #[tactic(auto, using(crate::proofs::Places::reverse_more))]
    pub(crate) fn pop(&mut self)
        ensures { self.new ≡ outer self.old }
    {
        let _ = self.names.pop();
    }

    /// The index of the innermost binder of the name. Only a plain name is bound. The cost is the number of binders that
    /// are passed.
    pub(crate) fn index_of(&self, name: &Name) -> Option<usize>
        ensures { result ≡ binder_of name.now self.now }
    {
        if !name.is_plain() {
            return None;
        }
        place_among(self.names.as_slice(), name)
    }
}

/// The place of the last of these names that is this one, counted from the end.
fn place_among(names: &[Name], name: &Name) -> Option<usize>
    ensures { result ≡ place_of name.now (reverse names.now) }
{
    let mut left = names.len();
    while left > 0 {
        left -= 1;
        if name.same(&names[left]) {
            return Some(names.len() - 1 - left);
        }
    }
    None
}
