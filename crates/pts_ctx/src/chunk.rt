// Chunks of a context, which its copies share.

ghost use Rattle.std.specs.Prelude.{◌≡◌, ◌<◌, ◌≤◌, ◌++◌, length, take, Some, slice_get, IfOk};
ghost use Rattle.pts_ctx.specs.Seen.{place_of, NamesDiffer};
ghost use Rattle.pts_ctx.specs.Entries.{global_of};
ghost use Rattle.pts_ctx.specs.Index.{hash_of, hashes_of};

use crate::Entry;
use crate::part::Part;
use crate::slot::Slot;
use pts_terms::Name;
use std::alloc::{AllocError, Global};
use std::marker::Model;
use std::sync::Arc;

/// The first entries of a part that contexts share.
#[derive(Drop)]
pub struct Chunk {
    part: Arc<Part, Global>,
    used: usize,
}

impl Model for Chunk {
    ghost use Rattle.std.specs.Prelude.{◌≤◌, List, length, take};
    ghost use Rattle.std.specs.Arc.{arc_value};
    ghost use Rattle.std.specs.Coded.{codes};
    ghost use Rattle.pts_names.specs.Name.{Name};
    ghost use Rattle.pts_terms.specs.Code.{coded_tree};
    ghost use Rattle.pts_ctx.specs.Front.{Global};

    ghost Value = { List (Global Name) };

    ghost coded = { Prim.hlevel (codes, coded_tree) };

    ghost view = { λ c. take c.used (arc_value c.part).entries };

    ghost invariant = { λ c. c.used ≤ length (arc_value c.part).entries };
}

impl Chunk {
    /// A chunk of all entries of the part.
    pub fn new(alloc: Global, part: Part) -> Result<Chunk, AllocError>
        ensures { IfOk result (λ c. c ≡ part.entries) }
    {
        let used = part.len();
        Ok(Chunk {
            part: Arc::new(alloc, part)?,
            used,
        })
    }

    /// The number of entries.
    pub fn len(&self) -> usize
        ensures { result ≡ length self.now }
    {
        self.used
    }

    /// The slots of the entries.
    pub fn slots(&self) -> &[Slot]
        ensures { result.now ≡ self.now }
    {
        let (used, _) = self.part.slots().split_at(self.used);
        used
    }

    /// The hashes of their names.
    pub fn hashes(&self) -> &[u32]
        ensures { result.now ≡ hashes_of self.now }
    {
        let (used, _) = self.part.hashes().split_at(self.used);
        used
    }

    /// The entry at a place.
    pub fn entry(&self, place: usize) -> &Entry
        requires { place < length self.now }
        ensures { slice_get self.now place ≡ Some (global_of result.now) }
    {
        self.part.entry(place)
    }

    /// The place of a name with its hash.
    pub fn place_of(&self, name: &Name, hash: u32) -> Option<usize>
        requires { hash ≡ hash_of name.now }
        ensures { result ≡ place_of name.now self.now }
    {
        match self.part.place_of(name, hash) {
            Some(place) if place < self.used => Some(place),
            _ => None,
        }
    }

    /// The same entries again. The two share them.
    pub fn share(&self) -> Result<Chunk, AllocError>
        ensures { IfOk result (λ c. c ≡ self.now) }
    {
        Ok(Chunk {
            part: Arc::try_clone(&self.part)?,
            used: self.used,
        })
    }

    /// Keeps the first entries, this many of them.
    pub fn truncate(&mut self, entries: usize)
        requires { entries ≤ length self.old }
        ensures { self.new ≡ take entries self.old }
    {
        self.used = entries;
    }
}
