// Places of a context, each with an entry.

ghost use Rattle.std.specs.Prelude.{◌≡◌, IfOk};
ghost use Rattle.pts_ctx.specs.Entries.{global_of};
ghost use Rattle.pts_ctx.specs.Chunks.{held_global};

use crate::Entry;
use pts_terms::{Sort, Term};
use std::alloc::{AllocError, Global};
use std::marker::Model;
use std::mem::replace;
use std::sync::Arc;

/// An entry of its own, or one that it shares with other contexts. Contracts see the entry.
#[derive(Drop)]
pub struct Slot {
    held: Held,
}

#[derive(Drop)]
pub enum Held {
    Own(Entry),
    Shared(Arc<Entry, Global>),
}

impl Model for Slot {
    ghost use Rattle.std.specs.Coded.{codes};
    ghost use Rattle.pts_names.specs.Name.{Name};
    ghost use Rattle.pts_terms.specs.Code.{coded_tree};
    ghost use Rattle.pts_ctx.specs.Front.{Global};
    ghost use Rattle.pts_ctx.specs.Chunks.{held_global};

    ghost Value = { Global Name };

    ghost coded = { Prim.hlevel (codes, coded_tree) };

    ghost view = { λ s. held_global s.held };
}

impl Slot {
    /// A slot with an entry of its own.
    pub fn new(entry: Entry) -> Slot
        ensures { result ≡ global_of entry }
    {
        Slot {
            held: Held::Own(entry),
        }
    }

    /// Its entry.
    pub fn entry(&self) -> &Entry
        ensures { global_of result.now ≡ self.now }
    {
        match &self.held {
            Held::Own(entry) => entry,
            Held::Shared(entry) => entry,
        }
    }

    /// Whether copies share its entry. Contracts don't see it.
    pub fn is_shared(&self) -> bool {
        matches!(self.held, Held::Shared(_))
    }

    /// A slot with the same entry. It shares the entry where this one does.
    pub fn copy(&self, alloc: Global) -> Result<Slot, AllocError>
        ensures { IfOk result (λ s. s ≡ self.now) }
    {
        let held = match &self.held {
            Held::Own(entry) => Held::Own(entry.copy(alloc)?),
            Held::Shared(entry) => Held::Shared(Arc::try_clone(entry)?),
        };
        Ok(Slot { held })
    }

    /// From now on copies share its entry, unless memory runs out.
    pub fn share(&mut self, alloc: Global)
        ensures { self.new ≡ self.old }
    {
        let Held::Own(entry) = &self.held else {
            return;
        };
        let Ok(name) = entry.name.copy() else {
            return;
        };
        let blank = Entry {
            name,
            body: None,
            ty: Term::Sort(Sort(0)),
        };
        let held = replace(&mut self.held, Held::Own(blank));
        self.held = shared(alloc, held);
    }
}

/// The entry with a count of its owners, or as it is where memory runs out.
fn shared(alloc: Global, held: Held) -> Held
    ensures { held_global result ≡ held_global held }
{
    match held {
        Held::Own(entry) => match Arc::new(alloc, entry) {
            Ok(entry) => Held::Shared(entry),
            Err(failed) => Held::Own(failed.value),
        },
        Held::Shared(entry) => Held::Shared(entry),
    }
}
