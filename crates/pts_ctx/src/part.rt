// Parts of a context.

ghost use Rattle.std.specs.Prelude.{◌≡◌, ◌+◌, ◌<◌, ◌≤◌, ◌++◌, ◌∷◌, [], length, take, drop, None, Some, slice_get, vec_len, vec_capacity, OnOk};
ghost use Rattle.pts_ctx.specs.Front.{Fresh};
ghost use Rattle.pts_ctx.specs.Seen.{place_of, NamesDiffer};
ghost use Rattle.pts_ctx.specs.Entries.{global_of};
ghost use Rattle.pts_ctx.specs.Index.{hash_of, hashes_of};

use crate::Entry;
use crate::index::Index;
use crate::slot::Slot;
use pts_terms::Name;
use std::alloc::{AllocError, Global};
use std::marker::Model;

/// Entries that follow one another in a context, with an index of their names.
#[derive(Drop)]
pub struct Part {
    slots: Vec<Slot>,
    index: Index,
}

impl Model for Part {
    ghost use Rattle.std.specs.Prelude.{◌-◌, min, vec_len, vec_capacity};
    ghost use Rattle.std.specs.Coded.{codes};
    ghost use Rattle.pts_terms.specs.Code.{coded_tree};
    ghost use Rattle.pts_ctx.specs.Chunks.{SeenPart, IsPart};

    ghost Value = { SeenPart };

    ghost coded = { Prim.hlevel (codes, coded_tree) };

    ghost view = { λ p. record { entries = p.slots.items; spare = min (vec_capacity p.slots - vec_len p.slots) p.index.spare } };

    ghost invariant = { λ p. IsPart p.slots.items p.index.hashes };
}

impl Part {
    /// A part without entries.
    pub fn new(alloc: Global) -> Part
        ensures { result.entries ≡ [] }
    {
        Part {
            slots: Vec::new(alloc),
            index: Index::new(alloc),
        }
    }

    /// The number of entries.
    pub fn len(&self) -> usize
        ensures { result ≡ length self.now.entries }
    {
        self.slots.len()
    }

    /// The slots of the entries.
    pub fn slots(&self) -> &[Slot]
        ensures { result.now ≡ self.now.entries }
    {
        self.slots.as_slice()
    }

    /// The hashes of their names.
    pub fn hashes(&self) -> &[u32]
        ensures { result.now ≡ hashes_of self.now.entries }
    {
        self.index.hashes()
    }

    /// The entry at a place.
    pub fn entry(&self, place: usize) -> &Entry
        requires { place < length self.now.entries }
        ensures { slice_get self.now.entries place ≡ Some (global_of result.now) }
    {
        self.slots[place].entry()
    }

    /// The place of a name with its hash.
    pub fn place_of(&self, name: &Name, hash: u32) -> Option<usize>
        requires { hash ≡ hash_of name.now }
        ensures { result ≡ place_of name.now self.now.entries }
    {
        let mut after = self.index.last(hash);
        while after > 0 {
            let place = after - 1;
            if name.same(&self.slots[place].entry().name) {
                return Some(place);
            }
            after = self.index.last_before(place);
        }
        None
    }

    /// Makes room for this many more entries.
    pub fn reserve(&mut self, alloc: Global, entries: usize) -> Result<(), AllocError>
        ensures entries { self.new.entries ≡ self.old.entries }
        ensures room { OnOk result (entries ≤ self.new.spare) }
        ensures spare { self.old.spare ≤ self.new.spare }
    {
        self.slots.reserve(entries)?;
        self.index.reserve(alloc, entries)
    }

    /// Adds an entry with the hash of its name after the others. It takes no memory.
    pub fn push(&mut self, slot: Slot, hash: u32)
        requires fresh { Fresh slot.name self.old.entries }
        requires hash { hash ≡ hash_of slot.name }
        requires room { 0 < self.old.spare }
        ensures entries { self.new.entries ≡ self.old.entries ++ slot ∷ [] }
        ensures spare { self.old.spare ≤ self.new.spare + 1 }
    {
        self.index.push(hash);
        self.slots.push_reserved(slot);
    }

    /// Adds copies of these entries, which have these hashes. Where memory runs out, the old ones are still the first.
    pub fn add(&mut self, alloc: Global, slots: &[Slot], hashes: &[u32]) -> Result<(), AllocError>
        requires differ { NamesDiffer (self.old.entries ++ slots.now) }
        requires hashes { hashes.now ≡ hashes_of slots.now }
        ensures added { OnOk result (self.new.entries ≡ self.old.entries ++ slots.now) }
        ensures kept { take (length self.old.entries) self.new.entries ≡ self.old.entries }
    {
        self.reserve(alloc, slots.len())?;
        for place in 0..slots.len() {
            self.push(slots[place].copy(alloc)?, hashes[place]);
        }
        Ok(())
    }

    /// From now on copies share its entries, unless memory runs out.
    pub fn share(&mut self, alloc: Global)
        ensures { self.new ≡ self.old }
    {
        share_last(alloc, &mut self.slots);
    }

    /// Keeps the first entries, this many of them, and drops the others.
    pub fn truncate(&mut self, entries: usize)
        ensures entries { self.new.entries ≡ take entries self.old.entries }
        ensures spare { self.old.spare ≤ self.new.spare }
    {
        self.index.truncate(entries);
        self.slots.truncate(entries);
    }

    /// Drops the first entries, this many of them.
    pub fn drop_first(&mut self, entries: usize)
        requires { entries ≤ length self.old.entries }
        ensures entries { self.new.entries ≡ drop entries self.old.entries }
        ensures spare { self.old.spare ≤ self.new.spare }
    {
        self.index.drop_first(entries);
        self.slots.drain(..entries);
    }
}

/// Shares the entries after the last that is shared.
fn share_last(alloc: Global, slots: &mut Vec<Slot>)
    ensures items { slots.new.items ≡ slots.old.items }
    ensures len { vec_len slots.new ≡ vec_len slots.old }
    ensures capacity { vec_capacity slots.new ≡ vec_capacity slots.old }
{
    let mut place = slots.len();
    while place > 0 && !slots[place - 1].is_shared() {
        place -= 1;
        slots[place].share(alloc);
    }
}
