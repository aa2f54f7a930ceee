// Contexts: entries and labels, found by their names.

ghost use Rattle.std.specs.Prelude.{◌↔◌, IsTrue, IfOk, ◌≡◌, ◌+◌, ◌-◌, ◌<◌, ◌≤◌, ◌++◌, ◌∷◌, [], length, take, drop, true, None, Some, slice_get, IfSome, IfErr, OnOk, OnErr};
ghost use Rattle.std.specs.Option.{option_map, option_copied};
ghost use Rattle.pts_ctx.specs.Front.{Fresh, find};
ghost use Rattle.pts_ctx.specs.Seen.{place_of, label_place, global_within, globals_within, NamesDiffer, LabelsInside, IsFrontOf};
ghost use Rattle.pts_ctx.specs.Entries.{global_of};
ghost use Rattle.pts_ctx.specs.Prefix.{begins, same_global, same_label};
ghost use Rattle.pts_ctx.specs.Chunks.{flat};

use crate::Entry;
use crate::chunk::Chunk;
use crate::chunks::{add_from, cut, entry_at, join, join_from, newest_place, share_chunks};
use crate::index::hash_of;
use crate::part::Part;
use crate::slot::Slot;
use indexmap::IndexMap;
use pts_terms::Name;
use std::alloc::{AllocError, Global};
use std::marker::Model;

/// How many entries the context of a program has at most. A context itself takes more.
pub const ROOM: usize = 200_000;

/// Entries leave the last part this many at a time, and it keeps as many.
const STEP: usize = 64;

/// A global context: entries whose names differ, the oldest first, and labels, each with the number of entries that
/// stood there when it was marked. Every term of it is within limits.
///
/// The older entries lie in chunks, which its copies share; the last part is its own. A reservation keeps the last
/// part short, and after one a copy costs about the same whatever the number of entries.
#[derive(Drop)]
pub struct Context {
    chunks: Vec<Chunk>,
    older: usize,
    last: Part,
    labels: IndexMap<Name, usize>,
    alloc: Global,
}

impl Model for Context {
    ghost use Rattle.std.specs.Prelude.{◌≡◌, ◌-◌, ◌^◌, ◌++◌, length, min};
    ghost use Rattle.std.specs.Coded.{codes};
    ghost use Rattle.indexmap.specs.IndexMap.{spare};
    ghost use Rattle.pts_terms.specs.Code.{coded_tree};
    ghost use Rattle.pts_ctx.specs.Seen.{SeenContext};
    ghost use Rattle.pts_ctx.specs.Chunks.{flat, IsOrderly};

    ghost Value = { SeenContext };

    ghost coded = { Prim.hlevel (codes, coded_tree) };

    ghost view = { λ c. record { entries = flat c.chunks.items ++ c.last.entries; labels = c.labels.entries; spare_entries = min c.last.spare (2 ^ 64 - 1 - length (flat c.chunks.items ++ c.last.entries)); spare_labels = spare c.labels } };

    ghost invariant = { λ c. (c.older ≡ length (flat c.chunks.items)) × IsOrderly (flat c.chunks.items ++ c.last.entries) c.labels.entries };
}

impl Context {
    /// The empty context.
    pub fn new(alloc: Global) -> Context
        ensures entries { result.entries ≡ [] }
        ensures labels { result.labels ≡ [] }
    {
        Context {
            chunks: Vec::new(alloc),
            older: 0,
            last: Part::new(alloc),
            labels: IndexMap::new(alloc),
            alloc,
        }
    }

    /// The number of entries.
    pub fn len(&self) -> usize
        ensures { result ≡ length self.now.entries }
    {
        self.older + self.last.len()
    }

    /// The entry at a place.
    pub fn entry(&self, place: usize) -> &Entry
        requires { place < length self.now.entries }
        ensures entry { slice_get self.now.entries place ≡ Some (global_of result.now) }
        ensures within { global_within (global_of result.now) ≡ true }
    {
        if place < self.older {
            entry_at(&self.chunks, place)
        } else {
            self.last.entry(place - self.older)
        }
    }

    /// The place of a name.
    pub fn place_of(&self, name: &Name) -> Option<usize>
        ensures place { result ≡ place_of name.now self.now.entries }
        ensures entry { IfSome result (λ k. slice_get self.now.entries k ≡ find name.now self.now.entries) }
        ensures fresh { (result ≡ None) ↔ Fresh name.now self.now.entries }
    {
        let hash = hash_of(name);
        match self.last.place_of(name, hash) {
            Some(place) => Some(self.older + place),
            None => newest_place(&self.chunks, self.older, name, hash),
        }
    }

    /// The entry of a name.
    pub fn lookup(&self, name: &Name) -> Option<&Entry>
        ensures entry { option_map global_of (option_copied result) ≡ find name.now self.now.entries }
        ensures within { IfSome result (λ e. global_within (global_of e.now) ≡ true) }
    {
        match self.place_of(name) {
            Some(place) => Some(self.entry(place)),
            None => None,
        }
    }

    /// The number of entries that stood there when the label was marked.
    pub fn label_place(&self, label: &Name) -> Option<usize>
        ensures place { result ≡ label_place label.now self.now.labels }
        ensures inside { IfSome result (λ n. n ≤ length self.now.entries) }
    {
        self.labels.get(label).copied()
    }

    /// What is sure of every context: its names differ, its terms are within limits, and no label comes after the
    /// last entry.
    pub fn is_orderly(&self)
        ensures names { NamesDiffer self.now.entries }
        ensures within { globals_within self.now.entries ≡ true }
        ensures labels { LabelsInside (length self.now.entries) self.now.labels }
    {
        let _ = &self.chunks;
    }

    /// Whether both lists are prefixes of the other's: the same entries, with their printed names, and the same labels.
    pub fn is_front_of(&self, other: &Context) -> bool
        ensures { IsTrue result ↔ IsFrontOf self.now other.now }
    {
        entries_begin(self, other) && labels_begin(&self.labels, &other.labels)
    }

    /// The same entries and labels again.
    pub fn copy(&self) -> Result<Context, AllocError>
        ensures entries { IfOk result (λ c. c.entries ≡ self.now.entries) }
        ensures labels { IfOk result (λ c. c.labels ≡ self.now.labels) }
    {
        let chunks = share_chunks(self.alloc, &self.chunks)?;
        let mut last = Part::new(self.alloc);
        last.add(self.alloc, self.last.slots(), self.last.hashes())?;
        let labels = copy_labels(self.alloc, &self.labels)?;
        Ok(Context {
            chunks,
            older: self.older,
            last,
            labels,
            alloc: self.alloc,
        })
    }

    /// Makes room for this many more entries and labels. Entries of a long last part go into a chunk.
    pub fn reserve(&mut self, entries: usize, labels: usize) -> Result<(), AllocError>
        ensures entries { self.new.entries ≡ self.old.entries }
        ensures labels { self.new.labels ≡ self.old.labels }
        ensures room { OnOk result ((entries ≤ self.new.spare_entries) × (labels ≤ self.new.spare_labels)) }
        ensures spare_entries { self.old.spare_entries ≤ self.new.spare_entries }
        ensures spare_labels { self.old.spare_labels ≤ self.new.spare_labels }
    {
        if entries > usize::MAX - self.len() {
            return Err(AllocError);
        }
        self.last.share(self.alloc);
        if self.last.len() >= 2 * STEP {
            self.older += move_out(self.alloc, &mut self.chunks, &mut self.last)?;
        }
        self.last.reserve(self.alloc, entries)?;
        self.labels.reserve(labels)
    }

    /// Adds an entry, whose name is `key`, after the others. It takes no memory.
    pub fn push(&mut self, entry: Entry, key: Name)
        requires fresh { Fresh entry.name self.old.entries }
        requires key { key ≡ entry.name }
        requires within { global_within (global_of entry) ≡ true }
        requires room { 0 < self.old.spare_entries }
        ensures entries { self.new.entries ≡ self.old.entries ++ global_of entry ∷ [] }
        ensures labels { self.new.labels ≡ self.old.labels }
        ensures spare_entries { self.old.spare_entries ≤ self.new.spare_entries + 1 }
        ensures spare_labels { self.new.spare_labels ≡ self.old.spare_labels }
    {
        self.last.push(Slot::new(entry), hash_of(&key));
    }

    /// Adds the entries of another context from a place on after the others. The two share them.
    ///
    /// # Errors
    ///
    /// Where memory runs out, the entries are the old ones.
    pub fn extend_from(&mut self, other: &mut Context, from: usize) -> Result<(), AllocError>
        requires inside { from ≤ length other.old.entries }
        requires differ { NamesDiffer (self.old.entries ++ drop from other.old.entries) }
        ensures entries { OnOk result (self.new.entries ≡ self.old.entries ++ drop from other.old.entries) }
        ensures refused { OnErr result (self.new.entries ≡ self.old.entries) }
        ensures labels { self.new.labels ≡ self.old.labels }
        ensures other { other.new ≡ other.old }
    {
        self.reserve(other.len() - from, 0)?;
        other.share();
        self.take_over(other, from)
    }

    /// From now on copies share its entries, unless memory runs out.
    fn share(&mut self)
        ensures { self.new ≡ self.old }
    {
        self.last.share(self.alloc);
    }

    /// Adds copies of the entries of another context from a place on, for which there is room.
    fn take_over(&mut self, other: &Context, from: usize) -> Result<(), AllocError>
        requires inside { from ≤ length other.now.entries }
        requires differ { NamesDiffer (self.old.entries ++ drop from other.now.entries) }
        requires room { length other.now.entries - from ≤ self.old.spare_entries }
        ensures entries { OnOk result (self.new.entries ≡ self.old.entries ++ drop from other.now.entries) }
        ensures refused { OnErr result (self.new.entries ≡ self.old.entries) }
        ensures labels { self.new.labels ≡ self.old.labels }
    {
        other.is_orderly();
        let own = self.last.len();
        match add_entries(self.alloc, &mut self.last, other, from) {
            Ok(()) => Ok(()),
            Err(error) => {
                self.last.truncate(own);
                Err(error)
            }
        }
    }

    /// Takes this many last entries off. It takes no memory, and in the last part it takes no time that grows with the
    /// context.
    pub fn cut(&mut self, entries: usize)
        requires inside { entries ≤ length self.old.entries }
        requires labels { LabelsInside (length self.old.entries - entries) self.old.labels }
        ensures entries { self.new.entries ≡ take (length self.old.entries - entries) self.old.entries }
        ensures labels { self.new.labels ≡ self.old.labels }
        ensures spare_entries { self.old.spare_entries ≤ self.new.spare_entries }
        ensures spare_labels { self.new.spare_labels ≡ self.old.spare_labels }
    {
        let own = self.last.len();
        if entries <= own {
            self.last.truncate(own - entries);
        } else {
            self.last.truncate(0);
            cut(&mut self.chunks, entries - own);
            self.older -= entries - own;
        }
    }

    /// Adds a label at the present number of entries. It takes no memory.
    pub fn mark(&mut self, label: Name)
        requires fresh { label_place label self.old.labels ≡ None }
        requires room { 0 < self.old.spare_labels }
        ensures entries { self.new.entries ≡ self.old.entries }
        ensures labels { self.new.labels ≡ self.old.labels ++ (label, length self.old.entries) ∷ [] }
        ensures spare_entries { self.new.spare_entries ≡ self.old.spare_entries }
        ensures spare_labels { self.old.spare_labels ≤ self.new.spare_labels + 1 }
    {
        match self.labels.insert(label, self.older + self.last.len()) {
            Ok(_) => {}
            Err(_) => unreachable!(),
        }
    }
}

fn entries_begin(one: &Context, other: &Context) -> bool
    ensures { result ≡ begins same_global one.now.entries other.now.entries }
{
    for place in 0..one.len() {
        if place >= other.len() {
            return false;
        }
        if !one.entry(place).same(other.entry(place)) {
            return false;
        }
    }
    true
}

fn labels_begin(one: &IndexMap<Name, usize>, other: &IndexMap<Name, usize>) -> bool
    ensures { result ≡ begins same_label one.now.entries other.now.entries }
{
    for index in 0..one.len() {
        let Some((label, entries)) = one.get_index(index) else {
            unreachable!()
        };
        let Some((other_label, other_entries)) = other.get_index(index) else {
            return false;
        };
        if !is_one_label(label, *entries, other_label, *other_entries) {
            return false;
        }
    }
    true
}

fn is_one_label(label: &Name, entries: usize, other_label: &Name, other_entries: usize) -> bool
    ensures { result ≡ same_label (label.now, entries) (other_label.now, other_entries) }
{
    label.same(other_label) && entries == other_entries
}

/// Adds copies of the entries of a context from a place on. Where memory runs out, the old ones are still the first.
fn add_entries(
    alloc: Global,
    part: &mut Part,
    other: &Context,
    from: usize,
) -> Result<(), AllocError>
    requires inside { from ≤ length other.now.entries }
    requires differ { NamesDiffer (part.old.entries ++ drop from other.now.entries) }
    ensures added { OnOk result (part.new.entries ≡ part.old.entries ++ drop from other.now.entries) }
    ensures kept { take (length part.old.entries) part.new.entries ≡ part.old.entries }
{
    add_from(alloc, part, &other.chunks, from)?;
    let first = from.saturating_sub(other.older);
    let (_, slots) = other.last.slots().split_at(first);
    let (_, hashes) = other.last.hashes().split_at(first);
    part.add(alloc, slots, hashes)
}

/// Moves the oldest entries of the last part into a chunk, with those of the chunks that are joined, and answers how many
/// these were.
fn move_out(alloc: Global, chunks: &mut Vec<Chunk>, last: &mut Part) -> Result<usize, AllocError>
    requires full { 128 ≤ length last.old.entries }
    requires differ { NamesDiffer (flat chunks.old.items ++ last.old.entries) }
    ensures entries { flat chunks.new.items ++ last.new.entries ≡ flat chunks.old.items ++ last.old.entries }
    ensures moved { IfOk result (λ n. length (flat chunks.new.items) ≡ length (flat chunks.old.items) + n) }
    ensures stays { IfErr result (λ _. length (flat chunks.new.items) ≡ length (flat chunks.old.items)) }
    ensures spare { last.old.spare ≤ last.new.spare }
{
    let moved = last.len() - last.len() % STEP - STEP;
    chunks.reserve(1)?;
    let from = join_from(chunks, moved);
    let (_, joined) = chunks.split_at(from);
    let (oldest, _) = last.slots().split_at(moved);
    let (hashes, _) = last.hashes().split_at(moved);
    let chunk = Chunk::new(alloc, join(alloc, joined, oldest, hashes)?)?;
    chunks.truncate(from);
    match chunks.push(chunk) {
        Ok(()) => {}
        Err(_) => unreachable!(),
    }
    last.drop_first(moved);
    Ok(moved)
}

fn copy_labels(
    alloc: Global,
    labels: &IndexMap<Name, usize>,
) -> Result<IndexMap<Name, usize>, AllocError>
    ensures { IfOk result (λ copy. copy.entries ≡ labels.now.entries) }
{
    let mut copy = IndexMap::with_capacity(alloc, labels.len())?;
    for index in 0..labels.len() {
        let Some((label, entries)) = labels.get_index(index) else {
            unreachable!()
        };
        let key = label.copy()?;
        copy.insert(key, *entries)?;
    }
    Ok(copy)
}
