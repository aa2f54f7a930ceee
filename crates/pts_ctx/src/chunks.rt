// Lists of chunks, the oldest first.

ghost use Rattle.std.specs.Prelude.{◌≡◌, ◌-◌, ◌^◌, ◌<◌, ◌≤◌, ◌++◌, min, length, take, drop, Some, slice_get, IfOk, OnOk};
ghost use Rattle.pts_ctx.specs.Seen.{place_of, NamesDiffer};
ghost use Rattle.pts_ctx.specs.Entries.{global_of};
ghost use Rattle.pts_ctx.specs.Chunks.{flat};
ghost use Rattle.pts_ctx.specs.Index.{hash_of, hashes_of};

use crate::Entry;
use crate::chunk::Chunk;
use crate::part::Part;
use crate::slot::Slot;
use pts_terms::Name;
use std::alloc::{AllocError, Global};

/// The entry at a place.
pub fn entry_at(chunks: &[Chunk], place: usize) -> &Entry
    requires { place < length (flat chunks.now) }
    ensures { slice_get (flat chunks.now) place ≡ Some (global_of result.now) }
{
    let mut left = place;
    for chunk in chunks {
        let len = chunk.len();
        if left < len {
            return chunk.entry(left);
        }
        left -= len;
    }
    unreachable!()
}

/// The place of a name with its hash. The newest chunk, which is the shortest, is asked first.
pub fn newest_place(chunks: &[Chunk], entries: usize, name: &Name, hash: u32) -> Option<usize>
    requires hash { hash ≡ hash_of name.now }
    requires count { entries ≡ length (flat chunks.now) }
    requires differ { NamesDiffer (flat chunks.now) }
    ensures { result ≡ place_of name.now (flat chunks.now) }
{
    let mut before = chunks.len();
    let mut start = entries;
    while before > 0 {
        before -= 1;
        let chunk = &chunks[before];
        start -= chunk.len();
        if let Some(place) = chunk.place_of(name, hash) {
            return Some(start + place);
        }
    }
    None
}

/// The same chunks again.
pub fn share_chunks(alloc: Global, chunks: &[Chunk]) -> Result<Vec<Chunk>, AllocError>
    ensures { IfOk result (λ v. v.items ≡ chunks.now) }
{
    let mut all = Vec::with_capacity(alloc, chunks.len())?;
    for chunk in chunks {
        all.push(chunk.share()?)?;
    }
    Ok(all)
}

/// The chunk from which all are to be one when this many entries are added, so that each chunk has at least four times as many
/// entries as the next.
pub fn join_from(chunks: &[Chunk], entries: usize) -> usize
    ensures { result ≤ length chunks.now }
{
    let mut from = chunks.len();
    let mut joined = entries;
    while from > 0 {
        let len = chunks[from - 1].len();
        if len / 4 >= joined {
            return from;
        }
        joined = joined.saturating_add(len);
        from -= 1;
    }
    from
}

/// How many entries the chunks have, or the greatest number.
fn count(chunks: &[Chunk]) -> usize
    ensures { result ≡ min (length (flat chunks.now)) (2 ^ 64 - 1) }
{
    let mut entries: usize = 0;
    for chunk in chunks {
        entries = entries.saturating_add(chunk.len());
    }
    entries
}

/// A part with all these entries, the last of which have these hashes.
pub fn join(
    alloc: Global,
    chunks: &[Chunk],
    slots: &[Slot],
    hashes: &[u32],
) -> Result<Part, AllocError>
    requires differ { NamesDiffer (flat chunks.now ++ slots.now) }
    requires hashes { hashes.now ≡ hashes_of slots.now }
    ensures { IfOk result (λ p. p.entries ≡ flat chunks.now ++ slots.now) }
{
    let mut part = Part::new(alloc);
    part.reserve(alloc, count(chunks).saturating_add(slots.len()))?;
    add_from(alloc, &mut part, chunks, 0)?;
    part.add(alloc, slots, hashes)?;
    Ok(part)
}

/// Adds copies of the entries of the chunks from a place on. Where memory runs out, the old ones are still the first.
pub fn add_from(
    alloc: Global,
    part: &mut Part,
    chunks: &[Chunk],
    from: usize,
) -> Result<(), AllocError>
    requires differ { NamesDiffer (part.old.entries ++ drop from (flat chunks.now)) }
    ensures added { OnOk result (part.new.entries ≡ part.old.entries ++ drop from (flat chunks.now)) }
    ensures kept { take (length part.old.entries) part.new.entries ≡ part.old.entries }
{
    let mut skipped = from;
    for chunk in chunks {
        let len = chunk.len();
        if skipped >= len {
            skipped -= len;
            continue;
        }
        let (_, slots) = chunk.slots().split_at(skipped);
        let (_, hashes) = chunk.hashes().split_at(skipped);
        part.add(alloc, slots, hashes)?;
        skipped = 0;
    }
    Ok(())
}

/// Takes this many last entries off.
pub fn cut(chunks: &mut Vec<Chunk>, entries: usize)
    requires { entries ≤ length (flat chunks.old.items) }
    ensures { flat chunks.new.items ≡ take (length (flat chunks.old.items) - entries) (flat chunks.old.items) }
{
    let mut left = entries;
    while left > 0 {
        let last = chunks.len() - 1;
        let len = chunks[last].len();
        if left < len {
            chunks[last].truncate(len - left);
            return;
        }
        chunks.truncate(last);
        left -= len;
    }
}
