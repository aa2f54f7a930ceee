// Indices of names: where a hash is among others.

ghost use Rattle.std.specs.Prelude.{◌≡◌, ◌+◌, ◌<◌, ◌≤◌, ◌^◌, ◌++◌, ◌∷◌, [], nat_eq, min, length, take, drop, slice_index, vec_len, vec_capacity, OnOk};
ghost use Rattle.pts_ctx.specs.Index.{last_before, is_in, IsChained};
ghost use Rattle.pts_ctx.specs.Index as indices;

use pts_terms::Name;
use std::alloc::{AllocError, Global};
use std::hash::{FoldHasher, Hash, Hasher};
use std::marker::Model;

/// How many hashes an index has at most. Twice as many buckets, and the places, are numbers of 32 bits.
const MOST: usize = 0x7FFF_FFFF;

/// The hash of a name. Its seed is fixed, so whoever picks the names can make their hashes agree: a look-up then goes
/// through the names of one hash, one by one.
#[tactic(auto, unfolding(crate::specs::Index::hash_of))]
pub fn hash_of(name: &Name) -> u32
    ensures { result ≡ indices.hash_of name.now }
{
    let mut state = FoldHasher::default();
    name.hash(&mut state);
    (state.finish() >> 32) as u32
}

/// Hashes in order. Each falls into a bucket, which leads to the last of its places, and each place leads to the one before
/// it in its bucket; both by one more than the place, so that 0 is the end.
#[derive(Drop)]
pub struct Index {
    heads: Vec<u32>,
    hashes: Vec<u32>,
    before: Vec<u32>,
}

impl Model for Index {
    ghost use Rattle.std.specs.Prelude.{◌-◌, min, length, vec_len, vec_capacity};
    ghost use Rattle.pts_ctx.specs.Index.{SeenIndex, IsIndex};

    ghost Value = { SeenIndex };

    ghost view = { λ i. record { hashes = i.hashes.items; buckets = length i.heads.items; spare = min (min (vec_capacity i.hashes - vec_len i.hashes) (vec_capacity i.before - vec_len i.hashes)) (vec_len i.heads - vec_len i.hashes) } };

    ghost invariant = { λ i. IsIndex i.heads.items i.hashes.items i.before.items };
}

impl Index {
    /// An index without hashes.
    pub fn new(alloc: Global) -> Index
        ensures { result.hashes ≡ [] }
    {
        Index {
            heads: Vec::new(alloc),
            hashes: Vec::new(alloc),
            before: Vec::new(alloc),
        }
    }

    /// The hashes.
    pub fn hashes(&self) -> &[u32]
        ensures { result.now ≡ self.now.hashes }
    {
        self.hashes.as_slice()
    }

    /// Makes room for this many more hashes. There are at least as many buckets, and twice as many where they are made anew.
    pub fn reserve(&mut self, alloc: Global, hashes: usize) -> Result<(), AllocError>
        ensures hashes { self.new.hashes ≡ self.old.hashes }
        ensures room { OnOk result (hashes ≤ self.new.spare) }
        ensures spare { self.old.spare ≤ self.new.spare }
    {
        let wanted = self.hashes.len().saturating_add(hashes);
        if wanted > MOST {
            return Err(AllocError);
        }
        self.hashes.reserve(hashes)?;
        self.before.reserve(hashes)?;
        if wanted > self.heads.len() {
            let mut heads = vec![in alloc; 0; 2 * wanted]?;
            chain_all(&mut heads, &self.hashes, &mut self.before);
            self.heads = heads;
        }
        Ok(())
    }

    /// Adds a hash after the others. It takes no memory.
    pub fn push(&mut self, hash: u32)
        requires { 0 < self.old.spare }
        ensures hashes { self.new.hashes ≡ self.old.hashes ++ hash ∷ [] }
        ensures spare { self.old.spare ≤ self.new.spare + 1 }
    {
        let place = self.hashes.len();
        self.hashes.push_reserved(hash);
        self.before.push_reserved(0);
        chain(&mut self.heads, &self.hashes, &mut self.before, place);
    }

    /// Keeps the first hashes, this many of them.
    pub fn truncate(&mut self, hashes: usize)
        ensures hashes { self.new.hashes ≡ take hashes self.old.hashes }
        ensures spare { self.old.spare ≤ self.new.spare }
    {
        unchain_from(&mut self.heads, &self.hashes, &self.before, hashes);
        self.hashes.truncate(hashes);
        self.before.truncate(hashes);
    }

    /// Drops the first hashes, this many of them.
    pub fn drop_first(&mut self, hashes: usize)
        requires { hashes ≤ length self.old.hashes }
        ensures hashes { self.new.hashes ≡ drop hashes self.old.hashes }
        ensures spare { self.old.spare ≤ self.new.spare }
    {
        self.heads.fill(0);
        self.hashes.drain(..hashes);
        self.before.drain(..hashes);
        chain_all(&mut self.heads, &self.hashes, &mut self.before);
    }

    /// One more than the last place of a hash, or 0.
    pub fn last(&self, hash: u32) -> usize
        ensures { result ≡ last_before (nat_eq hash) self.now.hashes (length self.now.hashes) }
    {
        if self.heads.is_empty() {
            return 0;
        }
        let bucket = bucket_of(hash, self.heads.len());
        self.walk(self.heads[bucket] as usize, hash)
    }

    /// One more than the last place of the same hash before a place, or 0.
    pub fn last_before(&self, place: usize) -> usize
        requires { place < length self.now.hashes }
        ensures { result ≡ last_before (nat_eq (slice_index self.now.hashes place)) self.now.hashes place }
    {
        self.walk(self.before[place] as usize, self.hashes[place])
    }

    /// One more than the last place of a hash up to that of `at`, which is one more than a place of its bucket, or 0.
    fn walk(&self, mut at: usize, hash: u32) -> usize
        requires inside { at ≤ length self.now.hashes }
        requires bucket { at ≡ last_before (is_in self.now.buckets (indices.bucket_of self.now.buckets hash)) self.now.hashes at }
        ensures { result ≡ last_before (nat_eq hash) self.now.hashes at }
    {
        while at > 0 && self.hashes[at - 1] != hash {
            at = self.before[at - 1] as usize;
        }
        at
    }
}

/// The bucket of a hash among so many.
#[tactic(auto, unfolding(crate::specs::Index::bucket_of))]
fn bucket_of(hash: u32, buckets: usize) -> usize
    requires some { 0 < buckets }
    requires small { buckets < 2 ^ 32 }
    ensures bucket { result ≡ indices.bucket_of buckets hash }
    ensures inside { result < buckets }
{
    (u64::from(hash) * buckets as u64 >> 32) as usize
}

/// Makes a place the last of its bucket.
fn chain(heads: &mut Vec<u32>, hashes: &[u32], before: &mut Vec<u32>, place: usize)
    requires inside { place < length hashes.now }
    requires paired { vec_len before.old ≡ length hashes.now }
    requires fits { length hashes.now ≤ vec_len heads.old }
    requires small { vec_len heads.old < 2 ^ 32 }
    requires chained { IsChained (vec_len heads.old) place heads.old.items hashes.now before.old.items }
    ensures chained { IsChained (vec_len heads.old) (place + 1) heads.new.items hashes.now before.new.items }
    ensures heads { vec_len heads.new ≡ vec_len heads.old }
    ensures before { vec_len before.new ≡ vec_len before.old }
    ensures capacity { vec_capacity before.new ≡ vec_capacity before.old }
{
    let bucket = bucket_of(hashes[place], heads.len());
    before[place] = heads[bucket];
    heads[bucket] = place as u32 + 1;
}

/// Makes chains of all places. The heads are 0.
fn chain_all(heads: &mut Vec<u32>, hashes: &[u32], before: &mut Vec<u32>)
    requires paired { vec_len before.old ≡ length hashes.now }
    requires fits { length hashes.now ≤ vec_len heads.old }
    requires small { vec_len heads.old < 2 ^ 32 }
    requires chained { IsChained (vec_len heads.old) 0 heads.old.items hashes.now before.old.items }
    ensures chained { IsChained (vec_len heads.old) (length hashes.now) heads.new.items hashes.now before.new.items }
    ensures heads { vec_len heads.new ≡ vec_len heads.old }
    ensures before { vec_len before.new ≡ vec_len before.old }
    ensures capacity { vec_capacity before.new ≡ vec_capacity before.old }
{
    for place in 0..hashes.len() {
        chain(heads, hashes, before, place);
    }
}

/// Takes the places from this one on out of their chains.
fn unchain_from(heads: &mut Vec<u32>, hashes: &[u32], before: &[u32], kept: usize)
    requires paired { length before.now ≡ length hashes.now }
    requires fits { length hashes.now ≤ vec_len heads.old }
    requires small { vec_len heads.old < 2 ^ 32 }
    requires chained { IsChained (vec_len heads.old) (length hashes.now) heads.old.items hashes.now before.now }
    ensures chained { IsChained (vec_len heads.old) (min kept (length hashes.now)) heads.new.items hashes.now before.now }
    ensures heads { vec_len heads.new ≡ vec_len heads.old }
{
    let mut place = hashes.len();
    while place > kept {
        place -= 1;
        let bucket = bucket_of(hashes[place], heads.len());
        heads[bucket] = before[place];
    }
}
