// Where a line may stand that is equal to another one. A hint may be missing or wrong: it is tested where it is used.

use crate::{Node, Shape};
use pts_ctx::Name;
use std::alloc::Global;
use std::hash::{FoldHasher, Hasher};
use std::mem;

// How many slots a table has at first, a power of two.
const FIRST: usize = 64;

// How many slots are looked at for a key, at most. A table is at most half full, so that hardly a key needs as many. Few
// would not do: where the hint to a part is lost, no term that is made of the part is found again.
const REACH: usize = 64;

// An odd number whose bits are as good as random: 2^64 divided by the golden ratio.
const MULTIPLIER: u64 = 0x9e37_79b9_7f4a_7c15;

// A key, and the number of a line that had it. Of a free slot both are 0.
#[derive(Clone, Copy)]
struct Hint {
    key: u64,
    line: usize,
}

const FREE: Hint = Hint { key: 0, line: 0 };

/// Hints, each in one of the slots from the place of its key on. Without a hint there is no memory.
#[derive(Drop)]
pub(crate) struct Hints {
    slots: Vec<Hint>,
    notes: usize,
}

impl Hints {
    /// No hints.
    pub(crate) fn new(alloc: Global) -> Hints {
        Hints {
            slots: Vec::new(alloc),
            notes: 0,
        }
    }

    /// The line that was noted under a key, if that is not forgotten.
    pub(crate) fn line(&self, key: u64) -> Option<usize> {
        let slot = self.slots.get(self.place(key))?;
        if slot.key == key {
            Some(slot.line)
        } else {
            None
        }
    }

    /// Notes a line under a key. Another hint may be forgotten for it. Without memory there may be no hint.
    pub(crate) fn note(&mut self, alloc: Global, key: u64, line: usize) {
        if self.notes >= self.slots.len() / 2 {
            self.grow(alloc);
        }
        self.notes = self.notes.saturating_add(1);
        self.put(Hint { key, line });
    }

    // Twice as many slots, and each hint among them. Without memory all stays as it is.
    fn grow(&mut self, alloc: Global) {
        let wanted = self.slots.len().saturating_mul(2).max(FIRST);
        let Ok(slots) = vec![in alloc; FREE; wanted] else {
            return;
        };
        let before = mem::replace(&mut self.slots, slots);
        for hint in before.iter() {
            if hint.key != FREE.key {
                self.put(*hint);
            }
        }
    }

    fn put(&mut self, hint: Hint) {
        let place = self.place(hint.key);
        if let Some(slot) = self.slots.get_mut(place) {
            *slot = hint;
        }
    }

    // The first of a key's places that is free or has the key, and else its first place.
    fn place(&self, key: u64) -> usize {
        let last = self.slots.len().wrapping_sub(1);
        let first = key as usize & last;
        for step in 0..REACH {
            let place = first.wrapping_add(step) & last;
            match self.slots.get(place) {
                Some(slot) if slot.key != FREE.key && slot.key != key => {}
                _ => return place,
            }
        }
        first
    }
}

/// The key of a term's line.
pub(crate) fn term_key(shape: &Shape) -> u64 {
    let key = match shape {
        Shape::Sort(s) => folded(kind(1), u64::from(s.0)),
        Shape::Const(c) => named(kind(2), c),
        Shape::Var(i) => folded(kind(3), u64::from(*i)),
        Shape::App(f, a) => linked(linked(kind(4), *f), *a),
        Shape::Lam(x, t, b) => linked(linked(named(kind(5), x), *t), *b),
        Shape::Pi(x, t, b) => linked(linked(named(kind(6), x), *t), *b),
        Shape::Let(x, d, t, b) => linked(linked(linked(named(kind(7), x), *d), *t), *b),
    };
    spread(key)
}

/// The key of a node's line.
pub(crate) fn node_key(node: &Node) -> u64 {
    let terms = linked(linked(kind(8 + node.form as u64), node.subject), node.claim);
    let premises = linked(linked(linked(terms, node.first), node.second), node.third);
    spread(linked(premises, node.ctx))
}

// A key from which those of one kind of line begin.
fn kind(number: u64) -> u64 {
    folded(0, number)
}

// A key with a number more.
fn folded(key: u64, number: u64) -> u64 {
    (key.rotate_left(5) ^ number).wrapping_mul(MULTIPLIER)
}

// A key with the number of a line more.
fn linked(key: u64, line: usize) -> u64 {
    folded(key, line as u64)
}

// A key with a name more.
fn named(key: u64, name: &Name) -> u64 {
    let mut hasher = FoldHasher::default();
    hasher.write(name.text().as_bytes());
    folded(key, hasher.finish())
}

// A key all bits of which are mixed into its low ones, which give the place.
fn spread(key: u64) -> u64 {
    let mixed = (key ^ key >> 32).wrapping_mul(MULTIPLIER);
    mixed ^ mixed >> 32
}
