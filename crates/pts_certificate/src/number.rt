ghost use Rattle.std.specs.Prelude.{◌≡◌, ◌<◌, ◌≤◌, ◌++◌, ◌∷◌, [], length, Some, None, if◌then◌else◌};
ghost use Rattle.pts_record.specs.Table.{number_in};
ghost use Rattle.pts_bytes.specs.Digits.{is_digits, value};
ghost use Rattle.pts_certificate.specs.Text.{is_number};
ghost use Rattle.pts_certificate.specs.Text as fields;

use crate::fault::LineFault;
use crate::split::Words;
use pts_bytes::{is_digits, number_up_to};
use std::marker::Model;

/// Up to six numbers. Contracts see their list.
#[derive(Drop)]
pub(crate) struct Numbers {
    items: [u32; 6],
    count: usize,
}

impl Model for Numbers {
    ghost use Rattle.std.specs.Prelude.{List, ℕ, take, ◌≤◌};
    ghost use Rattle.std.specs.Coded.{coded_list, coded_ℕ};

    ghost Value = { List ℕ };

    ghost coded = { coded_list coded_ℕ };

    ghost view = { λ n. take n.count n.items };

    ghost invariant = { λ n. n.count ≤ 6 };
}

impl Numbers {
    /// No number.
    fn none() -> Numbers
        ensures { result ≡ [] }
    {
        Numbers {
            items: [0; 6],
            count: 0,
        }
    }

    /// How many there are.
    fn len(&self) -> usize
        ensures { result ≡ length self.now }
    {
        self.count
    }

    /// Adds a number after the others.
    fn push(&mut self, number: u32)
        requires { length self.old < 6 }
        ensures { self.new ≡ self.old ++ number ∷ [] }
    {
        self.items[self.count] = number;
        self.count += 1;
    }

    /// The number at a place, or 0 past the last.
    pub(crate) fn at(&self, place: usize) -> u32
        ensures { result ≡ number_in self.now place }
    {
        if place < self.count {
            self.items[place]
        } else {
            0
        }
    }

    /// The same as the number of a term or a node.
    pub(crate) fn link(&self, place: usize) -> usize
        ensures { result ≡ number_in self.now place }
    {
        self.at(place) as usize
    }
}

/// The numbers of the fields of a line, which must be as many as `count`.
#[tactic(auto, using(crate::proofs::Numbers::all_behind))]
pub(crate) fn numbers_of(words: Words, count: usize) -> Result<Numbers, LineFault>
    requires { count ≤ 6 }
    ensures { result ≡ fields.numbers count words.entry }
{
    let mut words = words;
    let mut found = Numbers::none();
    let mut fit = true;
    while let Some(word) = words.next() {
        if found.len() == count || !is_digits(word) {
            return Err(LineFault::BadLine);
        }
        let number = number_of(word);
        fit = fit && number.is_some();
        found.push(number.unwrap_or(0));
    }
    if found.len() != count {
        return Err(LineFault::BadLine);
    }
    if !fit {
        return Err(LineFault::BadNumber);
    }
    Ok(found)
}

/// The number that the digits write, where it is one of a certificate.
fn number_of(digits: &[u8]) -> Option<u32>
    ensures { result ≡ (if is_number digits.now then Some (value digits.now) else None) }
{
    match number_up_to(u64::from(u32::MAX), digits) {
        Some(number) => Some(number as u32),
        None => None,
    }
}
