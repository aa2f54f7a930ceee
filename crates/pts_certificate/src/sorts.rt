ghost use Rattle.std.specs.Prelude.{◌≡◌, ◌++◌, ◌∷◌, [], IfOk};
ghost use Rattle.std.specs.List.{list_any};
ghost use Rattle.pts_names.specs.Name.{same_name};
ghost use Rattle.pts_certificate.specs.Calls.{Answers};
ghost use Rattle.pts_certificate.specs.Rows.{word_where, is_declared, two_sorts, three_sorts};

use crate::fault::LineFault;
use crate::split::Words;
use crate::word::spelling_of;
use indexmap::IndexSet;
use pts_names::SortName;
use std::alloc::{AllocError, Global};
use std::marker::Model;

/// The spellings of a line `sorts`. Contracts see their list. That one stands among them is found by its hash.
#[derive(Drop)]
pub(crate) struct Sorts {
    list: Vec<SortName>,
    known: IndexSet<SortName>,
}

impl Model for Sorts {
    ghost use Rattle.std.specs.Prelude.{List, ℕ, ◌≡◌, nat_eq};
    ghost use Rattle.std.specs.List.{list_any};
    ghost use Rattle.std.specs.Coded.{coded_list, coded_ℕ};
    ghost use Rattle.std.specs.Cmp.Lexicographic.{pointwise};
    ghost use Rattle.pts_names.specs.Name.{same_name};

    ghost Value = { List (List ℕ) };

    ghost coded = { coded_list (coded_list coded_ℕ) };

    ghost view = { λ s. s.list.items };

    ghost invariant = { λ s. (x : List ℕ) → list_any (pointwise nat_eq x) s.known.keys ≡ list_any (same_name x) s.list.items };
}

impl Sorts {
    /// No spelling.
    pub(crate) fn none(alloc: Global) -> Sorts
        ensures { result ≡ [] }
    {
        Sorts {
            list: Vec::new(alloc),
            known: IndexSet::new(alloc),
        }
    }

    /// These spellings, and one more.
    pub(crate) fn with(self, spelling: SortName) -> Result<Sorts, AllocError>
        ensures { IfOk result (λ sorts. sorts ≡ self ++ spelling ∷ []) }
    {
        let copy = spelling.copy()?;
        let Sorts {
            mut list,
            mut known,
        } = self;
        let _ = known.insert(copy)?;
        list.push(spelling)?;
        Ok(Sorts { list, known })
    }

    /// Whether a spelling stands among them.
    fn has(&self, spelling: &SortName) -> bool
        ensures { result ≡ list_any (same_name spelling.now) self.now }
    {
        self.known.contains(spelling)
    }

    /// The spelling that a word is, where it stands among them.
    fn one(&self, alloc: Global, word: &[u8]) -> Result<SortName, LineFault>
        ensures { Answers result (word_where (is_declared self.now) word.now) }
    {
        let spelling = spelling_of(alloc, word)?;
        if !self.has(&spelling) {
            return Err(LineFault::BadLine);
        }
        Ok(spelling)
    }

    /// The two spellings that the fields of a line are, where they stand among them.
    pub(crate) fn two(
        &self,
        alloc: Global,
        mut fields: Words,
    ) -> Result<(SortName, SortName), LineFault>
        ensures { Answers result (two_sorts self.now fields.entry) }
    {
        let first = fields.field()?;
        let second = fields.field()?;
        fields.end()?;
        Ok((self.one(alloc, first)?, self.one(alloc, second)?))
    }

    /// The same of three.
    pub(crate) fn three(
        &self,
        alloc: Global,
        mut fields: Words,
    ) -> Result<(SortName, SortName, SortName), LineFault>
        ensures { Answers result (three_sorts self.now fields.entry) }
    {
        let first = self.one(alloc, fields.field()?)?;
        let (second, third) = self.two(alloc, fields)?;
        Ok((first, second, third))
    }

    /// The list.
    pub(crate) fn into_vec(self) -> Vec<SortName>
        ensures { result.items ≡ self }
    {
        let Sorts { list, known: _ } = self;
        list
    }
}
