ghost use Rattle.std.specs.Prelude.{◌≡◌, true, false, Some, IfOk, IfErr, nat_eq};
ghost use Rattle.std.specs.Hash as fed;
ghost use Rattle.std.specs.Cmp.Rules.{comparing, hashing};
ghost use Rattle.std.specs.Cmp.Lexicographic.{pointwise, nat_list_eq_equiv};
ghost use Rattle.std.specs.Cmp.{partial_equiv_from_equiv};
ghost use Rattle.std.proofs.Common.{rules};
ghost use Rattle.pts_names.specs.Name.{same_name, is_sort_spelling, SpellingUnlessMemory};
ghost use Rattle.pts_names.specs.Name as names;

use crate::fault::SortNameFault;
use crate::identifier::is_identifier;
use std::alloc::{AllocError, Global};
use std::fmt;
use std::fmt::{Display, Formatter};
use std::hash::{Hash, Hasher};
use std::marker::Model;
use std::sync::ArcStr;

/// The spelling of a sort: `*`, `#`, or `'` and one identifier, of any length (this project's rule).
/// Contracts see its bytes.
#[derive(Debug, Drop)]
pub struct SortName {
    text: ArcStr,
}

impl Model for SortName {
    ghost use Rattle.std.specs.Prelude.{List, ℕ, ◌≡◌, true};
    ghost use Rattle.std.specs.Arc.{arc_str_bytes};
    ghost use Rattle.std.specs.Coded.{coded_list, coded_ℕ};
    ghost use Rattle.pts_names.specs.Name.{is_sort_spelling};

    ghost Value = { List ℕ };

    ghost coded = { coded_list coded_ℕ };

    ghost view = { λ s. arc_str_bytes s.text };

    ghost invariant = { λ s. is_sort_spelling (arc_str_bytes s.text) ≡ true };
}

impl SortName {
    /// The spelling with this text, which it copies.
    ///
    /// # Errors
    ///
    /// `BadSpelling` comes exactly where the text is no spelling of a sort.
    pub fn read(alloc: Global, text: &str) -> Result<SortName, SortNameFault>
        ensures text { IfOk result (λ s. s ≡ text.now) }
        ensures spelling { IfOk result (λ _. is_sort_spelling text.now ≡ true) }
        ensures refused { IfErr result (λ e. SpellingUnlessMemory e (is_sort_spelling text.now ≡ false)) }
    {
        if !is_sort_spelling(text) {
            return Err(SortNameFault::BadSpelling);
        }
        Ok(SortName {
            text: ArcStr::from_str(alloc, text)?,
        })
    }

    /// The text.
    pub fn text(&self) -> &str
        ensures text { result.now ≡ self.now }
        ensures spelling { is_sort_spelling self.now ≡ true }
    {
        self.text.as_str()
    }

    /// The same spelling again. The two share their text.
    pub fn copy(&self) -> Result<SortName, AllocError>
        ensures { IfOk result (λ s. s ≡ self.now) }
    {
        Ok(SortName {
            text: self.text.clone()?,
        })
    }

    /// Whether the two spellings have the same text.
    pub fn same(&self, other: &SortName) -> bool
        ensures { result ≡ same_name self.now other.now }
    {
        self == other
    }
}

impl PartialEq for SortName {
    ghost eq = { pointwise nat_eq };

    ghost laws = { partial_equiv_from_equiv nat_list_eq_equiv };

    fn eq(&self, other: &SortName) -> bool {
        self.text.as_str() == other.text.as_str()
    }
}

impl Eq for SortName {
    ghost laws = { nat_list_eq_equiv };
}

impl Hash for SortName {
    ghost hash_input = { fed.str };

    ghost respects_eq = { Prim.search (hashing, rules) };

    fn hash<H: Hasher>(&self, state: &mut H) {
        self.text.as_str().hash(state);
    }
}

impl Display for SortName {
    ghost output = { λ s. Some s };

    fn fmt<W: fmt::Write>(&self, f: &mut Formatter<W>) -> fmt::Result {
        f.write_str(self.text.as_str())
    }
}

/// Whether the text spells a sort.
#[tactic(auto, unfolding(crate::specs::Name::is_sort_spelling))]
fn is_sort_spelling(text: &str) -> bool
    ensures { result ≡ names.is_sort_spelling text.now }
{
    if text == "*" || text == "#" {
        return true;
    }
    match text.strip_prefix('\'') {
        Some(word) => is_identifier(word),
        None => false,
    }
}
