ghost use Rattle.std.specs.Prelude.{◌≡◌, ◌↔◌, ◌<◌, ◌≤◌, ◌∷◌, ◌++◌, length, chars, None, Some, IfOk, IfErr, IsTrue, nat_eq};
ghost use Rattle.std.specs.Hash as fed;
ghost use Rattle.std.specs.Cmp.Rules.{comparing, hashing};
ghost use Rattle.std.specs.Cmp.Lexicographic.{pointwise, nat_list_eq_equiv};
ghost use Rattle.std.specs.Cmp.{partial_equiv_from_equiv};
ghost use Rattle.std.proofs.Common.{rules};
ghost use Rattle.pts_names.specs.Name.{same_name, name_fault, joined, part_count, is_identifier, UnlessMemory};
ghost use Rattle.pts_names.specs.Name as names;

use crate::fault::NameFault;
use crate::identifier::identifier_fault;
use std::alloc::{AllocError, Global};
use std::fmt;
use std::fmt::{Display, Formatter};
use std::hash::{Hash, Hasher};
use std::marker::Model;
use std::sync::ArcStr;

/// One or more identifiers joined by single dots, in at most 128 bytes. Contracts see its bytes.
///
/// An identifier begins with a character that has the property XID_Start (Unicode Standard Annex 31),
/// or with `_`, and goes on with characters that have XID_Continue. `let` and `in` are keywords and no
/// identifiers. `_`, the keywords, the dots and the bound are this project's.
#[derive(Debug, Drop)]
pub struct Name {
    text: ArcStr,
}

impl Model for Name {
    ghost use Rattle.std.specs.Prelude.{List, ℕ, ◌≡◌, None};
    ghost use Rattle.std.specs.Arc.{arc_str_bytes};
    ghost use Rattle.std.specs.Coded.{coded_list, coded_ℕ};
    ghost use Rattle.pts_names.specs.Name.{name_fault};

    ghost Value = { List ℕ };

    ghost coded = { coded_list coded_ℕ };

    ghost view = { λ n. arc_str_bytes n.text };

    ghost invariant = { λ n. name_fault (arc_str_bytes n.text) ≡ None };
}

impl Name {
    /// The name with this text, which it copies.
    ///
    /// # Errors
    ///
    /// `Empty` and `TooLong` are tested first. Then the parts are gone through in order, and the first
    /// that is no identifier is answered: `BadStart` where it is empty, is a keyword or begins wrongly,
    /// and else `BadPart` at its first character that does not belong there. `Memory` comes last.
    pub fn read(alloc: Global, text: &str) -> Result<Name, NameFault>
        ensures text { IfOk result (λ n. n ≡ text.now) }
        ensures name { IfOk result (λ _. name_fault text.now ≡ None) }
        ensures refused { IfErr result (λ e. UnlessMemory e (name_fault text.now ≡ Some e)) }
    {
        if let Some(fault) = name_fault(text) {
            return Err(fault);
        }
        Ok(Name {
            text: ArcStr::from_str(alloc, text)?,
        })
    }

    /// The name of `last` under `label`: a dot stands between the two.
    ///
    /// # Errors
    ///
    /// `TooLong` comes exactly where that text has more than 128 bytes.
    pub fn join(alloc: Global, label: &Name, last: &Name) -> Result<Name, NameFault>
        ensures text { IfOk result (λ n. n ≡ joined label.now last.now) }
        ensures fits { IfOk result (λ _. length (joined label.now last.now) ≤ 128) }
        ensures refused { IfErr result (λ e. UnlessMemory e (e ≡ NameFault.TooLong (length (joined label.now last.now)))) }
        ensures long { IfErr result (λ e. UnlessMemory e (128 < length (joined label.now last.now))) }
    {
        let length = label.text.len() + 1 + last.text.len();
        if length > 128 {
            return Err(NameFault::TooLong(length));
        }
        let text = format!(in alloc; "{label}.{last}")?;
        Ok(Name {
            text: ArcStr::from_string(text)?,
        })
    }

    /// How many identifiers are joined in it. A name of one part is an identifier.
    pub fn parts(&self) -> usize
        ensures count { result ≡ part_count self.now }
        ensures one { result ≡ 1 ↔ IsTrue (is_identifier self.now) }
    {
        part_count(self.text.as_str())
    }

    /// Whether it is one identifier, and not `_`: what a binder, a declaration and a module may be called.
    pub fn is_plain(&self) -> bool
        ensures { result ≡ names.is_plain self.now }
    {
        self.parts() == 1 && self.text() != "_"
    }

    /// Whether it is plain and has at most 63 bytes, so that it fits after a label of 64 bytes and a dot.
    pub fn is_short(&self) -> bool
        ensures { result ≡ names.is_short self.now }
    {
        self.is_plain() && self.text.len() <= 63
    }

    /// The text. It is a name: from 1 to 128 bytes.
    pub fn text(&self) -> &str
        ensures text { result.now ≡ self.now }
        ensures name { name_fault self.now ≡ None }
        ensures some { 0 < length self.now }
        ensures fits { length self.now ≤ 128 }
    {
        self.text.as_str()
    }

    /// The same name again. The two share their text.
    pub fn copy(&self) -> Result<Name, AllocError>
        ensures { IfOk result (λ n. n ≡ self.now) }
    {
        Ok(Name {
            text: self.text.clone()?,
        })
    }

    /// Whether the two names have the same text.
    pub fn same(&self, other: &Name) -> bool
        ensures { result ≡ same_name self.now other.now }
    {
        self == other
    }
}

impl PartialEq for Name {
    ghost eq = { pointwise nat_eq };

    ghost laws = { partial_equiv_from_equiv nat_list_eq_equiv };

    fn eq(&self, other: &Name) -> bool {
        self.text.as_str() == other.text.as_str()
    }
}

impl Eq for Name {
    ghost laws = { nat_list_eq_equiv };
}

impl Hash for Name {
    ghost hash_input = { fed.str };

    ghost respects_eq = { Prim.search (hashing, rules) };

    fn hash<H: Hasher>(&self, state: &mut H) {
        self.text.as_str().hash(state);
    }
}

impl Display for Name {
    ghost output = { λ n. Some n };

    fn fmt<W: fmt::Write>(&self, f: &mut Formatter<W>) -> fmt::Result {
        f.write_str(self.text.as_str())
    }
}

/// How many parts the text has: one more than it has dots.
fn part_count(text: &str) -> usize
    ensures { result ≡ names.part_count text.now }
{
    let mut count = 1;
    let mut rest = text;
    while let Some((_, behind)) = rest.split_once('.') {
        count += 1;
        rest = behind;
    }
    count
}

/// Why the text is no name.
#[tactic(auto, unfolding(crate::specs::Name::name_fault))]
fn name_fault(text: &str) -> Option<NameFault>
    ensures { result ≡ names.name_fault text.now }
{
    if text.is_empty() {
        return Some(NameFault::Empty);
    }
    if text.len() > 128 {
        return Some(NameFault::TooLong(text.len()));
    }
    parts_fault(text)
}

/// The fault of the first part of the text that is no identifier.
fn parts_fault(text: &str) -> Option<NameFault>
    requires { length text.now ≤ 128 }
    ensures { result ≡ names.parts_fault 0 (names.parts (chars text.now)) }
{
    let mut rest = text;
    let mut place = 0;
    while let Some((part, behind)) = rest.split_once('.') {
        if let Some(fault) = identifier_fault(part, place) {
            return Some(fault);
        }
        place += part.len() + 1;
        rest = behind;
    }
    identifier_fault(rest, place)
}
