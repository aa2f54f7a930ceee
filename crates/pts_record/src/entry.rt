// The entries of local contexts.

ghost use Rattle.std.specs.Prelude.{◌≡◌, ◌<◌, length, IfSome};
ghost use Rattle.std.specs.Option.{option_map};
ghost use Rattle.pts_ctx.specs.Front.{entry_at};
ghost use Rattle.pts_record.specs.Table.{AllBelow, bare_trees, named_trees};
ghost use Rattle.pts_record.specs.Said.{told, named_told, scope_of, assumed_by, defined_by, local_of, entry_terms};

use crate::{Form, Record};

/// The terms of a judgement or of a comparison, by their numbers.
#[derive(Clone, Copy, Debug, PartialEq, Eq)]
pub struct Terms {
    pub subject: usize,
    pub claim: usize,
}

/// An entry of a local context, with the numbers of its terms: the type of an assumption, or the body and the type
/// of a definition. Of a bare entry nothing is known.
#[derive(Clone, Copy, Debug, PartialEq, Eq)]
pub enum LocalEntry {
    Assumed(usize),
    Defined(usize, usize),
    Unknown,
}

impl Record {
    /// The entry with that index of the context that a node is or speaks of, the newest entry's index being 0.
    /// The walk is as long as the index and the nodes on the way.
    pub fn entry(&self, ctx: usize, index: u32) -> Option<LocalEntry>
        requires { ctx < length self.now.nodes }
        ensures stand { IfSome result (λ e. AllBelow (length self.now.shapes) (entry_terms e)) }
        ensures entry { option_map (local_of (bare_trees self.now.shapes)) result ≡ entry_at (scope_of (told self.now ctx)).entries index }
        ensures named { option_map (local_of (named_trees self.now.shapes)) result ≡ entry_at (scope_of (named_told self.now ctx)).entries index }
    {
        let mut at = ctx;
        let mut left = index;
        'walk: loop {
            let node = self.node(at);
            match node.form {
                Form::Empty => return None,
                Form::Assume => {
                    if left == 0 {
                        return Some(self.assumption(node.first));
                    }
                    left -= 1;
                    at = node.first;
                }
                Form::Define => {
                    if left == 0 {
                        return Some(self.definition(node.first));
                    }
                    left -= 1;
                    at = node.first;
                }
                Form::Bare => {
                    if left == 0 {
                        return Some(LocalEntry::Unknown);
                    }
                    left -= 1;
                    at = node.ctx;
                }
                _ => at = node.ctx,
            }
        }
    }

    // The entry that `assume` makes of a node.
    fn assumption(&self, number: usize) -> LocalEntry
        requires { number < length self.now.nodes }
        ensures stand { AllBelow (length self.now.shapes) (entry_terms result) }
        ensures entry { local_of (bare_trees self.now.shapes) result ≡ assumed_by (told self.now number) }
        ensures named { local_of (named_trees self.now.shapes) result ≡ assumed_by (named_told self.now number) }
    {
        match self.judged(number) {
            Some(terms) => LocalEntry::Assumed(terms.subject),
            None => LocalEntry::Unknown,
        }
    }

    // The entry that `define` makes of a node.
    fn definition(&self, number: usize) -> LocalEntry
        requires { number < length self.now.nodes }
        ensures stand { AllBelow (length self.now.shapes) (entry_terms result) }
        ensures entry { local_of (bare_trees self.now.shapes) result ≡ defined_by (told self.now number) }
        ensures named { local_of (named_trees self.now.shapes) result ≡ defined_by (named_told self.now number) }
    {
        match self.judged(number) {
            Some(terms) => LocalEntry::Defined(terms.subject, terms.claim),
            None => LocalEntry::Unknown,
        }
    }
}
