ghost use Rattle.std.specs.Prelude.{◌≡◌, ◌∷◌, [], ◌<◌, length, Some, None, MatchOption, MatchResult};
ghost use Rattle.pts_certificate.specs.Text.{lines, words};
ghost use Rattle.pts_certificate.specs.Rows.{alone};

use crate::fault::LineFault;
use pts_bytes::{is_text, split_at, whole_line};
use std::marker::Model;

/// The words of a line that are not yet taken. Contracts see their list.
#[derive(Drop)]
pub(crate) struct Words<'a> {
    rest: Option<&'a [u8]>,
}

impl<'a> Model for Words<'a> {
    ghost use Rattle.std.specs.Prelude.{List, ℕ};
    ghost use Rattle.std.specs.Coded.{coded_list, coded_ℕ};
    ghost use Rattle.pts_certificate.specs.Calls.{words_of};

    ghost Value = { List (List ℕ) };

    ghost coded = { coded_list (coded_list coded_ℕ) };

    ghost view = { λ w. words_of w.rest };
}

impl<'a> Words<'a> {
    /// The words of a line.
    pub(crate) fn of(line: &'a [u8]) -> Words<'a>
        ensures { result ≡ words line.now }
    {
        Words { rest: Some(line) }
    }

    /// The next word, which is taken.
    pub(crate) fn next(&mut self) -> Option<&'a [u8]>
        ensures { MatchOption result (self.old ≡ []) (λ word. self.old ≡ word.now ∷ self.new) }
    {
        let text = self.rest?;
        match split_at(text, b' ') {
            Some((word, rest)) => {
                self.rest = Some(rest);
                Some(word)
            }
            None => {
                self.rest = None;
                Some(text)
            }
        }
    }

    /// The next word, where there must be one.
    ///
    /// # Errors
    ///
    /// `BadLine`.
    pub(crate) fn field(&mut self) -> Result<&'a [u8], LineFault>
        ensures { MatchResult result (λ word. self.old ≡ word.now ∷ self.new) (λ e. (e ≡ LineFault.BadLine) × (self.old ≡ [])) }
    {
        match self.next() {
            Some(word) => Ok(word),
            None => Err(LineFault::BadLine),
        }
    }

    /// That no word is left.
    ///
    /// # Errors
    ///
    /// `BadLine`.
    pub(crate) fn end(mut self) -> Result<(), LineFault>
        ensures { result ≡ alone self.entry tt }
    {
        match self.next() {
            Some(_) => Err(LineFault::BadLine),
            None => Ok(()),
        }
    }
}

/// The first line of a text, and the rest.
pub(crate) fn split_line(text: &[u8]) -> Option<(&[u8], &[u8])>
    ensures line { MatchOption result (lines text.now ≡ []) (λ parts. lines text.now ≡ parts.0.now ∷ lines parts.1.now) }
    ensures less { MatchOption result (Unit {0}) (λ parts. length parts.1.now < length text.now) }
{
    match whole_line(text) {
        Some(parts) => Some(parts),
        None if is_text(text, "end") => Some((text, &text[text.len()..])),
        None => None,
    }
}
