ghost use Rattle.std.specs.Prelude.{◌≡◌, ◌+◌, ◌≤◌, length, chars};
ghost use Rattle.pts_names.specs.Name as names;

use crate::fault::NameFault;
use unicode_ident::{is_xid_continue, is_xid_start};

/// Whether an identifier may begin with this character: it has XID_Start, or is `_`.
pub fn starts_identifier(ch: char) -> bool
    ensures { result ≡ names.starts_identifier ch }
{
    is_xid_start(ch) || ch == '_'
}

/// Whether an identifier may go on with this character: it has XID_Continue.
pub fn continues_identifier(ch: char) -> bool
    ensures { result ≡ names.continues_identifier ch }
{
    is_xid_continue(ch)
}

/// Whether the text is a keyword, which is no identifier.
pub fn is_keyword(text: &str) -> bool
    ensures { result ≡ names.is_keyword (chars text.now) }
{
    text == "let" || text == "in"
}

/// Whether the text is one identifier. It may have any length.
#[tactic(auto, unfolding(crate::specs::Name::is_identifier))]
pub fn is_identifier(text: &str) -> bool
    ensures { result ≡ names.is_identifier text.now }
{
    identifier_fault(text, 0).is_none()
}

/// Why the text, which begins at byte `place`, is not one identifier.
pub(crate) fn identifier_fault(text: &str, place: usize) -> Option<NameFault>
    requires { place + length text.now ≤ usize.MAX }
    ensures { result ≡ names.identifier_fault place (chars text.now) }
{
    let Some(first) = text.chars().next() else {
        return Some(NameFault::BadStart(place));
    };
    if is_keyword(text) || !starts_identifier(first) {
        return Some(NameFault::BadStart(place));
    }
    rest_fault(text, place)
}

/// The first character of the text, which begins at byte `place`, that no identifier goes on with.
fn rest_fault(text: &str, place: usize) -> Option<NameFault>
    requires { place + length text.now ≤ usize.MAX }
    ensures { result ≡ names.rest_fault place (chars text.now) }
{
    'characters: for (at, ch) in text.char_indices() {
        if !continues_identifier(ch) {
            return Some(NameFault::BadPart(place + at));
        }
    }
    None
}
