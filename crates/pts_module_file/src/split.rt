ghost use Rattle.std.specs.Prelude.{◌≡◌, ◌<◌, ◌∷◌, [], length, MatchOption};
ghost use Rattle.pts_module_file.specs.Text.{lines_of};

use pts_bytes::whole_line;

/// The first line of a text, and the rest, where there is a line.
pub(crate) fn split_line(text: &[u8]) -> Option<(&[u8], &[u8])>
    ensures line { MatchOption result (lines_of text.now ≡ []) (λ parts. lines_of text.now ≡ parts.0.now ∷ lines_of parts.1.now) }
    ensures less { MatchOption result (Unit {0}) (λ parts. length parts.1.now < length text.now) }
{
    match whole_line(text) {
        Some(parts) => Some(parts),
        None if text.is_empty() => None,
        None => Some((text, &text[text.len()..])),
    }
}
