// Bytes that are cut where a byte is found.

ghost use Rattle.std.specs.Prelude.{◌≡◌, ◌∷◌, [], ◌<◌, List, ℕ, length, MatchOption};
ghost use Rattle.pts_bytes.specs.Pieces.{pieces, lines_among};
ghost use Rattle.pts_bytes.specs.Pieces as bytes;

/// What comes before the first of these bytes in the text, and what comes after it.
pub fn split_at(text: &[u8], byte: u8) -> Option<(&[u8], &[u8])>
    ensures pieces { MatchOption result (pieces byte text.now ≡ text.now ∷ []) (λ parts. pieces byte text.now ≡ parts.0.now ∷ pieces byte parts.1.now) }
    ensures less { MatchOption result (Unit {0}) (λ parts. length parts.1.now < length text.now) }
{
    for (place, found) in text.iter().enumerate() {
        if *found == byte {
            return Some((&text[..place], &text[place + 1..]));
        }
    }
    None
}

/// The first line of the text that ends with a line feed, without the carriage return before it, and the rest.
/// What the text has after its last line feed is up to its format, so that `line` holds for each.
#[tactic(auto, using(crate::proofs::Lines::lines_more))]
pub fn whole_line(text: &[u8]) -> Option<(&[u8], &[u8])>
    ensures line { MatchOption result (pieces 10 text.now ≡ text.now ∷ []) (λ parts. (last : List ℕ → List (List ℕ)) → lines_among last (pieces 10 text.now) ≡ parts.0.now ∷ lines_among last (pieces 10 parts.1.now)) }
    ensures less { MatchOption result (Unit {0}) (λ parts. length parts.1.now < length text.now) }
{
    let (line, rest) = split_at(text, b'\n')?;
    Some((without_return(line), rest))
}

/// The line without the carriage return at its end, where it has one.
pub fn without_return(line: &[u8]) -> &[u8]
    ensures { result.now ≡ bytes.without_return line.now }
{
    match line {
        [front @ .., b'\r'] => front,
        _ => line,
    }
}
