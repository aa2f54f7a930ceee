ghost use Rattle.std.specs.Prelude.{◌≡◌, Some, chars};
ghost use Rattle.pts_tokens.specs.Tokens.{begins_with};
ghost use Rattle.pts_tokens.specs.Tokens as text;
ghost use Rattle.pts_tokens.specs.Calls.{sized};

use crate::token::Token;

/// The sign with which a text begins whose first character is `first`, and how many bytes it takes. `after` is the
/// text after that character.
pub(crate) fn sign(first: char, behind: &str) -> Option<(Token, usize)>
    ensures { result ≡ sized (text.sign first (chars behind.now)) }
{
    if first == ':' {
        return Some(colon(behind));
    }
    if first == '-' {
        return minus(behind);
    }
    let token = bracket(first).or(mark(first))?;
    Some((token, 1))
}

/// `:=`, or `:`.
fn colon(behind: &str) -> (Token, usize)
    ensures { sized (text.colon (chars behind.now)) ≡ Some result }
{
    if begins_with(behind, '=') {
        return (Token::Assign, 2);
    }
    (Token::Colon, 1)
}

/// `->`
fn minus(behind: &str) -> Option<(Token, usize)>
    ensures { result ≡ sized (text.minus (chars behind.now)) }
{
    if begins_with(behind, '>') {
        return Some((Token::Arrow, 2));
    }
    None
}

/// Whether the text begins with this character.
fn begins_with(text: &str, ch: char) -> bool
    ensures { result ≡ begins_with ch (chars text.now) }
{
    match text.chars().next() {
        Some(first) => first == ch,
        None => false,
    }
}

/// A bracket or a semicolon.
fn bracket(ch: char) -> Option<Token>
    ensures { result ≡ text.bracket ch }
{
    match ch {
        '(' => Some(Token::Open),
        ')' => Some(Token::Close),
        ';' => Some(Token::Semicolon),
        _ => None,
    }
}

/// A sign of one character that belongs to binders.
fn mark(ch: char) -> Option<Token>
    ensures { result ≡ text.mark ch }
{
    match ch {
        '\\' => Some(Token::Lambda),
        '@' => Some(Token::At),
        '.' => Some(Token::Dot),
        _ => None,
    }
}
