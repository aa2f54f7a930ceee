ghost use Rattle.std.specs.Prelude.{◌≡◌, ◌∷◌, ◌++◌, [], chars, drop, IsCharBoundary, MatchOption, IfOk, IfErr, Ok, Err};
ghost use lib.Utf8.{encode};
ghost use Rattle.pts_tokens.specs.Tokens.{is_blank, begins_sort, token_first, tokens_of};
ghost use Rattle.pts_tokens.specs.Calls.{Answers, UnlessMemory};

use crate::fault::TokenFault;
use crate::sign::sign;
use crate::token::Token;
use crate::word::{number_token, sort_token, word_token};
use pts_names::starts_identifier;
use std::alloc::Global;

/// The tokens of the text from byte `from` on, each with the number of bytes before it in the text. Spaces and tabs
/// separate tokens.
///
/// A name and the identifier of a sort are as long as they can be. So a dot joins two identifiers where it stands
/// directly between them, and is a token of its own anywhere else: beside a keyword, a sort, a number or a blank.
///
/// # Errors
///
/// The first place at which no token begins is answered: `LongName` where a name of more than 128 bytes begins there,
/// else `BadChar`. A quote is no token without an identifier after it, nor is `-` without `>`.
pub fn read_tokens(
    alloc: Global,
    text: &str,
    from: usize,
) -> Result<Vec<(usize, Token)>, TokenFault>
    requires { IsCharBoundary text.now from }
    ensures tokens { IfOk result (λ found. tokens_of from (chars (drop from text.now)) ≡ Ok found.items) }
    ensures refused { IfErr result (λ e. UnlessMemory e (tokens_of from (chars (drop from text.now)) ≡ Err e)) }
{
    let mut found = Vec::new(alloc);
    let mut rest = text.split_at(from).1;
    let mut place = from;
    while let Some((first, behind)) = first_char(rest) {
        if is_blank(first) {
            rest = behind;
            place += 1;
            continue;
        }
        let (token, length) = token_at(alloc, rest, first, behind, place)?;
        found.push((place, token))?;
        rest = rest.split_at(length).1;
        place += length;
    }
    Ok(found)
}

/// The first character of the text, and the text after it.
fn first_char(text: &str) -> Option<(char, &str)>
    ensures { MatchOption result (text.now ≡ []) (λ p. text.now ≡ encode p.0 ++ p.1.now) }
{
    let mut characters = text.chars();
    let first = characters.next()?;
    Some((first, characters.as_str()))
}

/// A space or a tab.
fn is_blank(ch: char) -> bool
    ensures { result ≡ is_blank ch }
{
    ch == ' ' || ch == '\t'
}

/// Whether a sort may begin so.
fn begins_sort(ch: char) -> bool
    ensures { result ≡ begins_sort ch }
{
    ch == '*' || ch == '#' || ch == '\''
}

/// The token with which the text begins, and how many bytes it takes. The text stands at byte `place`; its first
/// character is `first`, and `after` follows.
fn token_at(
    alloc: Global,
    text: &str,
    first: char,
    behind: &str,
    place: usize,
) -> Result<(Token, usize), TokenFault>
    requires { chars text.now ≡ first ∷ chars behind.now }
    ensures { Answers place (token_first first (chars behind.now)) result }
{
    if starts_identifier(first) {
        return word_token(alloc, text, place);
    }
    if first.is_ascii_digit() {
        return Ok(number_token(alloc, text)?);
    }
    if begins_sort(first) {
        return sort_token(alloc, text, first, behind, place);
    }
    match sign(first, behind) {
        Some(found) => Ok(found),
        None => Err(TokenFault::BadChar(place)),
    }
}
