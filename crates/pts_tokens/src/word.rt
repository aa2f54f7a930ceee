ghost use Rattle.std.specs.Prelude.{◌≡◌, ◌≢◌, ◌<◌, ◌∷◌, [], length, true, chars, take_while, IfOk, Some};
ghost use Rattle.std.specs.Char.{is_ascii_digit};
ghost use Rattle.pts_tokens.specs.Tokens.{word, begins_identifier, named, name, worded, number, sort_at};
ghost use Rattle.pts_tokens.specs.Calls.{Answers, sized};

use crate::fault::TokenFault;
use crate::length::{digits_length, name_length, sort_length, word_length};
use crate::token::Token;
use pts_names::{Name, NameFault, SortName, SortNameFault, Text};
use std::alloc::{AllocError, Global};

/// The keyword or the name with which the text begins, and how many bytes it takes. It stands at byte `place`.
pub(crate) fn word_token(
    alloc: Global,
    text: &str,
    place: usize,
) -> Result<(Token, usize), TokenFault>
    requires { word (chars text.now) ≢ [] }
    ensures { Answers place (worded (chars text.now)) result }
{
    let length = word_length(text);
    let word = text.split_at(length).0;
    if word == "let" {
        return Ok((Token::Let, length));
    }
    if word == "in" {
        return Ok((Token::In, length));
    }
    name_token(alloc, text, place)
}

/// The name with which the text begins.
fn name_token(alloc: Global, text: &str, place: usize) -> Result<(Token, usize), TokenFault>
    requires { begins_identifier (chars text.now) ≡ true }
    ensures { Answers place (named (name (chars text.now))) result }
{
    let length = name_length(text);
    match Name::read(alloc, text.split_at(length).0) {
        Ok(name) => Ok((Token::Name(name), length)),
        Err(fault) => match fault {
            NameFault::Memory => Err(TokenFault::Memory),
            _ => Err(TokenFault::LongName(place)),
        },
    }
}

/// The number with which the text begins, and how many bytes it takes.
pub(crate) fn number_token(alloc: Global, text: &str) -> Result<(Token, usize), AllocError>
    ensures { IfOk result (λ found. sized (number (take_while is_ascii_digit (chars text.now))) ≡ Some found) }
{
    let length = digits_length(text);
    let digits = String::from_str(alloc, text.split_at(length).0)?;
    Ok((Token::Number(Text::of(digits)), length))
}

/// The sort with which the text begins, and how many bytes it takes. The text stands at byte `place`; its first
/// character is the sign `first`, and `after` follows.
pub(crate) fn sort_token(
    alloc: Global,
    text: &str,
    first: char,
    behind: &str,
    place: usize,
) -> Result<(Token, usize), TokenFault>
    requires sign { first < 128 }
    requires behind { chars text.now ≡ first ∷ chars behind.now }
    ensures { Answers place (sort_at first (chars behind.now)) result }
{
    let length = sort_length(first, behind);
    match SortName::read(alloc, text.split_at(length).0) {
        Ok(spelling) => Ok((Token::Sort(spelling), length)),
        Err(SortNameFault::Memory) => Err(TokenFault::Memory),
        Err(SortNameFault::BadSpelling) => Err(TokenFault::BadChar(place)),
    }
}
