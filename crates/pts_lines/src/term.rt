ghost use Rattle.std.specs.Prelude.{◌≡◌, IfOk, map, option_map};
ghost use Rattle.std.specs.Prelude.{length as count};
ghost use Rattle.pts_grammar.specs.Seen.{part_of, syntax_of, within};
ghost use Rattle.pts_grammar.specs.Open.{more};
ghost use Rattle.pts_lines.specs.Forms.{AnswersAs, all_of, some_of, begins_term, is_semicolon, next_term, term_form, terms_form, terms, run_form, pair};
ghost use Rattle.pts_lines.specs.Forms as forms;

use crate::item::{end, semicolon};
use pts_grammar::{Kind, Parsed, Tree, parse};
use pts_parser::ReadFault;
use pts_tokens::Token;
use std::alloc::{AllocError, Global};

/// The term with which the tokens begin, if it is not too deep, and the tokens after it.
#[tactic(auto, using(crate::proofs::Kept::first_is))]
pub(crate) fn first_term(
    alloc: Global,
    tokens: &[(usize, Token)],
    length: usize,
) -> Result<(Option<Tree>, &[(usize, Token)]), ReadFault>
    ensures term { AnswersAs (λ v. (part_of v.0, v.1.now)) result (forms.first_term within more length tokens.now) }
{
    match parse(alloc, tokens, length)? {
        Parsed::Read(term, count) => {
            let behind = tokens.split_at(count.min(tokens.len())).1;
            Ok((term, behind))
        }
        Parsed::Expected(place, kind) => Err(ReadFault::Expected(place, kind)),
        Parsed::TooDeep(place) => Err(ReadFault::TooDeep(place)),
    }
}

/// The term that the tokens are.
pub(crate) fn only_term(
    alloc: Global,
    tokens: &[(usize, Token)],
    length: usize,
) -> Result<Tree, ReadFault>
    ensures { AnswersAs syntax_of result (run_form within more length term_form tokens.now) }
{
    let (term, behind) = first_term(alloc, tokens, length)?;
    end(behind, length)?;
    match term {
        Some(tree) => Ok(tree),
        None => Err(ReadFault::TooDeep(length)),
    }
}

/// The two terms between which a semicolon stands.
pub(crate) fn two_terms(
    alloc: Global,
    tokens: &[(usize, Token)],
    length: usize,
) -> Result<(Tree, Tree), ReadFault>
    ensures { AnswersAs (λ r. (syntax_of r.0, syntax_of r.1)) result (run_form within more length terms_form tokens.now) }
{
    let (first, behind) = first_term(alloc, tokens, length)?;
    let behind = semicolon(behind, length)?;
    let (second, behind) = first_term(alloc, behind, length)?;
    end(behind, length)?;
    match both(first, second) {
        Some(pair) => Ok(pair),
        None => Err(ReadFault::TooDeep(length)),
    }
}

/// The two trees, if there are both.
pub(crate) fn both(first: Option<Tree>, second: Option<Tree>) -> Option<(Tree, Tree)>
    ensures { option_map (λ r. (syntax_of r.0, syntax_of r.1)) result ≡ pair (part_of first) (part_of second) }
{
    match (first, second) {
        (Some(left), Some(right)) => Some((left, right)),
        _ => None,
    }
}

/// The terms that the tokens are, with a semicolon between each and the next, or none.
pub(crate) fn any_terms(
    alloc: Global,
    tokens: &[(usize, Token)],
    length: usize,
) -> Result<Vec<Tree>, ReadFault>
    ensures { AnswersAs (λ v. map syntax_of v.items) result (run_form within more length (terms all_of) tokens.now) }
{
    if let Some(spot) = tokens.first() {
        if !begins_term(&spot.1) {
            return Err(ReadFault::Expected(spot.0, Kind::End));
        }
        let parts = some_terms(alloc, tokens, length)?;
        return match all(alloc, parts)? {
            Some(trees) => Ok(trees),
            None => Err(ReadFault::TooDeep(length)),
        };
    }
    Ok(Vec::new(alloc))
}

/// The terms that the tokens are, with a semicolon between each and the next, where they are not too deep. There is at
/// least one.
fn some_terms(
    alloc: Global,
    tokens: &[(usize, Token)],
    length: usize,
) -> Result<Vec<Option<Tree>>, ReadFault>
    ensures { AnswersAs (λ v. map part_of v.items) result (some_of within more length (count tokens.now) tokens.now) }
{
    let mut parts = Vec::new(alloc);
    let mut rest = tokens;
    'terms: loop {
        let (part, behind) = next_term(alloc, rest, length)?;
        parts.push(part)?;
        let Some(others) = behind else {
            return Ok(parts);
        };
        rest = others;
    }
}

/// A term of several, and the tokens after the semicolon that follows it; or none where nothing does.
fn next_term(
    alloc: Global,
    tokens: &[(usize, Token)],
    length: usize,
) -> Result<(Option<Tree>, Option<&[(usize, Token)]>), ReadFault>
    ensures { AnswersAs (λ v. (part_of v.0, option_map (λ rest. rest.now) v.1)) result (next_term within more length tokens.now) }
{
    let (part, behind) = first_term(alloc, tokens, length)?;
    let Some((spot, others)) = behind.split_first() else {
        return Ok((part, None));
    };
    if is_semicolon(&spot.1) {
        return Ok((part, Some(others)));
    }
    Err(ReadFault::Expected(spot.0, Kind::End))
}

/// Whether the token is `;`.
fn is_semicolon(token: &Token) -> bool
    ensures { result ≡ is_semicolon token.now }
{
    match token {
        Token::Semicolon => true,
        _ => false,
    }
}

/// Whether a term begins with the token.
fn begins_term(token: &Token) -> bool
    ensures { result ≡ begins_term token.now }
{
    match token {
        Token::Lambda | Token::At | Token::Let | Token::Open => true,
        Token::Sort(_) | Token::Name(_) => true,
        _ => false,
    }
}

/// The trees, if there are all.
fn all(alloc: Global, parts: Vec<Option<Tree>>) -> Result<Option<Vec<Tree>>, AllocError>
    ensures { IfOk result (λ r. option_map (λ v. map syntax_of v.items) r ≡ all_of (map part_of parts.items)) }
{
    let mut trees = Vec::new(alloc);
    for part in parts {
        let Some(tree) = part else {
            return Ok(None);
        };
        trees.push(tree)?;
    }
    Ok(Some(trees))
}
