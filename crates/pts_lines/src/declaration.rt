ghost use Rattle.std.specs.Prelude.{◌≡◌, ◌≤◌, IfOk, OnOk, IfErr, take};
ghost use Rattle.pts_grammar.specs.Seen.{within};
ghost use Rattle.pts_grammar.specs.Open.{more};
ghost use Rattle.pts_parser.specs.Reading.{tokens_from};
ghost use Rattle.pts_lines.specs.Words.{declaring};
ghost use Rattle.pts_lines.specs.Seen.{declaration_of, deepest, terms_of};
ghost use Rattle.pts_lines.specs.Reading.{SaysDeclaration, FewOpen, RefusesText, declaration_said, declared_at, declared_in, declared_front, declared_first};
ghost use Rattle.pts_lines.specs.Forms.{AnswersAs, run_declaration};

use crate::command::Declaring;
use crate::shape::{definition, typed};
use crate::word::declared;
use pts_bytes::text_of;
use pts_grammar::{Kind, Tree};
use pts_names::Name;
use pts_parser::ReadFault;
use pts_tokens::{Token, TokenFault, read_tokens};
use std::alloc::{AllocError, Global};

/// A line of a module file that declares something: a parameter or an assumption with its type, or a definition with its
/// type, if it is written, and its body.
#[derive(Debug, Drop)]
pub enum DeclaringLine {
    Parameter(Name, Tree),
    Assume(Name, Tree),
    Define(Name, Option<Tree>, Tree),
}

/// The declaration that the text says. Its terms are at most 2,000 deep, and their names are not looked up.
///
/// # Errors
///
/// Those of `read_line`, the only words being `parameter`, `assume` and `define`.
pub fn read_declaration(alloc: Global, text: &str) -> Result<DeclaringLine, ReadFault>
    ensures declaration { IfOk result (λ d. SaysDeclaration text.now (declaration_of d)) }
    ensures depth { IfOk result (λ d. deepest (terms_of (declaration_of d).1) ≤ 2000) }
    ensures exact { AnswersAs declaration_of result (declaration_said text.now) }
    ensures parentheses { OnOk result (FewOpen declaring text.now) }
    ensures refused { IfErr result (λ e. RefusesText declaring text.now e) }
{
    let tokens = read_tokens(alloc, text, 0)?;
    declaration_at(alloc, tokens.as_slice(), text.len())
}

/// The declaration that the tokens of a text of this length are.
#[tactic(auto, unfolding(crate::specs::Forms::run_declaration))]
fn declaration_at(
    alloc: Global,
    tokens: &[(usize, Token)],
    length: usize,
) -> Result<DeclaringLine, ReadFault>
    ensures { AnswersAs declaration_of result (run_declaration within more length tokens.now) }
{
    let Some((spot, behind)) = tokens.split_first() else {
        return Err(ReadFault::Expected(length, Kind::Command));
    };
    let Token::Name(word) = &spot.1 else {
        return Err(ReadFault::Expected(0, Kind::Command));
    };
    match declared(word.text()) {
        Some(Declaring::Parameter) => {
            let (name, ty) = typed(alloc, behind, length)?;
            Ok(DeclaringLine::Parameter(name, ty))
        }
        Some(Declaring::Assume) => {
            let (name, ty) = typed(alloc, behind, length)?;
            Ok(DeclaringLine::Assume(name, ty))
        }
        Some(Declaring::Define) => {
            let (name, ty, body) = definition(alloc, behind, length)?;
            Ok(DeclaringLine::Define(name, ty, body))
        }
        None => Err(ReadFault::Expected(0, Kind::Command)),
    }
}

/// What the text declares, by its first token alone: whether that is a word of a declaration. A text without tokens is cut
/// off at the place at which it is refused.
pub fn declaring_word(alloc: Global, text: &str) -> Result<Option<Declaring>, AllocError>
    ensures { IfOk result (λ d. d ≡ declared_first text.now) }
{
    match read_tokens(alloc, text, 0) {
        Ok(tokens) => Ok(first_word(tokens.as_slice())),
        Err(TokenFault::Memory) => Err(AllocError),
        Err(TokenFault::BadChar(place)) => word_before(alloc, text, place),
        Err(TokenFault::LongName(place)) => word_before(alloc, text, place),
    }
}

/// The same of the text before a place.
#[tactic(auto, using(crate::proofs::Lines::front_is))]
fn word_before(alloc: Global, text: &str, place: usize) -> Result<Option<Declaring>, AllocError>
    ensures { IfOk result (λ d. d ≡ declared_front (take place text.now)) }
{
    let bytes = text.as_bytes();
    word_in(alloc, bytes.split_at(place.min(bytes.len())).0)
}

/// The same of a text that may not be UTF-8.
fn word_in(alloc: Global, front: &[u8]) -> Result<Option<Declaring>, AllocError>
    ensures { IfOk result (λ d. d ≡ declared_front front.now) }
{
    match text_of(front) {
        Some(text) => first_in(alloc, text),
        None => Ok(None),
    }
}

/// The same of a text that has tokens.
fn first_in(alloc: Global, text: &str) -> Result<Option<Declaring>, AllocError>
    ensures { IfOk result (λ d. d ≡ declared_in (tokens_from text.now 0)) }
{
    match read_tokens(alloc, text, 0) {
        Ok(tokens) => Ok(first_word(tokens.as_slice())),
        Err(TokenFault::Memory) => Err(AllocError),
        Err(_) => Ok(None),
    }
}

/// The word of a declaration with which the tokens begin.
fn first_word(tokens: &[(usize, Token)]) -> Option<Declaring>
    ensures { result ≡ declared_at tokens.now }
{
    match &tokens.first()?.1 {
        Token::Name(word) => declared(word.text()),
        _ => None,
    }
}
