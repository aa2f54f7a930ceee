ghost use Rattle.std.specs.Prelude.{◌≡◌, ◌∷◌, [], Option, IfOk, List, true, map, option_map, drop};
ghost use Rattle.pts_tokens.specs.declared.token.Token.{Token as TheToken};
ghost use Rattle.pts_tokens.specs.Tokens.{Spot};
ghost use Rattle.pts_grammar.specs.declared.state.State.{State};
ghost use Rattle.pts_grammar.specs.Machine.{Frame as TheFrame, begin, is_bracket, applied_to};
ghost use Rattle.pts_grammar.specs.Machine as machine;
ghost use Rattle.pts_grammar.specs.Syntax.{Syntax};
ghost use Rattle.pts_grammar.specs.Seen.{part_of, parts};
ghost use Rattle.pts_grammar.specs.Open.{frame, state_of, move_of, closing_around, is_around, more, outcome_of};

use crate::frame::{Binder, Frame};
use crate::kind::Kind;
use crate::part::Subtree;
use crate::stack::Stack;
use crate::state::{Around, Move, State};
use crate::tree::Tree;
use pts_names::Name;
use pts_tokens::Token;
use std::alloc::{AllocError, Global};

/// What comes of reading a term.
#[derive(Debug, Drop)]
pub enum Parsed {
    /// A term, and how many tokens there are before those after it. There is no tree where it is deeper than 2,000.
    Read(Option<Tree>, usize),
    /// This kind of token must be at this place.
    Expected(usize, Kind),
    /// More than 2,000 parentheses are open at this place.
    TooDeep(usize),
}

/// Reads the term with which the tokens of a text of this length begin.
pub fn parse(alloc: Global, tokens: &[(usize, Token)], length: usize) -> Result<Parsed, AllocError>
    ensures { IfOk result (λ r. outcome_of tokens.now r ≡ machine.run parts more length (begin []) tokens.now) }
{
    let mut stack = Stack::new(alloc);
    let mut state = State::Begin;
    for (index, spot) in tokens.iter().enumerate() {
        match step(alloc, &mut stack, state, spot.0, &spot.1)? {
            Move::Go(next) => {
                state = next;
            }
            Move::Stay(term) => {
                return Ok(Parsed::Read(term.into_tree(), index));
            }
            Move::Fail(kind) => {
                return Ok(Parsed::Expected(spot.0, kind));
            }
            Move::Deep => {
                return Ok(Parsed::TooDeep(spot.0));
            }
        }
    }
    end(alloc, &mut stack, state, length, tokens.len())
}

/// The answer where the text ends: as if a token stood there that closes nothing.
#[tactic(auto, using(crate::proofs::Ends::whole_is))]
fn end(
    alloc: Global,
    stack: &mut Stack,
    state: State,
    length: usize,
    count: usize,
) -> Result<Parsed, AllocError>
    ensures { IfOk result (λ r. (ts : List Spot) → drop count ts ≡ [] → outcome_of ts r ≡ machine.at_end parts length (state_of (map frame stack.old) state)) }
{
    match state {
        State::Begin => Ok(Parsed::Expected(length, Kind::Term)),
        State::Binder(_) | State::LetName => Ok(Parsed::Expected(length, Kind::Name)),
        State::BinderSign(_, _) => Ok(Parsed::Expected(length, Kind::Colon)),
        State::LetSign(_) => Ok(Parsed::Expected(length, Kind::Assign)),
        State::After(function) => match close(alloc, stack, function, &Token::Semicolon)? {
            Move::Stay(term) => Ok(Parsed::Read(term.into_tree(), count)),
            Move::Fail(kind) => Ok(Parsed::Expected(length, kind)),
            _ => Ok(Parsed::Expected(length, Kind::End)),
        },
    }
}

/// One token further.
fn step(
    alloc: Global,
    stack: &mut Stack,
    state: State,
    place: usize,
    next: &Token,
) -> Result<Move, AllocError>
    ensures { IfOk result (λ m. move_of (map frame stack.new) m ≡ machine.step parts more (state_of (map frame stack.old) state) (place, next.now)) }
{
    match state {
        State::Begin => first(stack, place, next),
        State::Binder(binder) => match next {
            Token::Name(name) if name.parts() == 1 => {
                Ok(Move::Go(State::BinderSign(binder, name.copy()?)))
            }
            _ => Ok(Move::Fail(Kind::Name)),
        },
        State::BinderSign(binder, name) => match next {
            Token::Colon => {
                stack.push(Frame::Type(binder, name))?;
                Ok(Move::Go(State::Begin))
            }
            _ => Ok(Move::Fail(Kind::Colon)),
        },
        State::LetName => match next {
            Token::Name(name) if name.parts() == 1 => { Ok(Move::Go(State::LetSign(name.copy()?))) }
            _ => Ok(Move::Fail(Kind::Name)),
        },
        State::LetSign(name) => match next {
            Token::Assign => {
                stack.push(Frame::LetValue(name))?;
                Ok(Move::Go(State::Begin))
            }
            _ => Ok(Move::Fail(Kind::Assign)),
        },
        State::After(function) => further(alloc, stack, function, place, next),
    }
}

/// The first token of a term.
fn first(stack: &mut Stack, place: usize, next: &Token) -> Result<Move, AllocError>
    ensures { IfOk result (λ m. move_of (map frame stack.new) m ≡ machine.step parts more (begin (map frame stack.old)) (place, next.now)) }
{
    match next {
        Token::Lambda => Ok(Move::Go(State::Binder(Binder::Lam))),
        Token::At => Ok(Move::Go(State::Binder(Binder::Pi))),
        Token::Let => Ok(Move::Go(State::LetName)),
        Token::Sort(spelling) => Ok(Move::Go(State::After(Subtree::sort(place, spelling.copy()?)))),
        Token::Name(name) => Ok(Move::Go(State::After(Subtree::name(place, name.copy()?)))),
        Token::Open => open(stack, None),
        _ => Ok(Move::Fail(Kind::Term)),
    }
}

/// A token after an application.
fn further(
    alloc: Global,
    stack: &mut Stack,
    function: Subtree,
    place: usize,
    next: &Token,
) -> Result<Move, AllocError>
    ensures { IfOk result (λ m. move_of (map frame stack.new) m ≡ machine.step parts more (machine.after (map frame stack.old) (part_of function)) (place, next.now)) }
{
    match next {
        Token::Sort(spelling) => {
            let argument = Subtree::sort(place, spelling.copy()?);
            Ok(Move::Go(State::After(Subtree::applied(alloc, function, argument)?)))
        }
        Token::Name(name) => {
            let argument = Subtree::name(place, name.copy()?);
            Ok(Move::Go(State::After(Subtree::applied(alloc, function, argument)?)))
        }
        Token::Open => open(stack, Some(function)),
        Token::Arrow => {
            stack.push(Frame::Arrow(function))?;
            Ok(Move::Go(State::Begin))
        }
        _ => close(alloc, stack, function, next),
    }
}

/// Opens a parenthesis, perhaps after a function, if another one may be open.
fn open(stack: &mut Stack, function: Option<Subtree>) -> Result<Move, AllocError>
    ensures { IfOk result (λ m. move_of (map frame stack.new) m ≡ machine.opening parts more (option_map part_of function) (map frame stack.old)) }
{
    if stack.parens() >= 2000 {
        return Ok(Move::Deep);
    }
    stack.open(function)?;
    Ok(Move::Go(State::Begin))
}

/// What a token does after a whole term.
fn close(alloc: Global, stack: &mut Stack, whole: Subtree, next: &Token) -> Result<Move, AllocError>
    ensures { IfOk result (λ m. move_of (map frame stack.new) m ≡ machine.closing parts (map frame stack.old) (part_of whole) next.now) }
{
    let mut built = whole;
    while let Some(last) = stack.pop() {
        match widen(alloc, last, built)? {
            Around::Wider(wider) => {
                built = wider;
            }
            Around::Bracket(frame, part) => {
                return bracket(alloc, stack, frame, part, next);
            }
        }
    }
    Ok(Move::Stay(built))
}

/// The term that ends with this whole part, if the construct is one that ends so.
fn widen(alloc: Global, last: Frame, whole: Subtree) -> Result<Around, AllocError>
    ensures same { IfOk result (λ a. (K : List (TheFrame (Option Syntax))) (t : TheToken) → closing_around K a t ≡ machine.closing parts (frame last ∷ K) (part_of whole) t) }
    ensures bracket { IfOk result (λ a. is_around a ≡ true) }
{
    match last {
        Frame::Body(binder, name, domain) => Ok(Around::Wider(Subtree::bound(
            alloc, binder, name, domain, whole,
        )?)),
        Frame::LetBody(name, definition, ty) => Ok(Around::Wider(Subtree::defined(
            alloc, name, definition, ty, whole,
        )?)),
        Frame::Arrow(domain) => Ok(Around::Wider(Subtree::arrow(alloc, domain, whole)?)),
        bracket => Ok(Around::Bracket(bracket, whole)),
    }
}

/// A token after a whole part of a construct that needs one.
fn bracket(
    alloc: Global,
    stack: &mut Stack,
    last: Frame,
    whole: Subtree,
    next: &Token,
) -> Result<Move, AllocError>
    requires { is_bracket (frame last) ≡ true }
    ensures { IfOk result (λ m. move_of (map frame stack.new) m ≡ machine.closing parts (frame last ∷ map frame stack.old) (part_of whole) next.now) }
{
    match (last, next) {
        (Frame::Parens(function), Token::Close) => Ok(Move::Go(State::After(applied(
            alloc, function, whole,
        )?))),
        (Frame::Parens(_), _) => Ok(Move::Fail(Kind::Close)),
        (Frame::Type(binder, name), Token::Dot) => {
            stack.push(Frame::Body(binder, name, whole))?;
            Ok(Move::Go(State::Begin))
        }
        (Frame::Type(_, _), _) => Ok(Move::Fail(Kind::Dot)),
        (Frame::LetValue(name), Token::Colon) => {
            stack.push(Frame::LetType(name, whole))?;
            Ok(Move::Go(State::Begin))
        }
        (Frame::LetValue(_), _) => Ok(Move::Fail(Kind::Colon)),
        (Frame::LetType(name, definition), Token::In) => {
            stack.push(Frame::LetBody(name, definition, whole))?;
            Ok(Move::Go(State::Begin))
        }
        (Frame::LetType(_, _), _) => Ok(Move::Fail(Kind::In)),
        _ => unreachable!(),
    }
}

/// The argument of a function, if there is one.
fn applied(
    alloc: Global,
    function: Option<Subtree>,
    argument: Subtree,
) -> Result<Subtree, AllocError>
    ensures { IfOk result (λ p. part_of p ≡ applied_to parts (option_map part_of function) (part_of argument)) }
{
    match function {
        None => Ok(argument),
        Some(f) => Subtree::applied(alloc, f, argument),
    }
}
