ghost use Rattle.std.specs.Prelude.{◌≡◌, ◌≤◌, IfOk, OnOk, IfErr};
ghost use Rattle.pts_grammar.specs.Seen.{syntax_of, within};
ghost use Rattle.pts_grammar.specs.Open.{more};
ghost use Rattle.pts_lines.specs.Lines.{alone, of_plain, of_name, of_term, of_type};
ghost use Rattle.pts_lines.specs.Words as words;
ghost use Rattle.pts_lines.specs.Seen.{line_of, deepest, terms_of};
ghost use Rattle.pts_lines.specs.Reading.{SaysLine, FewOpen, RefusesText, line_said};
ghost use Rattle.pts_lines.specs.Forms.{AnswersAs, run_command, run_line};

use crate::command::{Alone, Asked, Command, Named, Placed, WithType};
use crate::item::end;
use crate::line::Line;
use crate::shape::{definition, instance, only_name, only_number, only_plain, two_plain, typed};
use crate::term::{only_term, two_terms};
use crate::word::command;
use pts_grammar::{Kind, Tree};
use pts_names::Name;
use pts_parser::ReadFault;
use pts_tokens::{Token, read_tokens};
use std::alloc::Global;

/// The line that the text says. Its terms are at most 2,000 deep, and their names are not looked up.
///
/// # Errors
///
/// First the tokens of the whole text are read, and the first that is none is answered: `BadChar`, `LongName`. Then the
/// grammar is gone through from the left, and `Expected` names the first token that does not fit, and what must stand
/// there: inside the terms as `parse_term` says, and else a `Plain` name, any `Name`, a `Number`, a `Semicolon`, a
/// `Colon` or `Assign`, of which the latter where both fit, or the `End`, where the line may end. For a word that is no
/// command the answer is `Expected(0, Command)`, wherever it stands. `TooDeep` comes at the first parenthesis that is
/// open beside 2,000 others, before whatever does not fit after it; and at last, at the text's length, where a term is
/// deeper than 2,000.
pub fn read_line(alloc: Global, text: &str) -> Result<Line, ReadFault>
    ensures line { IfOk result (λ l. SaysLine text.now (line_of l)) }
    ensures depth { IfOk result (λ l. deepest (terms_of (line_of l)) ≤ 2000) }
    ensures exact { AnswersAs line_of result (line_said text.now) }
    ensures parentheses { OnOk result (FewOpen words.command text.now) }
    ensures refused { IfErr result (λ e. RefusesText words.command text.now e) }
{
    let tokens = read_tokens(alloc, text, 0)?;
    line(alloc, tokens.as_slice(), text.len())
}

/// The line that the tokens of a text of this length are.
#[tactic(auto, unfolding(crate::specs::Forms::run_line))]
fn line(alloc: Global, tokens: &[(usize, Token)], length: usize) -> Result<Line, ReadFault>
    ensures { AnswersAs line_of result (run_line within more length tokens.now) }
{
    let Some((spot, behind)) = tokens.split_first() else {
        return Err(ReadFault::Expected(length, Kind::Command));
    };
    let Token::Name(word) = &spot.1 else {
        return Err(ReadFault::Expected(0, Kind::Command));
    };
    match command(word.text()) {
        Some(command) => line_behind(alloc, command, behind, length),
        None => Err(ReadFault::Expected(0, Kind::Command)),
    }
}

/// The line of a command with these tokens after its word.
fn line_behind(
    alloc: Global,
    command: Command,
    tokens: &[(usize, Token)],
    length: usize,
) -> Result<Line, ReadFault>
    ensures { AnswersAs line_of result (run_command within more length command tokens.now) }
{
    match command {
        Command::OfNothing(alone) => {
            end(tokens, length)?;
            Ok(alone_line(alone))
        }
        Command::OfPlain(named) => Ok(named_line(named, only_plain(tokens, length)?)),
        Command::OfName(placed) => Ok(placed_line(placed, only_name(tokens, length)?)),
        Command::OfTerm(asked) => Ok(asked_line(asked, only_term(alloc, tokens, length)?)),
        Command::OfType(of) => Ok(typed_line(of, typed(alloc, tokens, length)?)),
        Command::Rename => {
            let (old, new) = two_plain(tokens, length)?;
            Ok(Line::Rename(old, new))
        }
        Command::Budget => Ok(Line::Budget(only_number(tokens, length)?)),
        Command::Equal => {
            let (left, right) = two_terms(alloc, tokens, length)?;
            Ok(Line::Equal(left, right))
        }
        Command::Define => {
            let (name, ty, body) = definition(alloc, tokens, length)?;
            Ok(Line::Define(name, ty, body))
        }
        Command::Instance => {
            let (module, label, arguments) = instance(alloc, tokens, length)?;
            Ok(Line::Instance(module, label, arguments))
        }
    }
}

fn alone_line(command: Alone) -> Line
    ensures { line_of result ≡ alone command }
{
    match command {
        Alone::Look => Line::Look,
        Alone::Commit => Line::Commit,
        Alone::Goals => Line::Goals,
        Alone::Qed => Line::Qed,
        Alone::Abort => Line::Abort,
        Alone::Undo => Line::Undo,
        Alone::Discard => Line::Discard,
        Alone::Draft => Line::Draft,
    }
}

fn named_line(command: Named, name: Name) -> Line
    ensures { line_of result ≡ of_plain command name }
{
    match command {
        Named::Load => Line::Load(name),
        Named::Accept => Line::Accept(name),
        Named::Intro => Line::Intro(name),
    }
}

fn placed_line(command: Placed, placed: (usize, Name)) -> Line
    ensures { line_of result ≡ of_name command placed.0 placed.1 }
{
    let (place, name) = placed;
    match command {
        Placed::Unfold => Line::Unfold(place, name),
        Placed::Show => Line::Show(place, name),
    }
}

fn asked_line(command: Asked, term: Tree) -> Line
    ensures { line_of result ≡ of_term command (syntax_of term) }
{
    match command {
        Asked::Exact => Line::Exact(term),
        Asked::Apply => Line::Apply(term),
        Asked::Convert => Line::Convert(term),
        Asked::Infer => Line::Infer(term),
        Asked::Reduce => Line::Reduce(term),
    }
}

fn typed_line(command: WithType, typed: (Name, Tree)) -> Line
    ensures { line_of result ≡ of_type command typed.0 (syntax_of typed.1) }
{
    let (name, ty) = typed;
    match command {
        WithType::Assume => Line::Assume(name, ty),
        WithType::Theorem => Line::Theorem(name, ty),
        WithType::Cut => Line::Cut(name, ty),
    }
}
