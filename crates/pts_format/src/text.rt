ghost use Rattle.std.specs.Prelude.{◌≡◌, IfOk, IfErr, string_bytes};
ghost use Rattle.pts_terms.specs.Seen.{named};
ghost use Rattle.pts_format.specs.Lines.{term_line, TextSays};
ghost use Rattle.pts_format.specs.Calls.{Replies, EndsBy};

use crate::scope::NoConstants;
use crate::words::{bad_line, refusal_line};
use pts_ctx::System;
use pts_io::{Ended, Input};
use pts_parser::read_term;
use pts_printer::print_term;
use pts_terms::Term;
use std::alloc::{AllocError, Global};

/// The line that is printed for what the reader of lines answered, or how the lines end by it.
pub(crate) fn answer_input(
    alloc: Global,
    system: &System,
    number: u64,
    input: &Input,
) -> Result<String, Ended>
    ensures line { IfOk result (λ line. Replies system.now.sorts number input.now (string_bytes line)) }
    ensures ended { IfErr result (EndsBy input.now) }
{
    let line = match input {
        Input::Text(text) => text_line(alloc, system, text.as_str()),
        Input::Bad => bad_line(alloc, number),
        Input::TooMuch => return Err(Ended::TooMuch),
        Input::End => return Err(Ended::Whole),
    };
    match line {
        Ok(line) => Ok(line),
        Err(_) => Err(Ended::NoMemory),
    }
}

// The line that is printed for a text.
fn text_line(alloc: Global, system: &System, text: &str) -> Result<String, AllocError>
    ensures { IfOk result (λ line. TextSays system.now.sorts text.now (string_bytes line)) }
{
    match read_term(alloc, text, 0, system, &[], &NoConstants) {
        Ok(term) => term_line(alloc, system, &term),
        Err(fault) => refusal_line(alloc, &fault),
    }
}

// A closed term, as a line.
fn term_line(alloc: Global, system: &System, term: &Term) -> Result<String, AllocError>
    ensures { IfOk result (λ line. string_bytes line ≡ term_line system.now.sorts (named term.now)) }
{
    let mut line = print_term(alloc, system, &[], term)?;
    line.push_str("\n")?;
    Ok(line)
}
