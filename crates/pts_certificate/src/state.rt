ghost use Rattle.std.specs.Prelude.{◌≡◌, Ok};
ghost use Rattle.pts_certificate.specs.Calls.{Answers, AnswersAs};
ghost use Rattle.pts_certificate.specs.Certificate as format;
ghost use Rattle.pts_certificate.specs.Seen.{spelled, declared_of, front_of, heading_of, state_of};

use crate::declaration::{concluded, with_node, with_term};
use crate::fault::LineFault;
use crate::lists::{Lists, axiom_row, rule_row, sorts_row};
use crate::node::node_row;
use crate::split::Words;
use crate::term::term_row;
use crate::word::name_row;
use pts_bytes::is_text;
use pts_ctx::{Name, System, SystemFault};
use pts_record::{Declaration, Record};
use std::alloc::Global;

/// The front part of a certificate, from its first line to the end of a declaration.
#[derive(Drop)]
pub(crate) struct Front {
    pub(crate) system: System,
    pub(crate) declarations: Vec<Declaration>,
}

/// The first line of a declaration.
#[derive(Drop)]
pub(crate) struct Heading {
    pub(crate) name: Name,
    pub(crate) defines: bool,
}

/// What may come next.
#[derive(Drop)]
pub(crate) enum State {
    /// The first line.
    Start,
    /// The line of the sorts.
    Sorts,
    /// A further axiom, or what may follow the axioms.
    Axioms(Lists),
    /// A further rule, or what may follow the rules.
    Rules(Lists),
    /// A declaration's first line, or `end`.
    Between(Front),
    /// A line of a declaration.
    Inside(Front, Heading, Record),
    /// Nothing.
    End(Front),
}

/// What may come after a line.
pub(crate) fn step(alloc: Global, state: State, line: &[u8]) -> Result<State, LineFault>
    ensures { AnswersAs state_of result (format.step (state_of state) line.now) }
{
    match state {
        State::Start => first_line(line),
        State::Sorts => sorts_line(alloc, line),
        State::Axioms(lists) => axioms_line(alloc, lists, line),
        State::Rules(lists) => rules_line(alloc, lists, line),
        State::Between(front) => between_line(alloc, front, line),
        State::Inside(front, heading, proof) => inside_line(alloc, front, heading, proof, line),
        State::End(_) => Err(LineFault::BadLine),
    }
}

fn first_line(line: &[u8]) -> Result<State, LineFault>
    ensures { AnswersAs state_of result (format.first_line line.now) }
{
    if is_text(line, "yarrow-certificate 1") {
        Ok(State::Sorts)
    } else {
        Err(LineFault::BadLine)
    }
}

fn sorts_line(alloc: Global, line: &[u8]) -> Result<State, LineFault>
    ensures { AnswersAs state_of result (format.step format.at_sorts line.now) }
{
    let mut fields = Words::of(line);
    let word = fields.field()?;
    Ok(State::Axioms(sorts_row(alloc, word, fields)?))
}

fn axioms_line(alloc: Global, lists: Lists, line: &[u8]) -> Result<State, LineFault>
    ensures { AnswersAs state_of result (format.step (format.at_axioms (spelled lists)) line.now) }
{
    let mut fields = Words::of(line);
    let word = fields.field()?;
    if is_text(word, "axiom") {
        return Ok(State::Axioms(axiom_row(alloc, lists, fields)?));
    }
    rules_row(alloc, lists, word, fields)
}

fn rules_line(alloc: Global, lists: Lists, line: &[u8]) -> Result<State, LineFault>
    ensures { AnswersAs state_of result (format.step (format.at_rules (spelled lists)) line.now) }
{
    let mut fields = Words::of(line);
    let word = fields.field()?;
    rules_row(alloc, lists, word, fields)
}

fn between_line(alloc: Global, front: Front, line: &[u8]) -> Result<State, LineFault>
    ensures { AnswersAs state_of result (format.step (format.between (front_of front)) line.now) }
{
    let mut fields = Words::of(line);
    let word = fields.field()?;
    between_row(alloc, front, word, fields)
}

fn inside_line(
    alloc: Global,
    front: Front,
    heading: Heading,
    proof: Record,
    line: &[u8],
) -> Result<State, LineFault>
    ensures { AnswersAs state_of result (format.step (format.inside (front_of front) (heading_of heading) proof) line.now) }
{
    let mut fields = Words::of(line);
    let word = fields.field()?;
    inside_row(alloc, front, heading, proof, word, fields)
}

fn rules_row(alloc: Global, lists: Lists, word: &[u8], fields: Words) -> Result<State, LineFault>
    ensures { AnswersAs state_of result (format.rules_row (spelled lists) word.now fields.entry) }
{
    if is_text(word, "rule") {
        return Ok(State::Rules(rule_row(alloc, lists, fields)?));
    }
    behind_rules(alloc, lists, word, fields)
}

/// The first line after the rules.
fn behind_rules(alloc: Global, lists: Lists, word: &[u8], fields: Words) -> Result<State, LineFault>
    ensures { AnswersAs state_of result (format.behind_rules (spelled lists) word.now fields.entry) }
{
    let front = Front {
        system: system_of(alloc, lists)?,
        declarations: Vec::new(alloc),
    };
    between_row(alloc, front, word, fields)
}

fn system_of(alloc: Global, lists: Lists) -> Result<System, LineFault>
    ensures { Answers result (format.system_row (spelled lists)) }
{
    let Lists {
        sorts,
        axioms,
        rules,
    } = lists;
    match System::new(alloc, sorts.into_vec(), axioms, rules) {
        Ok(system) => Ok(system),
        Err(SystemFault::Memory) => Err(LineFault::Memory),
        Err(fault) => Err(LineFault::System(fault)),
    }
}

/// A line between declarations.
#[tactic(auto, unfolding(crate::specs::Certificate::between_row))]
fn between_row(alloc: Global, front: Front, word: &[u8], fields: Words) -> Result<State, LineFault>
    ensures { AnswersAs state_of result (format.between_row (front_of front) word.now fields.entry) }
{
    if is_text(word, "assume") {
        let name = name_row(alloc, fields)?;
        return Ok(opened(alloc, front, name, false));
    }
    if is_text(word, "define") {
        let name = name_row(alloc, fields)?;
        return Ok(opened(alloc, front, name, true));
    }
    if is_text(word, "end") {
        fields.end()?;
        return Ok(State::End(front));
    }
    Err(LineFault::BadLine)
}

fn opened(alloc: Global, front: Front, name: Name, defines: bool) -> State
    ensures { state_of result ≡ format.opened (front_of front) defines name }
{
    State::Inside(front, Heading { name, defines }, Record::new(alloc))
}

/// A line of a declaration.
#[tactic(auto, unfolding(crate::specs::Certificate::inside_row))]
fn inside_row(
    alloc: Global,
    front: Front,
    heading: Heading,
    proof: Record,
    word: &[u8],
    fields: Words,
) -> Result<State, LineFault>
    ensures { AnswersAs state_of result (format.inside_row (front_of front) (heading_of heading) proof word.now fields.entry) }
{
    if is_text(word, "t") {
        let shape = term_row(alloc, &front.system, fields)?;
        let longer = with_term(proof, shape)?;
        return Ok(State::Inside(front, heading, longer));
    }
    if is_text(word, "n") {
        let node = node_row(fields)?;
        let longer = with_node(proof, node)?;
        return Ok(State::Inside(front, heading, longer));
    }
    if is_text(word, "qed") {
        fields.end()?;
        let declaration = concluded(heading, proof)?;
        return Ok(State::Between(with_declaration(front, declaration)?));
    }
    Err(LineFault::BadLine)
}

fn with_declaration(mut front: Front, declaration: Declaration) -> Result<Front, LineFault>
    ensures { AnswersAs front_of result (Ok (format.with_declaration (front_of front) (declared_of declaration))) }
{
    front.declarations.push(declaration)?;
    Ok(front)
}
