ghost use Rattle.std.specs.Prelude.{◌≡◌, true, map, option_map};
ghost use Rattle.pts_grammar.specs.Seen.{syntax_of, within};
ghost use Rattle.pts_grammar.specs.Open.{more};
ghost use Rattle.pts_lines.specs.Forms.{AnswersAs, run_form, plain_form, placed_form, number_form, names_form, typed_form, definition_form, body_form, instance_form};

use crate::item::{assign, colon, end, label, name, number, plain, sign};
use crate::term::{any_terms, both, first_term, only_term};
use pts_grammar::Tree;
use pts_names::Name;
use pts_parser::ReadFault;
use pts_tokens::Token;
use std::alloc::Global;

/// The plain name that stands there alone.
pub(crate) fn only_plain(tokens: &[(usize, Token)], length: usize) -> Result<Name, ReadFault>
    ensures { AnswersAs (λ x. x) result (run_form within more length plain_form tokens.now) }
{
    let (name, behind) = plain(tokens, length)?;
    end(behind, length)?;
    Ok(name)
}

/// The two plain names that stand there alone.
pub(crate) fn two_plain(tokens: &[(usize, Token)], length: usize) -> Result<(Name, Name), ReadFault>
    ensures { AnswersAs (λ x. x) result (run_form within more length names_form tokens.now) }
{
    let (first, behind) = plain(tokens, length)?;
    let second = only_plain(behind, length)?;
    Ok((first, second))
}

/// The name that stands there alone, with its place.
pub(crate) fn only_name(
    tokens: &[(usize, Token)],
    length: usize,
) -> Result<(usize, Name), ReadFault>
    ensures { AnswersAs (λ x. x) result (run_form within more length placed_form tokens.now) }
{
    let (placed, behind) = name(tokens, length)?;
    end(behind, length)?;
    Ok(placed)
}

/// The number that stands there alone.
pub(crate) fn only_number(tokens: &[(usize, Token)], length: usize) -> Result<u64, ReadFault>
    ensures { AnswersAs (λ n. n) result (run_form within more length number_form tokens.now) }
{
    let (number, behind) = number(tokens, length)?;
    end(behind, length)?;
    Ok(number)
}

/// A plain name with its type.
#[tactic(auto, using(crate::proofs::Mapped::term_mapped))]
pub(crate) fn typed(
    alloc: Global,
    tokens: &[(usize, Token)],
    length: usize,
) -> Result<(Name, Tree), ReadFault>
    ensures { AnswersAs (λ r. (r.0, syntax_of r.1)) result (run_form within more length typed_form tokens.now) }
{
    let (name, behind) = plain(tokens, length)?;
    let behind = colon(behind, length)?;
    let ty = only_term(alloc, behind, length)?;
    Ok((name, ty))
}

/// A plain name, perhaps its type, and its body.
#[tactic(auto, using(crate::proofs::Mapped::term_mapped))]
pub(crate) fn definition(
    alloc: Global,
    tokens: &[(usize, Token)],
    length: usize,
) -> Result<(Name, Option<Tree>, Tree), ReadFault>
    ensures { AnswersAs (λ r. (r.0, option_map syntax_of r.1, syntax_of r.2)) result (run_form within more length definition_form tokens.now) }
{
    let (name, behind) = plain(tokens, length)?;
    let (is_typed, behind) = sign(behind, length)?;
    if is_typed {
        return typed_body(alloc, name, behind, length);
    }
    let body = only_term(alloc, behind, length)?;
    Ok((name, None, body))
}

/// The type and the body of a definition.
fn typed_body(
    alloc: Global,
    name: Name,
    tokens: &[(usize, Token)],
    length: usize,
) -> Result<(Name, Option<Tree>, Tree), ReadFault>
    ensures { AnswersAs (λ r. (r.0, option_map syntax_of r.1, syntax_of r.2)) result (run_form within more length (body_form name true) tokens.now) }
{
    let (ty, behind) = first_term(alloc, tokens, length)?;
    let behind = assign(behind, length)?;
    let (body, behind) = first_term(alloc, behind, length)?;
    end(behind, length)?;
    match both(ty, body) {
        Some((ty, body)) => Ok((name, Some(ty), body)),
        None => Err(ReadFault::TooDeep(length)),
    }
}

/// A module, a label, and the arguments.
#[tactic(auto, using(crate::proofs::Mapped::terms_mapped))]
pub(crate) fn instance(
    alloc: Global,
    tokens: &[(usize, Token)],
    length: usize,
) -> Result<(Name, Name, Vec<Tree>), ReadFault>
    ensures { AnswersAs (λ r. (r.0, r.1, map syntax_of r.2.items)) result (run_form within more length instance_form tokens.now) }
{
    let (module, behind) = plain(tokens, length)?;
    let (label, behind) = label(behind, length)?;
    let arguments = any_terms(alloc, behind, length)?;
    Ok((module, label, arguments))
}
