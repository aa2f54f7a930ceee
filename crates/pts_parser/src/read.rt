ghost use Rattle.std.specs.Prelude.{◌≤◌, IsCharBoundary, IfOk, OnOk, IfErr, Ok};
ghost use Rattle.pts_grammar.specs.Syntax.{depth_of};
ghost use Rattle.pts_grammar.specs.Seen.{syntax_of};
ghost use Rattle.pts_terms.specs.Seen.{named};
ghost use Rattle.pts_parser.specs.Reading.{Says, IsShallow, RefusesTree, Means, RefusesTerm};

use crate::fault::ReadFault;
use crate::resolution::resolve;
use crate::scope::Scope;
use pts_ctx::System;
use pts_grammar::{Tree, parse_term};
use pts_names::Name;
use pts_terms::Term;
use pts_tokens::read_tokens;
use std::alloc::Global;

/// The tree that the text says from byte `from` on. It is at most 2,000 deep.
///
/// # Errors
///
/// First the tokens are read, and the first that is none is answered: `BadChar`, `LongName`. Then the grammar is gone
/// through from the left: `Expected` names the first token that does not fit, and `TooDeep` a parenthesis that is one too
/// many. Last comes `TooDeep` at the text's length, where the term is deeper than 2,000.
pub fn read_tree(alloc: Global, text: &str, from: usize) -> Result<Tree, ReadFault>
    requires { IsCharBoundary text.now from }
    ensures tree { IfOk result (λ t. Says text.now from (syntax_of t)) }
    ensures depth { IfOk result (λ t. depth_of (syntax_of t) ≤ 2000) }
    ensures parentheses { OnOk result (IsShallow text.now from) }
    ensures refused { IfErr result (λ e. RefusesTree text.now from e) }
{
    let tokens = read_tokens(alloc, text, from)?;
    Ok(parse_term(alloc, tokens.as_slice(), text.len())?)
}

/// The term that the text says from byte `from` on, among these locals, of which the outermost is the first.
///
/// # Errors
///
/// Those of `read_tree`, and then those of `resolve`.
pub fn read_term<S: Scope>(
    alloc: Global,
    text: &str,
    from: usize,
    system: &System,
    locals: &[Name],
    scope: &S,
) -> Result<Term, ReadFault>
    requires { IsCharBoundary text.now from }
    ensures term { IfOk result (λ t. Means text.now from system.now.sorts (S.constants scope.now) locals.now (Ok (named t))) }
    ensures refused { IfErr result (λ e. RefusesTerm text.now from system.now.sorts (S.constants scope.now) locals.now e) }
{
    let tree = read_tree(alloc, text, from)?;
    resolve(alloc, &tree, system, locals, scope)
}
