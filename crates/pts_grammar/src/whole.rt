ghost use Rattle.std.specs.Prelude.{◌≤◌, [], IfOk, OnOk, IfErr};
ghost use Rattle.pts_grammar.specs.Syntax.{depth_of};
ghost use Rattle.pts_grammar.specs.Grammar.{Reads};
ghost use Rattle.pts_grammar.specs.Refusals.{NoneTooMany, Refuses};
ghost use Rattle.pts_grammar.specs.Seen.{syntax_of};

use crate::fault::SyntaxFault;
use crate::kind::Kind;
use crate::parser::{Parsed, parse};
use crate::tree::Tree;
use pts_tokens::Token;
use std::alloc::Global;

/// The term of which the tokens of a text of this length are the text. It is at most 2,000 deep.
///
/// # Errors
///
/// The tokens are read from the left. `Expected` names the first that does not fit and what must be there: the token
/// that closes the innermost open construct, also where a term before it could go on, `Term` where a term must begin,
/// and `Name` for a binder. `TooDeep` comes at a parenthesis that is open beside 2,000 others; and at last, at the text's
/// length, where the term is too deep.
pub fn parse_term(
    alloc: Global,
    tokens: &[(usize, Token)],
    length: usize,
) -> Result<Tree, SyntaxFault>
    ensures term { IfOk result (λ t. Reads tokens.now (syntax_of t) []) }
    ensures parentheses { OnOk result (NoneTooMany 2000 tokens.now) }
    ensures depth { IfOk result (λ t. depth_of (syntax_of t) ≤ 2000) }
    ensures refused { IfErr result (λ e. Refuses length tokens.now e) }
{
    match parse(alloc, tokens, length)? {
        Parsed::Expected(place, kind) => Err(SyntaxFault::Expected(place, kind)),
        Parsed::TooDeep(place) => Err(SyntaxFault::TooDeep(place)),
        Parsed::Read(tree, count) => {
            if let Some(spot) = tokens.get(count) {
                return Err(SyntaxFault::Expected(spot.0, Kind::End));
            }
            match tree {
                Some(tree) => Ok(tree),
                None => Err(SyntaxFault::TooDeep(length)),
            }
        }
    }
}
