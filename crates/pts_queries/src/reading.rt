// The terms of a line, looked up over a front.

ghost use Rattle.std.specs.Prelude.{◌≡◌, ◌≢◌, IfOk, OnOk};
ghost use Rattle.pts_grammar.specs.Seen.{syntax_of};
ghost use Rattle.pts_parser.specs.declared.fault.ReadFault.{ReadFault};
ghost use Rattle.pts_parser.specs.FaultText.{read_text};
ghost use Rattle.pts_queries.specs.Replies.{refusal};
ghost use Rattle.pts_queries.specs.Reading.{term_over};
ghost use Rattle.pts_queries.specs.Inner.{IsResolved};

use crate::scope::FrontScope;
use pts_ctx::{Context, System};
use pts_names::{Name, Text};
use pts_parser::{ReadFault, Tree, resolve};
use pts_terms::Term;
use std::alloc::{AllocError, Global};

/// What a tree is: a term, or a line that refuses it.
#[derive(Drop)]
pub(crate) enum Resolved {
    Term(Term),
    Refused(Text),
}

/// The term of a tree over a front and the names of hypotheses, the outermost first; or the refusal of its first name or
/// sort that is unknown, from the left.
pub(crate) fn term_over(
    alloc: Global,
    system: &System,
    front: &Context,
    names: &[Name],
    tree: &Tree,
) -> Result<Resolved, AllocError>
    ensures { IfOk result (λ r. IsResolved (term_over system.now.sorts front.now.entries names.now (syntax_of tree.now)) r) }
{
    match resolve(alloc, tree, system, names, &FrontScope::of(front)) {
        Ok(term) => Ok(Resolved::Term(term)),
        Err(fault) => Ok(Resolved::Refused(unread_line(alloc, &fault)?)),
    }
}

/// The line that refuses a text.
pub(crate) fn unread_line(alloc: Global, fault: &ReadFault) -> Result<Text, AllocError>
    ensures line { IfOk result (λ line. line ≡ refusal (read_text fault.now)) }
    ensures refusal { OnOk result (fault.now ≢ ReadFault.Memory) }
{
    if let ReadFault::Memory = fault {
        return Err(AllocError);
    }
    Ok(Text::of(format!(in alloc; "refused {fault}")?))
}
