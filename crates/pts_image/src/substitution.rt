// A constant replaced by a judged term in a record.

ghost use Rattle.std.specs.Prelude.{◌≡◌, IfOk, IfErr, OnOk, true, false};
ghost use Rattle.pts_terms.specs.declared.operations.Big.TheVariants.{Deep};
ghost use Rattle.pts_rules.specs.Valid.{last_said};
ghost use Rattle.pts_image.specs.Substitution.{is_closed_judgement, is_subst_within, subst_record};

use crate::append::append_image;
use crate::replacement::{Replacement, Replacements};
use pts_record::{Name, Record};
use pts_terms::Big;
use std::alloc::AllocError;

// A judged term for one constant.
#[derive(Drop)]
struct OneTerm<'a> {
    name: &'a Name,
    term: usize,
    node: usize,
}

impl<'a> Replacements for OneTerm<'a> {
    ghost use Rattle.pts_image.specs.Substitution.{replace_one};

    ghost replacement = { λ o. replace_one o.name.now o.term o.node };

    fn replacement(&self, name: &Name) -> Result<Replacement, AllocError> {
        if self.name.same(name) {
            Ok(Replacement::Argument(self.term, self.node))
        } else {
            Ok(Replacement::Constant(name.copy()?))
        }
    }
}

/// The record with the subject of the argument's last node in the place of a constant, after the argument's lines. It
/// costs the same for every line of both.
///
/// # Errors
///
/// `Deep` exactly where a term of the record, with the constant replaced, is not within limits.
pub fn subst_const(proof: &Record, name: &Name, argument: &Record) -> Result<Record, Big>
    requires judges { is_closed_judgement (last_said argument.now) ≡ true }
    ensures image { IfOk result (λ r. r ≡ subst_record argument.now name.now proof.now) }
    ensures within { OnOk result (is_subst_within argument.now name.now proof.now ≡ true) }
    ensures deep { IfErr result (λ e. e ≡ Deep → is_subst_within argument.now name.now proof.now ≡ false) }
{
    let node = argument.nodes() - 1;
    let last = argument.node(node);
    let mut into = argument.copy()?;
    into.shapes_linked();
    let replacement = OneTerm {
        name,
        term: last.subject,
        node,
    };
    match append_image(&mut into, &replacement, last.ctx, proof) {
        Ok(()) => Ok(into),
        Err(fault) => Err(fault),
    }
}
