// A record in the place of one node of another.

ghost use Rattle.std.specs.Prelude.{◌≡◌, IfOk, true};
ghost use Rattle.pts_record.specs.Said.{told};
ghost use Rattle.pts_rules.specs.Valid.{last_said};
ghost use Rattle.pts_image.specs.Graft.{graft_record, without_numbers};
ghost use Rattle.pts_image.specs.Substitution.{is_closed_judgement};

use crate::append::{Graft, Numbering, append_numbered};
use crate::replacement::{Replacement, Replacements};
use pts_record::{Name, Record};
use pts_terms::Big;
use std::alloc::AllocError;

// Every constant stays.
#[derive(Drop)]
struct SameConstants;

impl Replacements for SameConstants {
    ghost use Rattle.pts_image.specs.Graft.{same_constant};

    ghost replacement = { λ _ c. same_constant c };

    fn replacement(&self, name: &Name) -> Result<Replacement, AllocError> {
        Ok(Replacement::Constant(name.copy()?))
    }
}

/// The nodes of the inner record in the place of one node of the outer record: what had that node as a premise has the
/// inner record's last node. The outer record's lines come after the inner one's, and its last node is the last one. It
/// costs the same for every line of both.
pub fn graft(outer: &Record, node: usize, inner: &Record) -> Result<Record, AllocError>
    requires node { is_closed_judgement (told outer.now node) ≡ true }
    requires same { without_numbers (last_said inner.now) ≡ without_numbers (told outer.now node) }
    ensures { IfOk result (λ r. r ≡ graft_record outer.now node inner.now) }
{
    let place = inner.nodes() - 1;
    let numbering = Numbering {
        start: inner.nodes(),
        root: inner.node(place).ctx,
        graft: Some(Graft { node, place }),
    };
    let mut into = inner.copy()?;
    into.shapes_linked();
    outer.shapes_limited();
    match append_numbered(&mut into, &SameConstants, numbering, outer) {
        Ok(()) => Ok(into),
        Err(Big::Memory) => Err(AllocError),
        Err(Big::Deep) => unreachable!(),
    }
}
