// Nodes that are added to a record.

ghost use Rattle.std.specs.Prelude.{◌≡◌, length, IfOk, None, Some};
ghost use Rattle.std.specs.List.{slice_get};
ghost use Rattle.pts_ctx.specs.System.{Specification};
ghost use Rattle.pts_ctx.specs.Front.{Front};
ghost use Rattle.pts_record.specs.Table.{named_trees, bare_trees, AllBelow, node_links, term_links, kept_node};
ghost use Rattle.pts_record.specs.Said.{named_told, told, say_as, row_of_node};
ghost use Rattle.pts_rules.specs.Conditions.{form_fault};
ghost use Rattle.pts_rules.specs.Valid.{IsValid};
ghost use Rattle.pts_grow.specs.Keeps.{Keeps, IsNode};

use pts_record::{Node, Record};
use std::alloc::AllocError;

/// The number of a node whose links stand: of an equal line that a hint leads to, and else of a new one. The record stays
/// valid where the node is an instance of its form.
///
/// # Errors
///
/// Only that memory runs out.
#[tactic(auto, using(crate::proofs::Grow::pushed))]
pub fn push(proof: &mut Record, node: Node) -> Result<usize, AllocError>
    requires links { AllBelow (length proof.old.nodes) (node_links node) }
    requires terms { AllBelow (length proof.old.shapes) (term_links node) }
    requires kept { kept_node node ≡ node }
    ensures says { IfOk result (λ n. IsNode proof.new n (say_as node.form n (row_of_node (named_trees proof.old.shapes) node) (named_told proof.old node.ctx) (named_told proof.old node.first))) }
    ensures line { IfOk result (λ n. slice_get proof.new.nodes n ≡ Some node) }
    ensures shapes { proof.new.shapes ≡ proof.old.shapes }
    ensures keeps { Keeps proof.old proof.new }
    ensures valid { (S : Specification) (G : Front) → form_fault S G node.form (row_of_node (bare_trees proof.old.shapes) node) (told proof.old node.ctx) (told proof.old node.first) (told proof.old node.second) (told proof.old node.third) ≡ None → IsValid S G proof.old → IsValid S G proof.new }
{
    if let Some(number) = proof.known_node(&node) {
        let _ = proof.node(number);
        return Ok(number);
    }
    match proof.add_node(node) {
        Ok(number) => {
            proof.note_node(number);
            Ok(number)
        }
        Err(_) => Err(AllocError),
    }
}
