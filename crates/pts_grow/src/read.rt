// Judgements read from a record.

ghost use Rattle.std.specs.Prelude.{◌≡◌, ◌<◌, length, true};
ghost use Rattle.pts_record.specs.Said.{named_told, is_judgement, place_of};
ghost use Rattle.pts_grow.specs.Judges.{Judges};

use crate::Judged;
use pts_record::Record;

/// The context of a node that is a judgement, and the node with the two terms that it judges.
#[tactic(auto, using(crate::proofs::Judgements::judgement_told))]
pub fn judged_at(proof: &Record, node: usize) -> (usize, Judged)
    requires node { node < length proof.now.nodes }
    requires judgement { is_judgement (named_told proof.now node) ≡ true }
    ensures ctx { (result.0 < length proof.now.nodes) × (result.0 ≡ place_of (named_told proof.now node)) }
    ensures judged { Judges proof.now result.0 result.1 }
    ensures node { result.1.node ≡ node }
{
    let line = proof.node(node);
    let judged = Judged {
        subject: line.subject,
        claim: line.claim,
        node,
    };
    (line.ctx, judged)
}
