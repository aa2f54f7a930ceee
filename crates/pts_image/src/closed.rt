// Judgements in an empty local context.

ghost use Rattle.std.specs.Prelude.{◌≡◌, ◌<◌, length};
ghost use Rattle.pts_record.specs.Said.{told};
ghost use Rattle.pts_rules.specs.Valid.{last_said};
ghost use Rattle.pts_image.specs.Substitution as substitution;

use pts_record::Record;

/// Whether a node is a judgement in an empty local context.
#[tactic(auto, using(crate::proofs::Last::closed_by_parts))]
pub fn is_closed_judgement(proof: &Record, number: usize) -> bool
    requires { number < length proof.now.nodes }
    ensures { result ≡ substitution.is_closed_judgement (told proof.now number) }
{
    proof.is_judgement(number) && proof.extent(number).length == 0
}

/// Whether the last node of a record is one.
#[tactic(auto, using(crate::proofs::Last::none_last))]
pub fn is_last_closed(proof: &Record) -> bool
    ensures { result ≡ substitution.is_closed_judgement (last_said proof.now) }
{
    let count = proof.nodes();
    if count == 0 {
        return false;
    }
    is_closed_judgement(proof, count - 1)
}
