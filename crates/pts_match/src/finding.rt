// The match of a pattern whose least indices are its variables.

ghost use Rattle.std.specs.Prelude.{◌≡◌, ◌<◌, length, replicate, IfOk, IfSome, None};
ghost use Rattle.std.specs.Option.{option_map};
ghost use Rattle.pts_record.specs.Table.{named_at};
ghost use Rattle.pts_match.specs.Matching.{AreClear, match_of, only_if, values_of};

use crate::Subterm;
use crate::matching::match_under;
use pts_record::Record;
use std::alloc::AllocError;

/// The match of a pattern, whose least indices are its `variables`, with a term: for each variable the part of the term
/// that it is to be, or nothing where it does not occur, the one of index 0 first. A pattern without variables that is
/// the very term, by its number, is not walked; else each place of pattern and term is met once, as far as they agree.
#[tactic(auto, using(crate::proofs::Started::finding))]
pub fn find_match(
    proof: &Record,
    variables: usize,
    pattern: usize,
    term: usize,
) -> Result<Option<Vec<Option<Subterm>>>, AllocError>
    requires pattern { pattern < length proof.now.shapes }
    requires term { term < length proof.now.shapes }
    ensures outcome { IfOk result (λ o. option_map (λ f. values_of proof.now.shapes f.items) o ≡ match_of variables (named_at proof.now.shapes pattern) (named_at proof.now.shapes term)) }
    ensures found { IfOk result (λ o. IfSome o (λ f. AreClear proof.now.shapes f.items)) }
{
    let mut found = vec![in proof.alloc(); None; variables]?;
    if match_whole(proof, &mut found, pattern, term) {
        return Ok(Some(found));
    }
    Ok(None)
}

// The same, where no variable is a term yet.
#[tactic(auto, using(crate::proofs::Started::finding))]
fn match_whole(proof: &Record, found: &mut [Option<Subterm>], pattern: usize, term: usize) -> bool
    requires pattern { pattern < length proof.now.shapes }
    requires term { term < length proof.now.shapes }
    requires found { found.old ≡ replicate (length found.old) None }
    ensures outcome { only_if result (values_of proof.now.shapes found.new) ≡ match_of (length found.old) (named_at proof.now.shapes pattern) (named_at proof.now.shapes term) }
    ensures found { AreClear proof.now.shapes found.new }
    ensures length { length found.new ≡ length found.old }
{
    let _terms = proof.terms();
    match_under(proof, found, pattern, Subterm { term, binders: 0 })
}
