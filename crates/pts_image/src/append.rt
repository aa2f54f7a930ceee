// The image of a record appended to another record.

ghost use Rattle.std.specs.Prelude.{◌≡◌, ◌<◌, ◌++◌, length, map, true, false, List, ℕ, IfErr, OnOk, Some, None};
ghost use Rattle.pts_terms.specs.declared.operations.Big.TheVariants.{Deep, Memory};
ghost use Rattle.pts_record.specs.Table.{ShapesLinked, bare_trees};
ghost use Rattle.pts_image.specs.Appending.{IsAmong, image_after, images_by, is_image_within, new_number, numbering_after};
ghost use Rattle.pts_image.specs.Appending.{shape_images, with_image, with_nodes, with_shapes};

use crate::lines::{node_image, shape_image};
use crate::replacement::Replacements;
use pts_record::{Record, RecordFault};
use pts_terms::Big;

/// A node in whose place another one is.
#[derive(Clone, Copy)]
pub(crate) struct Graft {
    pub(crate) node: usize,
    pub(crate) place: usize,
}

/// The new numbers of nodes: the grafted node is in its place, an empty context is `root`, and every other node is after
/// the first `start`.
#[derive(Clone, Copy)]
pub(crate) struct Numbering {
    pub(crate) start: usize,
    pub(crate) root: usize,
    pub(crate) graft: Option<Graft>,
}

/// Appends the image of a record, in which each constant is replaced and each empty context is the node `root`. It costs
/// the same for every line. After a refusal the record may have some more lines.
///
/// # Errors
///
/// `Deep` exactly where a term of the record, with its constants replaced, is not within limits.
pub fn append_image<R: Replacements>(
    into: &mut Record,
    replacements: &R,
    root: usize,
    proof: &Record,
) -> Result<(), Big>
    requires terms { (c : List ℕ) → IsAmong (length into.old.shapes) (R.replacement replacements.now c) }
    requires linked { ShapesLinked 0 into.old.shapes }
    ensures image { OnOk result (into.new ≡ image_after into.old (R.replacement replacements.now) root proof.now) }
    ensures within { OnOk result (is_image_within into.old (R.replacement replacements.now) proof.now ≡ true) }
    ensures deep { IfErr result (λ e. e ≡ Deep → is_image_within into.old (R.replacement replacements.now) proof.now ≡ false) }
{
    let numbering = Numbering {
        start: into.nodes(),
        root,
        graft: None,
    };
    append_numbered(into, replacements, numbering, proof)
}

/// The same with these new numbers.
pub(crate) fn append_numbered<R: Replacements>(
    into: &mut Record,
    replacements: &R,
    numbering: Numbering,
    proof: &Record,
) -> Result<(), Big>
    requires terms { (c : List ℕ) → IsAmong (length into.old.shapes) (R.replacement replacements.now c) }
    requires linked { ShapesLinked 0 into.old.shapes }
    ensures image { OnOk result (into.new ≡ with_image into.old (R.replacement replacements.now) (new_number proof.now.nodes numbering) proof.now) }
    ensures within { OnOk result (is_image_within into.old (R.replacement replacements.now) proof.now ≡ true) }
    ensures deep { IfErr result (λ e. e ≡ Deep → is_image_within into.old (R.replacement replacements.now) proof.now ≡ false) }
{
    let terms = into.terms();
    append_terms(into, replacements, proof)?;
    append_nodes(into, replacements, numbering, terms, proof)
}

// Appends the images of the terms.
fn append_terms<R: Replacements>(
    into: &mut Record,
    replacements: &R,
    proof: &Record,
) -> Result<(), Big>
    requires terms { (c : List ℕ) → IsAmong (length into.old.shapes) (R.replacement replacements.now c) }
    requires linked { ShapesLinked 0 into.old.shapes }
    ensures image { OnOk result (into.new ≡ with_shapes into.old (shape_images into.old.shapes (R.replacement replacements.now) proof.now)) }
    ensures within { OnOk result (is_image_within into.old (R.replacement replacements.now) proof.now ≡ true) }
    ensures deep { IfErr result (λ e. e ≡ Deep → is_image_within into.old (R.replacement replacements.now) proof.now ≡ false) }
{
    let terms = into.terms();
    for number in 0..proof.terms() {
        let shape = shape_image(into, replacements, terms, proof.shape(number))?;
        match into.add_term(shape) {
            Ok(_) => {}
            Err(RecordFault::TooLarge) => return Err(Big::Deep),
            Err(RecordFault::Link(_) | RecordFault::Memory) => return Err(Big::Memory),
        }
    }
    Ok(())
}

// Appends the images of the nodes.
fn append_nodes<R: Replacements>(
    into: &mut Record,
    replacements: &R,
    numbering: Numbering,
    terms: usize,
    proof: &Record,
) -> Result<(), Big>
    ensures image { OnOk result (into.new ≡ with_nodes into.old (images_by numbering terms (R.replacement replacements.now) proof.now)) }
    ensures deep { IfErr result (λ e. e ≡ Memory) }
{
    for number in 0..proof.nodes() {
        let node = node_image(replacements, numbering, terms, proof, proof.node(number))?;
        match into.add_node(node) {
            Ok(_) => {}
            Err(_) => return Err(Big::Memory),
        }
    }
    Ok(())
}
