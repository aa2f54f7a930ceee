// What the nodes of a record say.

ghost use Rattle.std.specs.Prelude.{◌≡◌, ◌<◌, ◌∷◌, length, true, IfSome};
ghost use Rattle.std.specs.Option.{option_map};
ghost use Rattle.pts_record.specs.Table.{bare_at};
ghost use Rattle.pts_record.specs.Said.{told, scope_of, place_of, subject_of, claim_of, is_context, is_comparison};
ghost use Rattle.pts_rules.specs.Parts.{is_typed_context, is_in, is_assume_of, is_bare_of, is_assume_in, is_define_in, sort_in};
ghost use Rattle.pts_check.specs.Stated.{has_statement};

use pts_record::{FormKind, Record, Shape, Sort, Terms};

/// Whether a node is a context.
pub(crate) fn is_context(proof: &Record, number: usize) -> bool
    requires { number < length proof.now.nodes }
    ensures { result ≡ is_context (told proof.now number) }
{
    matches!(proof.node(number).form.kind(), FormKind::Context)
}

/// Whether a node is a context without a bare entry.
pub(crate) fn is_typed(proof: &Record, number: usize) -> bool
    requires { number < length proof.now.nodes }
    ensures { result ≡ is_typed_context (told proof.now number) }
{
    is_context(proof, number) && proof.extent(number).typed
}

/// Whether a node is a comparison.
pub(crate) fn is_comparison(proof: &Record, number: usize) -> bool
    requires { number < length proof.now.nodes }
    ensures { result ≡ is_comparison (told proof.now number) }
{
    matches!(proof.node(number).form.kind(), FormKind::Comparison)
}

/// The number of the context that a judgement or a comparison is in; 0 of a context.
pub(crate) fn place_of(proof: &Record, number: usize) -> usize
    requires { number < length proof.now.nodes }
    ensures { result ≡ place_of (told proof.now number) }
{
    let node = proof.node(number);
    match node.form.kind() {
        FormKind::Context => 0,
        FormKind::Judgement | FormKind::Comparison => node.ctx,
    }
}

/// Whether a judgement or a comparison is in the context.
pub(crate) fn is_in(proof: &Record, ctx: usize, number: usize) -> bool
    requires { number < length proof.now.nodes }
    ensures { result ≡ is_in ctx (told proof.now number) }
{
    place_of(proof, number) == ctx
}

/// The terms of a judgement or of a comparison.
pub(crate) fn terms_of(proof: &Record, number: usize) -> Terms
    requires number { number < length proof.now.nodes }
    requires statement { has_statement (told proof.now number) ≡ true }
    ensures subject { bare_at proof.now.shapes result.subject ≡ subject_of (told proof.now number) }
    ensures claim { bare_at proof.now.shapes result.claim ≡ claim_of (told proof.now number) }
    ensures stand { (result.subject < length proof.now.shapes) × (result.claim < length proof.now.shapes) }
{
    let node = proof.node(number);
    match node.form.kind() {
        FormKind::Context => unreachable!(),
        FormKind::Judgement | FormKind::Comparison => Terms {
            subject: node.subject,
            claim: node.claim,
        },
    }
}

/// The context node that a node is or speaks of.
pub(crate) fn context_of(proof: &Record, number: usize) -> usize
    requires { number < length proof.now.nodes }
    ensures stands { result < length proof.now.nodes }
    ensures scope { scope_of (told proof.now result) ≡ scope_of (told proof.now number) }
    ensures context { is_context (told proof.now result) ≡ true }
{
    let mut at = number;
    'walk: loop {
        let node = proof.node(at);
        match node.form.kind() {
            FormKind::Context => return at,
            FormKind::Judgement | FormKind::Comparison => at = node.ctx,
        }
    }
}

/// The sort that a term is.
pub(crate) fn sort_in(proof: &Record, term: usize) -> Option<Sort>
    requires { term < length proof.now.shapes }
    ensures { option_map (λ s. s.0) result ≡ sort_in (bare_at proof.now.shapes term) }
{
    match proof.shape(term) {
        Shape::Sort(sort) => Some(*sort),
        _ => None,
    }
}
