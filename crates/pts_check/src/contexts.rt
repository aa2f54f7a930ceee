// How contexts were made, and their entries.

ghost use Rattle.std.specs.Prelude.{◌≡◌, ◌<◌, ◌≤◌, ◌+◌, ◌∷◌, length, true, IfSome};
ghost use Rattle.std.specs.Option.{option_map, option_and_then};
ghost use Rattle.pts_ctx.specs.Front.{entry_at};
ghost use Rattle.pts_record.specs.Table.{bare_at};
ghost use Rattle.pts_record.specs.Said.{told, scope_of};
ghost use Rattle.pts_rules.specs.Parts.{is_assume_of, is_bare_of, is_assume_in, is_define_in, newest_assumption, type_of, distance};
ghost use Rattle.pts_check.specs.Stated.{newest_definition, definition_of};

use crate::nodes::{context_of, place_of};
use pts_record::{Form, LocalEntry, Record, Terms};

/// Whether the context that a node speaks of was made by `assume` from that judgement.
pub(crate) fn is_assume_of(proof: &Record, premise: usize, number: usize) -> bool
    requires { number < length proof.now.nodes }
    ensures { result ≡ is_assume_of premise (scope_of (told proof.now number)).made }
{
    let node = proof.node(context_of(proof, number));
    match node.form {
        Form::Assume => node.first == premise,
        _ => false,
    }
}

/// Whether the context that a node speaks of was made by `bare` from that context.
pub(crate) fn is_bare_of(proof: &Record, ctx: usize, number: usize) -> bool
    requires { number < length proof.now.nodes }
    ensures { result ≡ is_bare_of ctx (scope_of (told proof.now number)).made }
{
    let node = proof.node(context_of(proof, number));
    match node.form {
        Form::Bare => node.ctx == ctx,
        _ => false,
    }
}

/// Whether the context that a node speaks of was made by `assume` from a judgement in that context.
pub(crate) fn is_assume_in(proof: &Record, ctx: usize, number: usize) -> bool
    requires { number < length proof.now.nodes }
    ensures { result ≡ is_assume_in ctx (scope_of (told proof.now number)).made }
{
    let node = proof.node(context_of(proof, number));
    match node.form {
        Form::Assume => place_of(proof, node.first) == ctx,
        _ => false,
    }
}

/// Whether the context that a node speaks of was made by `define` from a judgement in that context.
pub(crate) fn is_define_in(proof: &Record, ctx: usize, number: usize) -> bool
    requires { number < length proof.now.nodes }
    ensures { result ≡ is_define_in ctx (scope_of (told proof.now number)).made }
{
    let node = proof.node(context_of(proof, number));
    match node.form {
        Form::Define => place_of(proof, node.first) == ctx,
        _ => false,
    }
}

/// The type of the newest entry of the context that a node speaks of, where that is an assumption.
pub(crate) fn newest_assumption(proof: &Record, number: usize) -> Option<usize>
    requires { number < length proof.now.nodes }
    ensures stands { IfSome result (λ t. t < length proof.now.shapes) }
    ensures ty { option_map (bare_at proof.now.shapes) result ≡ newest_assumption (scope_of (told proof.now number)).entries }
{
    let node = proof.node(context_of(proof, number));
    match node.form {
        Form::Assume => match proof.judged(node.first) {
            Some(terms) => Some(terms.subject),
            None => None,
        },
        _ => None,
    }
}

/// The newest entry of the context that a node speaks of, where that is a definition.
pub(crate) fn newest_definition(proof: &Record, number: usize) -> Option<Terms>
    requires { number < length proof.now.nodes }
    ensures stand { IfSome result (λ t. (t.subject < length proof.now.shapes) × (t.claim < length proof.now.shapes)) }
    ensures terms { option_map (λ t. (bare_at proof.now.shapes t.subject, bare_at proof.now.shapes t.claim)) result ≡ newest_definition (scope_of (told proof.now number)).entries }
{
    let node = proof.node(context_of(proof, number));
    match node.form {
        Form::Define => proof.judged(node.first),
        _ => None,
    }
}

/// The type of the entry with that index.
pub(crate) fn type_at(proof: &Record, ctx: usize, index: u32) -> Option<usize>
    requires { ctx < length proof.now.nodes }
    ensures stands { IfSome result (λ t. t < length proof.now.shapes) }
    ensures ty { option_map (bare_at proof.now.shapes) result ≡ option_and_then type_of (entry_at (scope_of (told proof.now ctx)).entries index) }
{
    match proof.entry(ctx, index)? {
        LocalEntry::Assumed(ty) | LocalEntry::Defined(_, ty) => Some(ty),
        LocalEntry::Unknown => None,
    }
}

/// The definition that the index stands for.
pub(crate) fn definition_of(proof: &Record, ctx: usize, index: u32) -> Option<usize>
    requires { ctx < length proof.now.nodes }
    ensures stands { IfSome result (λ t. t < length proof.now.shapes) }
    ensures definition { option_map (bare_at proof.now.shapes) result ≡ option_and_then definition_of (entry_at (scope_of (told proof.now ctx)).entries index) }
{
    match proof.entry(ctx, index)? {
        LocalEntry::Defined(body, _) => Some(body),
        LocalEntry::Assumed(_) | LocalEntry::Unknown => None,
    }
}

/// How many entries the context has more than the premise's, where that is the context or an ancestor of it.
pub(crate) fn distance(proof: &Record, ctx: usize, premise: usize) -> Option<u64>
    requires ctx { ctx < length proof.now.nodes }
    requires premise { premise < length proof.now.nodes }
    ensures distance { result ≡ distance (told proof.now ctx) (told proof.now premise) }
    ensures limit { IfSome result (λ n. n ≤ 4294967296) }
{
    let _nodes = proof.nodes();
    let wanted = place_of(proof, premise);
    let mut at = ctx;
    let mut passed: u64 = 0;
    'walk: loop {
        let node = proof.node(at);
        match node.form {
            Form::Empty => {
                return if at == wanted { Some(passed) } else { None };
            }
            Form::Assume | Form::Define => {
                if at == wanted {
                    return Some(passed);
                }
                passed += 1;
                at = node.first;
            }
            Form::Bare => {
                if at == wanted {
                    return Some(passed);
                }
                passed += 1;
                at = node.ctx;
            }
            _ => at = node.ctx,
        }
    }
}
