// The table of forms.

ghost use Rattle.std.specs.Prelude.{◌≡◌, ◌<◌, length};
ghost use Rattle.pts_ctx.specs.Front.{bare_front};
ghost use Rattle.pts_record.specs.Table.{AllBelow, bare_trees, node_links, term_links};
ghost use Rattle.pts_record.specs.Said.{told, row_of_node};
ghost use Rattle.pts_rules.specs.Conditions.{first_failing, assume_conditions, define_conditions, bare_conditions, form_fault};

use crate::comparisons::{capp_fault, clam_fault, cpi_fault, left_fault, right_fault, same_fault};
use crate::definitions::{conv_fault, let_fault, letsort_fault};
use crate::functions::{app_fault, lam_fault, pi_fault};
use crate::leaves::{const_fault, sort_fault, thin_fault, var_fault};
use crate::nodes::{is_context, sort_in, terms_of};
use pts_ctx::{Context, System};
use pts_record::{Form, Node, Record};
use pts_rules::Why;

/// The first condition of its form that a node breaks.
pub(crate) fn node_fault(
    system: &System,
    front: &Context,
    proof: &Record,
    number: usize,
    node: &Node,
) -> Option<Why>
    requires number { number < length proof.now.nodes }
    requires links { AllBelow number (node_links node.now) }
    requires terms { AllBelow (length proof.now.shapes) (term_links node.now) }
    ensures { result ≡ form_fault system.now (bare_front front.now.entries) node.now.form (row_of_node (bare_trees proof.now.shapes) node.now) (told proof.now node.now.ctx) (told proof.now node.now.first) (told proof.now node.now.second) (told proof.now node.now.third) }
{
    match node.form {
        Form::Empty => None,
        Form::Assume => assume_fault(proof, node.first),
        Form::Define => define_fault(proof, node.first),
        Form::Bare => bare_fault(proof, node.ctx),
        Form::SortAt => sort_fault(system, proof, node),
        Form::ConstAt => const_fault(front, proof, node),
        Form::VarAt => var_fault(proof, node),
        Form::Thin => thin_fault(proof, node),
        Form::PiAt => pi_fault(system, proof, node),
        Form::LamAt => lam_fault(proof, node),
        Form::AppAt => app_fault(proof, node),
        Form::LetSort => letsort_fault(proof, node),
        Form::LetAt => let_fault(proof, node),
        Form::Conv => conv_fault(proof, node),
        Form::Same => same_fault(proof, node),
        Form::Left => left_fault(front, proof, node),
        Form::Right => right_fault(front, proof, node),
        Form::CongApp => capp_fault(proof, node),
        Form::CongLam => clam_fault(proof, node),
        Form::CongPi => cpi_fault(proof, node),
    }
}

// `assume P`: an entry of the type that the judgement is about.
fn assume_fault(proof: &Record, first: usize) -> Option<Why>
    requires { first < length proof.now.nodes }
    ensures { result ≡ first_failing (assume_conditions (told proof.now first)) }
{
    if !proof.is_judgement(first) {
        return Some(Why::Kind(0));
    }
    match sort_in(proof, terms_of(proof, first).claim) {
        Some(_) => None,
        None => Some(Why::SortOf(0)),
    }
}

// `define P`: an entry of the judgement's term and type.
fn define_fault(proof: &Record, first: usize) -> Option<Why>
    requires { first < length proof.now.nodes }
    ensures { result ≡ first_failing (define_conditions (told proof.now first)) }
{
    if proof.is_judgement(first) {
        None
    } else {
        Some(Why::Kind(0))
    }
}

// `bare C`: an entry of which nothing is known.
fn bare_fault(proof: &Record, ctx: usize) -> Option<Why>
    requires { ctx < length proof.now.nodes }
    ensures { result ≡ first_failing (bare_conditions (told proof.now ctx)) }
{
    if is_context(proof, ctx) {
        None
    } else {
        Some(Why::Kind(0))
    }
}
