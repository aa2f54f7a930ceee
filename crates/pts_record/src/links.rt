// Which fields a line has, and whether they lead to earlier lines.

ghost use Rattle.std.specs.Prelude.{◌≡◌, ◌∷◌, []};
ghost use Rattle.pts_record.specs.Table.{first_wrong, shape_links, fields_before, contexts_as, term_links, premises_as, premises_from, kept_node};

use crate::{Form, FormKind, Node, RecordFault, Shape};

fn one_fault(lines: usize, field: usize, link: usize) -> Option<RecordFault>
    ensures { result ≡ first_wrong lines field (link ∷ []) }
{
    if link < lines {
        None
    } else {
        Some(RecordFault::Link(field))
    }
}

fn two_fault(lines: usize, field: u8, first: usize, second: usize) -> Option<RecordFault>
    ensures { result ≡ first_wrong lines field (first ∷ second ∷ []) }
{
    let field = usize::from(field);
    if first < lines {
        one_fault(lines, field + 1, second)
    } else {
        Some(RecordFault::Link(field))
    }
}

fn three_fault(
    lines: usize,
    field: u8,
    first: usize,
    second: usize,
    third: usize,
) -> Option<RecordFault>
    ensures { result ≡ first_wrong lines field (first ∷ second ∷ third ∷ []) }
{
    let field = usize::from(field);
    if first >= lines {
        return Some(RecordFault::Link(field));
    }
    if second >= lines {
        return Some(RecordFault::Link(field + 1));
    }
    one_fault(lines, field + 2, third)
}

// The first part of a term's line that is no earlier term.
pub(crate) fn part_fault(terms: usize, shape: &Shape) -> Option<RecordFault>
    ensures { result ≡ first_wrong terms (fields_before shape.now) (shape_links shape.now) }
{
    match shape {
        Shape::Sort(_) | Shape::Const(_) | Shape::Var(_) => None,
        Shape::App(f, a) => two_fault(terms, 0, *f, *a),
        Shape::Lam(_, t, b) | Shape::Pi(_, t, b) => two_fault(terms, 1, *t, *b),
        Shape::Let(_, d, t, b) => three_fault(terms, 1, *d, *t, *b),
    }
}

// The context of a node's line, where it is no earlier node.
pub(crate) fn context_fault(nodes: usize, node: &Node) -> Option<RecordFault>
    ensures { result ≡ first_wrong nodes 0 (contexts_as node.now.form node.now.ctx) }
{
    match node.form {
        Form::Empty | Form::Assume | Form::Define => None,
        _ => one_fault(nodes, 0, node.ctx),
    }
}

// The first term of a node's line that does not stand.
pub(crate) fn terms_fault(terms: usize, node: &Node) -> Option<RecordFault>
    ensures { result ≡ first_wrong terms 1 (term_links node.now) }
{
    match node.form.kind() {
        FormKind::Context => None,
        FormKind::Judgement | FormKind::Comparison => {
            two_fault(terms, 1, node.subject, node.claim)
        }
    }
}

// The first premise of a node's line that is no earlier node.
pub(crate) fn premise_fault(nodes: usize, node: &Node) -> Option<RecordFault>
    ensures { result ≡ first_wrong nodes (premises_from node.now.form) (premises_as node.now.form node.now.first node.now.second node.now.third) }
{
    match node.form {
        Form::Empty | Form::Bare | Form::SortAt | Form::ConstAt | Form::VarAt | Form::Same => None,
        Form::Assume | Form::Define => one_fault(nodes, 0, node.first),
        Form::Thin | Form::LetSort | Form::Left | Form::Right => one_fault(nodes, 3, node.first),
        Form::PiAt
        | Form::LamAt
        | Form::AppAt
        | Form::LetAt
        | Form::CongApp
        | Form::CongLam
        | Form::CongPi => two_fault(nodes, 3, node.first, node.second),
        Form::Conv => three_fault(nodes, 3, node.first, node.second, node.third),
    }
}

// The node as it is kept: a field that its form does not use is 0.
pub(crate) fn kept(node: Node) -> Node
    ensures { result ≡ kept_node node }
{
    let Node {
        form,
        ctx,
        subject,
        claim,
        first,
        second,
        third,
    } = node;
    let bare = Node {
        form,
        ctx: 0,
        subject: 0,
        claim: 0,
        first: 0,
        second: 0,
        third: 0,
    };
    match form {
        Form::Empty => bare,
        Form::Assume | Form::Define => Node { first, ..bare },
        Form::Bare => Node { ctx, ..bare },
        Form::SortAt | Form::ConstAt | Form::VarAt | Form::Same => Node {
            ctx,
            subject,
            claim,
            ..bare
        },
        Form::Thin | Form::LetSort | Form::Left | Form::Right => Node {
            ctx,
            subject,
            claim,
            first,
            ..bare
        },
        Form::PiAt
        | Form::LamAt
        | Form::AppAt
        | Form::LetAt
        | Form::CongApp
        | Form::CongLam
        | Form::CongPi => Node {
            ctx,
            subject,
            claim,
            first,
            second,
            ..bare
        },
        Form::Conv => node,
    }
}
