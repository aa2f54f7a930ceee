ghost use Rattle.std.specs.Prelude.{◌≡◌, ◌≤◌, IfSome};
ghost use Rattle.pts_certificate.specs.Rows.{node_rows, node_with};
ghost use Rattle.pts_certificate.specs.Rows as format;

use crate::fault::LineFault;
use crate::number::{Numbers, numbers_of};
use crate::split::Words;
use crate::table::row_of;
use pts_record::{Form, Node};

/// The forms of nodes, and how many numbers follow each.
const NODE_ROWS: [(&str, (Form, usize)); 20] = [
    ("empty", (Form::Empty, 0)),
    ("assume", (Form::Assume, 1)),
    ("define", (Form::Define, 1)),
    ("bare", (Form::Bare, 1)),
    ("sort", (Form::SortAt, 3)),
    ("const", (Form::ConstAt, 3)),
    ("var", (Form::VarAt, 3)),
    ("thin", (Form::Thin, 4)),
    ("pi", (Form::PiAt, 5)),
    ("lam", (Form::LamAt, 5)),
    ("app", (Form::AppAt, 5)),
    ("letsort", (Form::LetSort, 4)),
    ("let", (Form::LetAt, 5)),
    ("conv", (Form::Conv, 6)),
    ("same", (Form::Same, 3)),
    ("left", (Form::Left, 4)),
    ("right", (Form::Right, 4)),
    ("capp", (Form::CongApp, 5)),
    ("clam", (Form::CongLam, 5)),
    ("cpi", (Form::CongPi, 5)),
];

/// The node that is written after `n`.
#[tactic(auto, unfolding(crate::specs::Rows::node_row))]
pub(crate) fn node_row(mut fields: Words) -> Result<Node, LineFault>
    ensures { result ≡ format.node_row fields.entry }
{
    match form_of(fields.field()?) {
        Some((form, count)) => {
            let numbers = numbers_of(fields, count)?;
            Ok(node_with(form, &numbers))
        }
        None => Err(LineFault::BadLine),
    }
}

/// The form that a word names, and how many numbers stand after it.
fn form_of(word: &[u8]) -> Option<(Form, usize)>
    ensures row { result ≡ format.row_of node_rows word.now }
    ensures few { IfSome result (λ row. row.1 ≤ 6) }
{
    row_of(&NODE_ROWS, word)
}

/// The node of a form with the numbers of its line.
fn node_with(form: Form, numbers: &Numbers) -> Node
    ensures { result ≡ node_with form numbers.now }
{
    match form {
        Form::Assume | Form::Define => Node {
            form,
            ctx: 0,
            subject: 0,
            claim: 0,
            first: numbers.link(0),
            second: 0,
            third: 0,
        },
        _ => Node {
            form,
            ctx: numbers.link(0),
            subject: numbers.link(1),
            claim: numbers.link(2),
            first: numbers.link(3),
            second: numbers.link(4),
            third: numbers.link(5),
        },
    }
}
