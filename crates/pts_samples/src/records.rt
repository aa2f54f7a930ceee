// Records.

use pts_record::{Form, Node, Record, RecordFault, Shape, Sort};

/// Adds a term.
pub fn add(record: &mut Record, shape: Shape) -> Result<usize, RecordFault> {
    record.add_term(shape)
}

/// A node of a form over the context and the subject with number 0.
pub fn node(form: Form, claim: usize, first: usize) -> Node {
    Node {
        form,
        ctx: 0,
        subject: 0,
        claim,
        first,
        second: 0,
        third: 0,
    }
}

/// Adds such a node, with no premise but the first node.
pub fn add_node(record: &mut Record, form: Form, claim: usize) -> Result<usize, RecordFault> {
    record.add_node(node(form, claim, 0))
}

/// Adds the two sorts, the empty context, and that the first sort has the term `claim`, which is 0 or 1, as its type.
pub fn fill(record: &mut Record, claim: usize) -> Result<usize, RecordFault> {
    add(record, Shape::Sort(Sort(0)))?;
    add(record, Shape::Sort(Sort(1)))?;
    add_node(record, Form::Empty, 0)?;
    add_node(record, Form::SortAt, claim)
}
