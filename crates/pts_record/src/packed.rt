// Nodes as a table keeps them: half as large.

ghost use Rattle.std.specs.Prelude.{◌≡◌, IfSome};

use crate::{Form, Node};
use std::marker::Model;

/// A node whose numbers have 32 bits each. Contracts see the node.
#[derive(Clone, Copy)]
pub(crate) struct Packed {
    form: Form,
    ctx: u32,
    subject: u32,
    claim: u32,
    first: u32,
    second: u32,
    third: u32,
}

impl Model for Packed {
    ghost use Rattle.pts_record.specs.declared.shape.Node.{Node};

    ghost Value = { Node };

    ghost view = { λ p. record { form = p.form; ctx = p.ctx; subject = p.subject; claim = p.claim; first = p.first; second = p.second; third = p.third } };

    ghost inverse = { λ n. record { form = n.form; ctx = n.ctx; subject = n.subject; claim = n.claim; first = n.first; second = n.second; third = n.third } };
}

impl Packed {
    /// The node, or nothing where one of its numbers does not fit.
    pub(crate) fn of(node: &Node) -> Option<Packed>
        ensures { IfSome result (λ packed. packed ≡ node.now) }
    {
        Some(Packed {
            form: node.form,
            ctx: u32::try_from(node.ctx).ok()?,
            subject: u32::try_from(node.subject).ok()?,
            claim: u32::try_from(node.claim).ok()?,
            first: u32::try_from(node.first).ok()?,
            second: u32::try_from(node.second).ok()?,
            third: u32::try_from(node.third).ok()?,
        })
    }

    /// The node.
    pub(crate) fn node(&self) -> Node
        ensures { result ≡ self.now }
    {
        Node {
            form: self.form,
            ctx: self.ctx as usize,
            subject: self.subject as usize,
            claim: self.claim as usize,
            first: self.first as usize,
            second: self.second as usize,
            third: self.third as usize,
        }
    }
}
