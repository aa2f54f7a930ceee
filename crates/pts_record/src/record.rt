// A record: its two tables, and what is kept beside their lines.

ghost use Rattle.std.specs.Prelude.{◌≡◌, ◌<◌, ◌≤◌, ◌++◌, ◌∷◌, [], length, take, slice_get, Some, None, OnOk, OnErr, IfOk, IfErr, IfSome, All, true};
ghost use Rattle.std.specs.Option.{option_map};
ghost use Rattle.pts_terms.specs.Tree.{bare, same_term};
ghost use Rattle.pts_terms.specs.Limits.{depth_of, size_of, within};
ghost use Rattle.pts_record.specs.Table.{Tables, bare_trees, bare_at, named_at, named_trees, unfold_shape, no_name, the_name, AllBelow, NodesLinked, shape_links, node_links, term_links, term_fault, node_fault, kept_node, UnlessMemory, measure, ShapesLinked};
ghost use Rattle.pts_record.specs.Renaming.{renamed_record};
ghost use Rattle.pts_record.specs.Said.{told, named_told, say_as, row_of_node, scope_of, extent, is_judgement, statement_of};

use crate::hints::{Hints, node_key, term_key};
use crate::links::{context_fault, kept, part_fault, premise_fault, terms_fault};
use crate::packed::Packed;
use crate::renaming::{Names, rename_shapes};
use crate::shape::copy_shapes;
use crate::{Extent, Form, FormKind, Measure, Node, RecordFault, Shape, Terms};
use pts_ctx::Term;
use std::alloc::{AllocError, Global};
use std::marker::Model;

// How many lines a table may have.
const LINES: usize = 0x1_0000_0000;

/// A table of terms and a table of nodes. Each link leads to an earlier line, each term of a node stands, and each
/// term is within limits. Contracts see the two tables, and not the hints by which equal lines are found.
#[derive(Drop)]
pub struct Record {
    alloc: Global,
    shapes: Vec<Shape>,
    measures: Vec<Measure>,
    nodes: Vec<Packed>,
    extents: Vec<Extent>,
    hints: Hints,
}

impl Model for Record {
    ghost use Rattle.pts_record.specs.Table.{Tables};
    ghost use Rattle.pts_record.specs.Kept.{Kept, tables};

    ghost Value = { Tables };

    ghost view = { λ r. tables r.shapes.items r.nodes.items };

    ghost invariant = { λ r. Kept r.shapes.items r.measures.items r.nodes.items r.extents.items };
}

impl Record {
    /// A record without lines.
    pub fn new(alloc: Global) -> Record
        ensures { result ≡ record { shapes = []; nodes = [] } }
    {
        Record {
            alloc,
            shapes: Vec::new(alloc),
            measures: Vec::new(alloc),
            nodes: Vec::new(alloc),
            extents: Vec::new(alloc),
            hints: Hints::new(alloc),
        }
    }

    /// The same record, without hints.
    pub fn copy(&self) -> Result<Record, AllocError>
        ensures { IfOk result (λ r. r ≡ self.now) }
    {
        Ok(Record {
            alloc: self.alloc,
            shapes: copy_shapes(self.alloc, &self.shapes)?,
            measures: self.measures.iter().copied().collect(self.alloc)?,
            nodes: self.nodes.iter().copied().collect(self.alloc)?,
            extents: self.extents.iter().copied().collect(self.alloc)?,
            hints: Hints::new(self.alloc),
        })
    }

    /// Where the tables live.
    pub fn alloc(&self) -> Global {
        self.alloc
    }

    /// The number of terms, at most 2^32.
    pub fn terms(&self) -> usize
        ensures number { result ≡ length self.now.shapes }
        ensures limit { result ≤ 4294967296 }
    {
        self.shapes.len()
    }

    /// The number of nodes, at most 2^32.
    pub fn nodes(&self) -> usize
        ensures number { result ≡ length self.now.nodes }
        ensures limit { result ≤ 4294967296 }
    {
        self.nodes.len()
    }

    /// The line of a term.
    pub fn shape(&self, term: usize) -> &Shape
        requires { term < length self.now.shapes }
        ensures item { slice_get self.now.shapes term ≡ Some result.now }
        ensures tree { bare_at self.now.shapes term ≡ unfold_shape no_name (bare_trees self.now.shapes) result.now }
        ensures named { named_at self.now.shapes term ≡ unfold_shape the_name (named_trees self.now.shapes) result.now }
        ensures unnamed { bare (named_at self.now.shapes term) ≡ bare_at self.now.shapes term }
        ensures links { AllBelow term (shape_links result.now) }
    {
        &self.shapes[term]
    }

    /// The depth, the size and the bound of the free indices of a term.
    pub fn measure(&self, term: usize) -> Measure
        requires { term < length self.now.shapes }
        ensures measure { result ≡ measure (bare_at self.now.shapes term) }
        ensures limits { (result.depth ≤ 2000) × (result.size ≤ 1000000) }
    {
        self.measures[term]
    }

    /// A term is within limits. This is said, and nothing is done.
    pub fn limits(&self, term: usize)
        requires { term < length self.now.shapes }
        ensures { (depth_of (bare_at self.now.shapes term) ≤ 2000) × (size_of (bare_at self.now.shapes term) ≤ 1000000) }
    {
        let _measure = self.measure(term);
    }

    /// The line of a node.
    pub fn node(&self, number: usize) -> Node
        requires { number < length self.now.nodes }
        ensures item { slice_get self.now.nodes number ≡ Some result }
        ensures says { told self.now number ≡ say_as result.form number (row_of_node (bare_trees self.now.shapes) result) (told self.now result.ctx) (told self.now result.first) }
        ensures named { named_told self.now number ≡ say_as result.form number (row_of_node (named_trees self.now.shapes) result) (named_told self.now result.ctx) (named_told self.now result.first) }
        ensures links { AllBelow number (node_links result) }
        ensures terms { AllBelow (length self.now.shapes) (term_links result) }
    {
        self.nodes[number].node()
    }

    /// How many entries the context has that a node is or speaks of, and whether it is typed.
    pub fn extent(&self, number: usize) -> Extent
        requires { number < length self.now.nodes }
        ensures extent { result ≡ extent (told self.now number) }
        ensures limit { result.length < 4294967296 }
        ensures short { result.length ≤ number }
    {
        self.extents[number]
    }

    /// Adds a term, and answers its number. It costs the same for every term.
    ///
    /// # Errors
    ///
    /// `Link` comes before `TooLarge`; after each of them the record is as before.
    pub fn add_term(&mut self, shape: Shape) -> Result<usize, RecordFault>
        ensures number { IfOk result (λ n. n ≡ length self.old.shapes) }
        ensures added { OnOk result (self.new ≡ record { shapes = self.old.shapes ++ shape ∷ []; nodes = self.old.nodes }) }
        ensures fits { OnOk result (term_fault self.old.shapes shape ≡ None) }
        ensures refused { IfErr result (λ e. UnlessMemory e (term_fault self.old.shapes shape ≡ Some e)) }
        ensures unchanged { OnErr result (self.new ≡ self.old) }
    {
        if let Some(fault) = part_fault(self.terms(), &shape) {
            return Err(fault);
        }
        let measure = self.measure_of(&shape);
        if measure.depth > 2000 || measure.size > 1_000_000 {
            return Err(RecordFault::TooLarge);
        }
        let number = self.shapes.len();
        if number >= LINES {
            return Err(RecordFault::Memory);
        }
        self.shapes.reserve(1)?;
        self.measures.push(measure)?;
        self.shapes.push(shape)?;
        Ok(number)
    }

    /// Adds a node, and answers its number. A field that the form does not use is kept as 0.
    ///
    /// # Errors
    ///
    /// `Link`; the record is then as before.
    pub fn add_node(&mut self, node: Node) -> Result<usize, RecordFault>
        ensures number { IfOk result (λ n. n ≡ length self.old.nodes) }
        ensures added { OnOk result (self.new ≡ record { shapes = self.old.shapes; nodes = self.old.nodes ++ kept_node node ∷ [] }) }
        ensures fits { OnOk result (node_fault self.old node ≡ None) }
        ensures refused { IfErr result (λ e. UnlessMemory e (node_fault self.old node ≡ Some e)) }
        ensures unchanged { OnErr result (self.new ≡ self.old) }
    {
        if let Some(fault) = self.link_fault(&node) {
            return Err(fault);
        }
        let number = self.nodes.len();
        if number >= LINES {
            return Err(RecordFault::Memory);
        }
        let node = kept(node);
        let extent = self.extent_of(&node);
        let Some(line) = Packed::of(&node) else {
            return Err(RecordFault::Memory);
        };
        self.nodes.reserve(1)?;
        self.extents.push(extent)?;
        self.nodes.push(line)?;
        Ok(number)
    }

    /// The number of a term's line that is this one, printed names and all, where a hint leads to it.
    pub fn known_term(&self, shape: &Shape) -> Option<usize>
        ensures { IfSome result (λ n. slice_get self.now.shapes n ≡ Some shape.now) }
    {
        let number = self.hints.line(term_key(shape))?;
        match self.shapes.get(number) {
            Some(line) if line.same(shape) => Some(number),
            _ => None,
        }
    }

    /// The number of a node's line that is this one as it is kept, where a hint leads to it.
    pub fn known_node(&self, node: &Node) -> Option<usize>
        ensures { IfSome result (λ n. slice_get self.now.nodes n ≡ Some (kept_node node.now)) }
    {
        let node = kept(*node);
        let number = self.hints.line(node_key(&node))?;
        match self.nodes.get(number) {
            Some(line) if line.node().same(&node) => Some(number),
            _ => None,
        }
    }

    /// Keeps a hint to the line of a term. The tables stay as they are, and so they do when memory runs out.
    pub fn note_term(&mut self, number: usize)
        requires { number < length self.old.shapes }
        ensures { self.new ≡ self.old }
    {
        let key = term_key(&self.shapes[number]);
        self.hints.note(self.alloc, key, number);
    }

    /// Keeps a hint to the line of a node. The tables stay as they are, and so they do when memory runs out.
    pub fn note_node(&mut self, number: usize)
        requires { number < length self.old.nodes }
        ensures { self.new ≡ self.old }
    {
        let key = node_key(&self.nodes[number].node());
        self.hints.note(self.alloc, key, number);
    }

    /// Gives back the memory of the hints and of what the tables have to spare. The tables stay as they are.
    pub fn trim(&mut self)
        ensures { self.new ≡ self.old }
    {
        self.hints = Hints::new(self.alloc);
        self.shapes.shrink_to_fit();
        self.measures.shrink_to_fit();
        self.nodes.shrink_to_fit();
        self.extents.shrink_to_fit();
    }

    /// The same record with new names for its constants, without hints. Its nodes, printed names and numbers stay; only
    /// the lines of constants are written. Where the record is to stay, a copy is renamed.
    pub fn renamed<N: Names>(self, names: &N) -> Result<Record, AllocError>
        ensures { IfOk result (λ r. r ≡ renamed_record (N.new_name names.now) self) }
    {
        let Record {
            alloc,
            shapes,
            measures,
            nodes,
            extents,
            ..
        } = self;
        let shapes = rename_shapes(alloc, shapes, names)?;
        Ok(Record {
            alloc,
            shapes,
            measures,
            nodes,
            extents,
            hints: Hints::new(alloc),
        })
    }

    /// Each term is linked to earlier terms. This is said, and nothing is done.
    pub fn shapes_linked(&self)
        ensures { ShapesLinked 0 self.now.shapes }
    {
        let _ = &self.alloc;
    }

    /// Each term is within limits. This is said, and nothing is done.
    pub fn shapes_limited(&self)
        ensures { All (λ t. within t ≡ true) (bare_trees self.now.shapes) }
    {
        let _ = &self.alloc;
    }

    /// Each node is linked to earlier nodes and names terms that stand. This is said, and nothing is done.
    pub fn linked(&self)
        ensures { NodesLinked (length self.now.shapes) 0 self.now.nodes }
    {
        let _ = &self.alloc;
    }

    // Takes the terms from a number on out again. No node names one of them.
    pub(crate) fn cut(&mut self, terms: usize)
        requires terms { terms ≤ length self.old.shapes }
        requires nodes { NodesLinked terms 0 self.old.nodes }
        ensures shapes { self.new.shapes ≡ take terms self.old.shapes }
        ensures nodes { self.new.nodes ≡ self.old.nodes }
    {
        self.shapes.truncate(terms);
        self.measures.truncate(terms);
    }

    // How large the term of a line is.
    fn measure_of(&self, shape: &Shape) -> Measure
        requires { AllBelow (length self.now.shapes) (shape_links shape.now) }
        ensures { result ≡ measure (unfold_shape no_name (bare_trees self.now.shapes) shape.now) }
    {
        match shape {
            Shape::Sort(_) | Shape::Const(_) => Measure::leaf(0),
            Shape::Var(index) => Measure::leaf(u64::from(*index) + 1),
            Shape::App(f, a) => Measure::of_application(self.measure(*f), self.measure(*a)),
            Shape::Lam(_, t, b) | Shape::Pi(_, t, b) => {
                Measure::of_binder(self.measure(*t), self.measure(*b))
            }
            Shape::Let(_, d, t, b) => {
                Measure::of_definition(self.measure(*d), self.measure(*t), self.measure(*b))
            }
        }
    }

    // Why a node is not added.
    #[tactic(auto, unfolding(crate::specs::Table::node_fault))]
    fn link_fault(&self, node: &Node) -> Option<RecordFault>
        ensures { result ≡ node_fault self.now node.now }
    {
        if let Some(fault) = context_fault(self.nodes(), node) {
            return Some(fault);
        }
        if let Some(fault) = terms_fault(self.terms(), node) {
            return Some(fault);
        }
        premise_fault(self.nodes(), node)
    }

    /// Whether a node is a judgement.
    pub fn is_judgement(&self, number: usize) -> bool
        requires { number < length self.now.nodes }
        ensures { result ≡ is_judgement (told self.now number) }
    {
        matches!(self.node(number).form.kind(), FormKind::Judgement)
    }

    /// The terms of a node that is a judgement.
    pub fn judged(&self, number: usize) -> Option<Terms>
        requires { number < length self.now.nodes }
        ensures stand { IfSome result (λ t. (t.subject < length self.now.shapes) × (t.claim < length self.now.shapes)) }
        ensures terms { option_map (λ t. (bare_at self.now.shapes t.subject, bare_at self.now.shapes t.claim)) result ≡ statement_of (told self.now number) }
        ensures named { option_map (λ t. (named_at self.now.shapes t.subject, named_at self.now.shapes t.claim)) result ≡ statement_of (named_told self.now number) }
    {
        let node = self.node(number);
        match node.form.kind() {
            FormKind::Judgement => Some(Terms {
                subject: node.subject,
                claim: node.claim,
            }),
            FormKind::Context | FormKind::Comparison => None,
        }
    }

    // How long the context is that a new node is or speaks of.
    fn extent_of(&self, node: &Node) -> Extent
        requires links { AllBelow (length self.now.nodes) (node_links node.now) }
        requires few { length self.now.nodes < 4294967296 }
        ensures { result ≡ extent (say_as node.now.form (length self.now.nodes) (row_of_node (bare_trees self.now.shapes) node.now) (told self.now node.now.ctx) (told self.now node.now.first)) }
    {
        match node.form {
            Form::Empty => Extent {
                length: 0,
                typed: true,
            },
            Form::Assume | Form::Define => {
                let before = self.extent(node.first);
                Extent {
                    length: before.length + 1,
                    typed: before.typed && self.is_judgement(node.first),
                }
            }
            Form::Bare => Extent {
                length: self.extent(node.ctx).length + 1,
                typed: false,
            },
            _ => self.extent(node.ctx),
        }
    }
}
