// Terms of the program, out of a record's table and into it.

ghost use Rattle.std.specs.Prelude.{◌≡◌, ◌<◌, length, take, IfOk, IfErr, OnOk, OnErr, true, false};
ghost use Rattle.pts_terms.specs.Tree.{bare};
ghost use Rattle.pts_terms.specs.Seen.{named};
ghost use Rattle.pts_record.specs.Table.{bare_at, named_at, named_trees, unfold_shape, the_name, AllBelow, shape_links, UnlessMemory};
ghost use Rattle.pts_terms.specs.Limits.{within};
ghost use Rattle.pts_record.specs.declared.shape.RecordFault.TheVariants.{Memory, TooLarge};

use crate::{Record, RecordFault, Shape};
use pts_ctx::{Boxed, Term};
use std::alloc::AllocError;

impl Record {
    /// The term of a number, with its printed names.
    #[cycle(tree)]
    pub fn tree(&self, term: usize) -> Result<Term, AllocError>
        requires { term < length self.now.shapes }
        ensures tree { IfOk result (λ t. named t ≡ named_at self.now.shapes term) }
        ensures bare { IfOk result (λ t. bare (named t) ≡ bare_at self.now.shapes term) }
    {
        Ok(match self.shape(term) {
            Shape::Sort(s) => Term::Sort(*s),
            Shape::Const(c) => Term::Const(c.copy()?),
            Shape::Var(i) => Term::Var(*i),
            Shape::App(f, a) => Term::App(self.part(*f)?, self.part(*a)?),
            Shape::Lam(x, t, b) => { Term::Lam(x.copy()?, self.part(*t)?, self.part(*b)?) }
            Shape::Pi(x, t, b) => { Term::Pi(x.copy()?, self.part(*t)?, self.part(*b)?) }
            Shape::Let(x, d, t, b) => {
                Term::Let(x.copy()?, self.part(*d)?, self.part(*t)?, self.part(*b)?)
            }
        })
    }

    #[cycle(tree)]
    fn part(&self, term: usize) -> Result<Boxed<Term>, AllocError>
        requires { term < length self.now.shapes }
        ensures { IfOk result (λ t. named t ≡ named_at self.now.shapes term) }
    {
        let tree = self.tree(term)?;
        Ok(Boxed::new(self.alloc(), tree)?)
    }

    /// Adds a term of the program, part by part, and answers its number.
    ///
    /// # Errors
    ///
    /// `TooLarge` where the term is not within limits, else only `Memory`; the record is then as before.
    pub fn add_tree(&mut self, term: &Term) -> Result<usize, RecordFault>
        ensures number { IfOk result (λ n. (n < length self.new.shapes) × (named_at self.new.shapes n ≡ named term.now)) }
        ensures keeps { take (length self.old.shapes) self.new.shapes ≡ self.old.shapes }
        ensures nodes { self.new.nodes ≡ self.old.nodes }
        ensures fits { OnOk result (within (named term.now) ≡ true) }
        ensures refused { IfErr result (λ e. UnlessMemory e ((e ≡ TooLarge) × (within (named term.now) ≡ false))) }
        ensures unchanged { OnErr result (self.new ≡ self.old) }
    {
        if term.depth() > 2000 || term.size() > 1_000_000 {
            return Err(RecordFault::TooLarge);
        }
        self.linked();
        let terms = self.terms();
        match self.put_tree(term) {
            Ok(number) => Ok(number),
            Err(_) => {
                self.cut(terms);
                Err(RecordFault::Memory)
            }
        }
    }

    // Adds a term that is within limits. Where memory ends, some of its parts may have been added.
    #[tactic(auto, using(crate::proofs::Parts::named_kept, crate::proofs::Parts::below_kept, crate::proofs::Parts::front_kept))]
    fn put_tree(&mut self, term: &Term) -> Result<usize, RecordFault>
        requires { within (named term.now) ≡ true }
        ensures number { IfOk result (λ n. (n < length self.new.shapes) × (named_at self.new.shapes n ≡ named term.now)) }
        ensures front { take (length self.old.shapes) self.new.shapes ≡ self.old.shapes }
        ensures nodes { self.new.nodes ≡ self.old.nodes }
    {
        match term {
            Term::Sort(s) => self.put_line(Shape::Sort(*s)),
            Term::Const(c) => {
                let c = c.copy()?;
                self.put_line(Shape::Const(c))
            }
            Term::Var(i) => self.put_line(Shape::Var(*i)),
            Term::App(f, a) => {
                let f = self.put_tree(f.get())?;
                let a = self.put_tree(a.get())?;
                self.put_line(Shape::App(f, a))
            }
            Term::Lam(x, t, b) => {
                let x = x.copy()?;
                let t = self.put_tree(t.get())?;
                let b = self.put_tree(b.get())?;
                self.put_line(Shape::Lam(x, t, b))
            }
            Term::Pi(x, t, b) => {
                let x = x.copy()?;
                let t = self.put_tree(t.get())?;
                let b = self.put_tree(b.get())?;
                self.put_line(Shape::Pi(x, t, b))
            }
            Term::Let(x, d, t, b) => {
                let x = x.copy()?;
                let d = self.put_tree(d.get())?;
                let t = self.put_tree(t.get())?;
                let b = self.put_tree(b.get())?;
                self.put_line(Shape::Let(x, d, t, b))
            }
        }
    }

    // Adds a line whose parts stand and whose term is within limits.
    fn put_line(&mut self, shape: Shape) -> Result<usize, RecordFault>
        requires links { AllBelow (length self.old.shapes) (shape_links shape) }
        requires within { within (unfold_shape the_name (named_trees self.old.shapes) shape) ≡ true }
        ensures number { IfOk result (λ n. (n < length self.new.shapes) × (named_at self.new.shapes n ≡ unfold_shape the_name (named_trees self.old.shapes) shape)) }
        ensures front { take (length self.old.shapes) self.new.shapes ≡ self.old.shapes }
        ensures nodes { self.new.nodes ≡ self.old.nodes }
        ensures refused { IfErr result (λ e. e ≡ Memory) }
    {
        self.add_term(shape)
    }
}
