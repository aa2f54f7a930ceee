// What is known of the binders that are still to be written.

ghost use Rattle.std.specs.Prelude.{◌≡◌, ◌∷◌, false, IfOk, OnOk};
ghost use Rattle.pts_terms.specs.Seen.{named};
ghost use Rattle.pts_printed.specs.Choice.{occurs};
ghost use Rattle.pts_printer.specs.Ahead.{behind, IsTold};
ghost use Rattle.pts_printer.specs.Calls.{first_or_false, without_first};
ghost use Rattle.pts_printer.specs.Marks.{noted};

use crate::marks::Marks;
use pts_terms::{Boxed, Term};
use std::alloc::{AllocError, Global};
use std::marker::Model;

/// Whether the variable of each binder occurs in its body. Contracts see the binder that is written next first.
#[derive(Drop)]
pub(crate) struct Ahead {
    uses: Vec<bool>,
}

impl Model for Ahead {
    ghost use Rattle.std.specs.Prelude.{List, Bool, reverse};

    ghost Value = { List Bool };

    ghost view = { λ a. reverse a.uses.items };
}

impl Ahead {
    /// What is known of the binders of a term, which is gone through once. It takes no memory where there are none.
    pub(crate) fn of(alloc: Global, term: &Term) -> Result<Ahead, AllocError>
        ensures { IfOk result (λ ahead. IsTold (named term.now) ahead) }
    {
        let mut ahead = Ahead {
            uses: Vec::new(alloc),
        };
        add_uses(term, &mut Marks::new(alloc), &mut ahead)?;
        Ok(ahead)
    }

    /// Whether the variable of the next binder occurs, which is then after.
    #[tactic(auto, using(crate::proofs::Names::reverse_more))]
    pub(crate) fn next(&mut self) -> bool
        ensures used { result ≡ first_or_false self.old }
        ensures others { self.new ≡ without_first self.old }
    {
        match self.uses.pop() {
            Some(used) => used,
            None => false,
        }
    }

    // One more binder before the others.
    #[tactic(auto, using(crate::proofs::Names::reverse_more))]
    fn add(&mut self, used: bool) -> Result<(), AllocError>
        ensures { OnOk result (self.new ≡ used ∷ self.old) }
    {
        Ok(self.uses.push(used)?)
    }
}

// Adds the binders of a term before the others, from the last to the first, and marks the variables around that occur.
#[cycle(uses)]
fn add_uses(term: &Term, around: &mut Marks, ahead: &mut Ahead) -> Result<(), AllocError>
    ensures marks { OnOk result (around.new ≡ noted around.old (named term.now)) }
    ensures told { OnOk result (IsTold (named term.now) ahead.new) }
    ensures others { OnOk result (behind (named term.now) ahead.new ≡ ahead.old) }
{
    match term {
        Term::Sort(_) | Term::Const(_) => Ok(()),
        Term::Var(index) => {
            around.mark(*index as usize);
            Ok(())
        }
        Term::App(f, a) => {
            add_uses(a.get(), around, ahead)?;
            add_uses(f.get(), around, ahead)
        }
        Term::Lam(_, t, b) | Term::Pi(_, t, b) => {
            let used = body_uses(b, around, ahead)?;
            add_uses(t.get(), around, ahead)?;
            ahead.add(used)
        }
        Term::Let(_, d, t, b) => {
            let used = body_uses(b, around, ahead)?;
            add_uses(t.get(), around, ahead)?;
            add_uses(d.get(), around, ahead)?;
            ahead.add(used)
        }
    }
}

// The same for the body of a binder. Says whether its variable occurs.
#[cycle(uses)]
#[tactic(auto, using(crate::proofs::Marking::first_noted))]
fn body_uses(body: &Boxed<Term>, around: &mut Marks, ahead: &mut Ahead) -> Result<bool, AllocError>
    ensures used { IfOk result (λ used. used ≡ occurs 0 (named body.now)) }
    ensures marks { OnOk result (around.new ≡ without_first (noted (false ∷ around.old) (named body.now))) }
    ensures told { OnOk result (IsTold (named body.now) ahead.new) }
    ensures others { OnOk result (behind (named body.now) ahead.new ≡ ahead.old) }
{
    around.enter()?;
    add_uses(body.get(), around, ahead)?;
    Ok(around.leave())
}
