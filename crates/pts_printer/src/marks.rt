// Whether the variables around a place occur.

ghost use Rattle.std.specs.Prelude.{◌≡◌, ◌∷◌, [], OnOk, false};
ghost use Rattle.pts_printer.specs.Calls.{first_or_false, without_first};
ghost use Rattle.pts_printer.specs.Marks.{mark_at};

use std::alloc::{AllocError, Global};
use std::marker::Model;

/// A mark for each variable around a place: whether it occurs in what was gone through. Contracts see the innermost first.
#[derive(Drop)]
pub(crate) struct Marks {
    marks: Vec<bool>,
}

impl Model for Marks {
    ghost use Rattle.std.specs.Prelude.{List, Bool, reverse};

    ghost Value = { List Bool };

    ghost view = { λ m. reverse m.marks.items };
}

impl Marks {
    /// No marks. It takes no memory.
    pub(crate) fn new(alloc: Global) -> Marks
        ensures { result ≡ [] }
    {
        Marks {
            marks: Vec::new(alloc),
        }
    }

    /// One more variable inside, which is not marked.
    #[tactic(auto, using(crate::proofs::Names::reverse_more))]
    pub(crate) fn enter(&mut self) -> Result<(), AllocError>
        ensures { OnOk result (self.new ≡ false ∷ self.old) }
    {
        Ok(self.marks.push(false)?)
    }

    /// Leaves the innermost variable, and says whether it was marked.
    #[tactic(auto, using(crate::proofs::Names::reverse_more))]
    pub(crate) fn leave(&mut self) -> bool
        ensures marked { result ≡ first_or_false self.old }
        ensures others { self.new ≡ without_first self.old }
    {
        match self.marks.pop() {
            Some(marked) => marked,
            None => false,
        }
    }

    /// Marks the variable of this index, where there is one.
    #[tactic(auto, using(crate::proofs::Marking::marked_back, crate::proofs::Marking::unmarked_back))]
    pub(crate) fn mark(&mut self, index: usize)
        ensures { self.new ≡ mark_at 0 index self.old }
    {
        if index >= self.marks.len() {
            return;
        }
        let place = self.marks.len() - 1 - index;
        self.marks[place] = true;
    }
}
