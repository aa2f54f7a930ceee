ghost use Rattle.std.specs.Prelude.{◌≡◌, ◌∷◌, ◌++◌, [], IfOk, OnOk, false, replicate, get_or, length, reverse, vec_len};
ghost use Rattle.pts_terms.specs.Seen.{named};
ghost use Rattle.pts_printed.specs.Choice.{occurring};
ghost use Rattle.pts_printer.specs.Marks.{marked, picked};
ghost use Rattle.pts_printer.specs.Clashes.{is_outer};
ghost use Rattle.pts_printer.specs.Calls.{without_first};

use crate::occurrence::mark;
use crate::taken::Taken;
use pts_names::Text;
use pts_terms::Term;
use std::alloc::{AllocError, AllocFailed, Global};
use std::marker::Model;

/// The printed names of the variables around a place. Contracts see the innermost first.
#[derive(Debug, Drop)]
pub(crate) struct Outer {
    names: Vec<Text>,
}

impl Model for Outer {
    ghost use Rattle.std.specs.Prelude.{List, ℕ, reverse};
    ghost use Rattle.std.specs.Coded.{coded_list, coded_ℕ};

    ghost Value = { List (List ℕ) };

    ghost coded = { coded_list (coded_list coded_ℕ) };

    ghost view = { λ o. reverse o.names.items };
}

impl Outer {
    /// No names. It takes no memory.
    pub(crate) fn new(alloc: Global) -> Outer
        ensures { result ≡ [] }
    {
        Outer {
            names: Vec::new(alloc),
        }
    }

    /// These names, of which the outermost is the first. It takes no memory.
    pub(crate) fn of(names: Vec<Text>) -> Outer
        ensures { result ≡ reverse names.items }
    {
        Outer { names }
    }

    /// One more inside.
    #[tactic(auto, using(crate::proofs::Names::reverse_more))]
    pub(crate) fn enter(&mut self, name: Text) -> Result<(), AllocFailed<Text>>
        ensures { OnOk result (self.new ≡ name ∷ self.old) }
    {
        self.names.push(name)
    }

    /// Leaves the innermost.
    #[tactic(auto, using(crate::proofs::Names::reverse_more))]
    pub(crate) fn leave(&mut self)
        ensures { self.new ≡ without_first self.old }
    {
        let _ = self.names.pop();
    }

    /// The name of the variable of this index, and the empty text where there is none.
    pub(crate) fn name(&self, index: usize) -> &str
        ensures { result.now ≡ get_or self.now index [] }
    {
        if index >= self.names.len() {
            return "";
        }
        self.names[self.names.len() - 1 - index].text()
    }

    /// Whether this is the name of the variable of an index, the innermost having the index `first`.
    #[tactic(auto, using(crate::proofs::Names::name_test))]
    pub(crate) fn is_name(&self, name: &str, first: u64, index: u64) -> bool
        ensures { result ≡ is_outer name.now self.now first index }
    {
        if index < first {
            return false;
        }
        let behind = (index - first) as usize;
        if behind >= self.names.len() {
            return false;
        }
        name == self.name(behind)
    }

    /// Adds the names of the variables that occur in the body of a binder here.
    #[tactic(auto, using(crate::proofs::Marking::occurring_is))]
    pub(crate) fn add_occurring(
        &self,
        alloc: Global,
        body: &Term,
        taken: &mut Taken<'_>,
    ) -> Result<(), AllocError>
        ensures variables { OnOk result (taken.new.variables ≡ taken.old.variables ++ occurring 1 self.now (named body.now)) }
        ensures constants { OnOk result (taken.new.constants ≡ taken.old.constants) }
    {
        let marks = marks_of(alloc, self.names.len(), body)?;
        add_marked(alloc, &self.names, &marks, taken)
    }
}

/// The same text again, in memory of its own.
pub(crate) fn copy(alloc: Global, text: &Text) -> Result<Text, AllocError>
    ensures { IfOk result (λ copy. copy ≡ text.now) }
{
    Ok(Text::of(String::from_str(alloc, text.text())?))
}

// Marks for this many variables: whether each occurs in the body of a binder, the innermost first.
fn marks_of(alloc: Global, count: usize, body: &Term) -> Result<Vec<bool>, AllocError>
    ensures marks { IfOk result (λ marks. marks.items ≡ marked 1 (replicate count false) (named body.now)) }
    ensures count { IfOk result (λ marks. vec_len marks ≡ count) }
{
    let mut marks = vec![in alloc; false; count]?;
    mark(body, 1, &mut marks);
    Ok(marks)
}

// Adds the names that are marked. The first mark is that of the last name.
fn add_marked(
    alloc: Global,
    names: &[Text],
    marks: &[bool],
    taken: &mut Taken<'_>,
) -> Result<(), AllocError>
    requires { length marks.now ≡ length names.now }
    ensures variables { OnOk result (taken.new.variables ≡ taken.old.variables ++ picked (reverse names.now) marks.now) }
    ensures constants { OnOk result (taken.new.constants ≡ taken.old.constants) }
{
    for behind in 0..names.len() {
        if !marks[behind] {
            continue;
        }
        let name = &names[names.len() - 1 - behind];
        taken.add_variable(copy(alloc, name)?)?;
    }
    Ok(())
}
