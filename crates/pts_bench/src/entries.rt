// Entries of which contexts are built.

ghost use Rattle.std.specs.Prelude.{◌≡◌};

use pts_ctx::{Boxed, Entry, Name, Sort, Term};
use std::alloc::{AllocError, Global};

/// How many arrows a term has, so that it has 15 nodes.
const ARROWS: usize = 7;

/// The name with a number. A text of this form is one, so that an error is of memory.
pub fn numbered(alloc: Global, number: usize) -> Result<Name, AllocError> {
    let text = format!(in alloc; "entry_{number}")?;
    match Name::read(alloc, text.as_str()) {
        Ok(name) => Ok(name),
        Err(_) => Err(AllocError),
    }
}

/// The names with so many numbers, from the first on.
pub fn names_from(alloc: Global, first: usize, count: usize) -> Result<Vec<Name>, AllocError> {
    let mut names = Vec::with_capacity(alloc, count)?;
    for offset in 0..count {
        names.push(numbered(alloc, first.saturating_add(offset))?)?;
    }
    Ok(names)
}

/// A definition of 30 nodes with the name of a number: its type and its body are the same term.
pub fn definition(alloc: Global, number: usize) -> Result<Entry, AllocError> {
    let name = numbered(alloc, number)?;
    Ok(Entry {
        body: Some(arrows(alloc, &name)?),
        ty: arrows(alloc, &name)?,
        name,
    })
}

// Arrows between the first sort and itself, whose binders have this name.
fn arrows(alloc: Global, binder: &Name) -> Result<Term, AllocError> {
    let mut term = Term::Sort(Sort(0));
    for _ in 0..ARROWS {
        let domain = Boxed::new(alloc, Term::Sort(Sort(0)))?;
        let range = Boxed::new(alloc, term)?;
        term = Term::Pi(binder.copy()?, domain, range);
    }
    Ok(term)
}
