// Fronts that other tests stand on.

ghost use Rattle.std.specs.Prelude.{◌≡◌};

use pts_ctx::{Boxed, Context, Entry, Name, NameFault, Sort, Term};
use std::alloc::{AllocError, Global};

fn push(context: &mut Context, entry: Boxed<Entry>, key: Name) -> Result<(), AllocError>
    requires { key ≡ entry.name }
    ensures { context.new.labels ≡ context.old.labels }
{
    context.reserve(1, 0)?;
    if context.place_of(&key).is_none() && entry.get().is_within() {
        context.push(entry.into_inner(), key);
    }
    Ok(())
}

/// Adds an assumption, where the context has no entry of the name, and the type is within limits.
pub fn assume(
    context: &mut Context,
    alloc: Global,
    text: &str,
    ty: Boxed<Term>,
) -> Result<(), NameFault>
    ensures { context.new.labels ≡ context.old.labels }
{
    let name = Name::read(alloc, text)?;
    let key = name.copy()?;
    let entry = Entry {
        name,
        body: None,
        ty: ty.into_inner(),
    };
    Ok(push(context, Boxed::new(alloc, entry)?, key)?)
}

/// Adds an assumption of sort 0.
pub fn assume_type(context: &mut Context, alloc: Global, text: &str) -> Result<(), NameFault>
    ensures { context.new.labels ≡ context.old.labels }
{
    let sort = Boxed::new(alloc, Term::Sort(Sort(0)))?;
    assume(context, alloc, text, sort)
}
