ghost use Rattle.std.specs.Prelude.{◌≡◌, []};

use pts_ctx::{Context, Entry, Name, NameFault, Sort, Term};
use std::alloc::{AllocError, Global};

fn push(context: &mut Context, name: Name, key: Name) -> Result<(), AllocError>
    requires { key ≡ name }
    ensures { context.new.labels ≡ context.old.labels }
{
    context.reserve(1, 0)?;
    if context.place_of(&key).is_none() {
        let entry = Entry {
            name,
            body: None,
            ty: Term::Sort(Sort(0)),
        };
        context.push(entry, key);
    }
    Ok(())
}

// Adds an assumption of sort 0.
fn assume(context: &mut Context, alloc: Global, text: &str) -> Result<(), NameFault> {
    let name = Name::read(alloc, text)?;
    let key = name.copy()?;
    Ok(push(context, name, key)?)
}

fn mark(context: &mut Context, alloc: Global, text: &str) -> Result<(), NameFault> {
    let label = Name::read(alloc, text)?;
    context.reserve(0, 1)?;
    if context.label_place(&label).is_none() {
        context.mark(label);
    }
    Ok(())
}

// The entry a, the label m, and the entry b.
fn fill(context: &mut Context, alloc: Global) -> Result<(), NameFault> {
    assume(context, alloc, "a")?;
    mark(context, alloc, "m")?;
    assume(context, alloc, "b")
}

fn finds(context: &Context, name: &Name, place: Option<usize>, label: Option<usize>) -> bool {
    context.place_of(name) == place
        && context.lookup(name).is_some() == place.is_some()
        && context.label_place(name) == label
}

fn finds_its_names(alloc: Global, context: &Context) -> Result<bool, NameFault> {
    let entry = Name::read(alloc, "b")?;
    let label = Name::read(alloc, "m")?;
    Ok(finds(context, &entry, Some(1), None) && finds(context, &label, None, Some(1)))
}

fn is_entry(copy: &Result<Entry, AllocError>, entry: &Entry) -> bool {
    match copy {
        Ok(copy) => copy.same(entry) && copy.is_within(),
        Err(_) => false,
    }
}

fn copied(alloc: Global, context: &Context) -> Result<Entry, AllocError> {
    if context.len() != 2 {
        return Err(AllocError);
    }
    context.entry(1).copy(alloc)
}

fn last_is_copied(context: &Context, copy: &Result<Entry, AllocError>) -> bool {
    context.is_orderly();
    context.len() == 2 && is_entry(copy, context.entry(1))
}

#[test]
fn entries_and_labels_are_found_by_name(rt: HostRuntime) {
    let mut context = Context::new(rt.alloc());
    assert!(rt; fill(&mut context, rt.alloc()).is_ok());
    assert!(rt; matches!(finds_its_names(rt.alloc(), &context), Ok(true)));
    assert!(rt; last_is_copied(&context, &copied(rt.alloc(), &context)));
}

fn is_front(context: &Context, other: &Result<Context, AllocError>) -> bool {
    match other {
        Ok(other) => context.is_front_of(other),
        Err(_) => false,
    }
}

#[test]
fn a_front_is_a_prefix(rt: HostRuntime) {
    let mut context = Context::new(rt.alloc());
    assert!(rt; fill(&mut context, rt.alloc()).is_ok());
    assert!(rt; is_front(&context, &context.copy()));
    assert!(rt; !context.is_front_of(&Context::new(rt.alloc())));
}

/// So many entries lie in several chunks and in a last part.
const MANY: usize = 5_000;

// Adds an assumption with the name of a number, which leaves the labels.
fn assume_number(context: &mut Context, alloc: Global, number: usize) -> Result<(), NameFault>
    ensures { context.new.labels ≡ context.old.labels }
{
    let text = format!(in alloc; "x{number}")?;
    let name = Name::read(alloc, text.as_str())?;
    let key = name.copy()?;
    Ok(push(context, name, key)?)
}

// Adds assumptions with the names of the numbers from the length of the context on.
fn assume_up_to(context: &mut Context, alloc: Global, entries: usize) -> Result<(), NameFault>
    ensures { context.new.labels ≡ context.old.labels }
{
    for number in context.len()..entries {
        assume_number(context, alloc, number)?;
    }
    Ok(())
}

// Takes last entries off a context without labels.
fn cut_to(context: &mut Context, entries: usize)
    requires { context.old.labels ≡ [] }
    ensures { context.new.labels ≡ [] }
{
    if entries <= context.len() {
        context.cut(context.len() - entries);
    }
}

fn place_of(context: &Context, alloc: Global, number: usize) -> Result<Option<usize>, NameFault> {
    let text = format!(in alloc; "x{number}")?;
    let name = Name::read(alloc, text.as_str())?;
    Ok(context.place_of(&name))
}

// Whether the names of so many numbers are each at the place of its number, and the next name at none.
fn has_numbers(context: &Context, alloc: Global, entries: usize) -> Result<bool, NameFault> {
    for number in 0..entries {
        if place_of(context, alloc, number)? != Some(number) {
            return Ok(false);
        }
    }
    Ok(context.len() == entries && place_of(context, alloc, entries)?.is_none())
}

fn is_numbered(context: &Context, alloc: Global, entries: usize) -> bool {
    matches!(has_numbers(context, alloc, entries), Ok(true))
}

fn is_numbered_copy(
    copy: &Result<Context, AllocError>,
    context: &Context,
    alloc: Global,
    entries: usize,
) -> bool {
    match copy {
        Ok(copy) => is_numbered(copy, alloc, entries) && context.is_front_of(copy),
        Err(_) => false,
    }
}

#[test]
fn names_are_found_in_every_part_of_a_long_context(rt: HostRuntime) {
    let alloc = rt.alloc();
    let mut context = Context::new(alloc);
    assert!(rt; assume_up_to(&mut context, alloc, MANY).is_ok());
    assert!(rt; is_numbered(&context, alloc, MANY));
}

#[test]
fn a_copy_keeps_what_is_cut_from_the_original(rt: HostRuntime) {
    let alloc = rt.alloc();
    let mut context = Context::new(alloc);
    assert!(rt; assume_up_to(&mut context, alloc, MANY).is_ok());
    let copy = context.copy();
    cut_to(&mut context, 1_000);
    assert!(rt; is_numbered(&context, alloc, 1_000));
    assert!(rt; is_numbered_copy(&copy, &context, alloc, MANY));
}

#[test]
fn a_name_that_was_cut_may_come_again(rt: HostRuntime) {
    let alloc = rt.alloc();
    let mut context = Context::new(alloc);
    assert!(rt; assume_up_to(&mut context, alloc, MANY).is_ok());
    cut_to(&mut context, MANY - 1);
    assert!(rt; assume_up_to(&mut context, alloc, MANY).is_ok());
    cut_to(&mut context, 100);
    assert!(rt; is_numbered(&context, alloc, 100));
    assert!(rt; assume_up_to(&mut context, alloc, MANY).is_ok());
    assert!(rt; is_numbered(&context, alloc, MANY));
}

// The entries of a context, taken over by an empty one.
fn taken_over(context: &mut Context, alloc: Global) -> Result<Context, AllocError> {
    let mut taken = Context::new(alloc);
    context.is_orderly();
    taken.extend_from(context, 0)?;
    Ok(taken)
}

#[test]
fn an_empty_context_takes_over_the_entries_of_a_long_one(rt: HostRuntime) {
    let alloc = rt.alloc();
    let mut context = Context::new(alloc);
    assert!(rt; assume_up_to(&mut context, alloc, MANY).is_ok());
    let taken = taken_over(&mut context, alloc);
    assert!(rt; is_numbered_copy(&taken, &context, alloc, MANY));
}
