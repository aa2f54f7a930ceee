// How long contexts take.

ghost use Rattle.std.specs.Prelude.{◌≡◌};

use crate::entries::{definition, names_from};
use pts_ctx::{Context, Entry, Name};
use std::alloc::{AllocError, Global};
use std::io;
use std::rt::Clock;
use std::time::Instant;

/// How many names are looked up, and at how many lengths a context is copied.
const SAMPLES: usize = 64;

/// How often each name is looked up.
const ROUNDS: usize = 1_000;

/// How often a context of one length is copied; once, where that takes more than `LONG`.
const COPIES: usize = 9;

/// Ten milliseconds, in nanoseconds.
const LONG: u64 = 10_000_000;

/// The nanoseconds that it takes to make so many entries.
pub fn making(alloc: Global, clock: &impl Clock, entries: usize) -> io::Result<u64> {
    let start = Instant::now(clock)?;
    for number in 0..entries {
        let _entry = definition(alloc, number)?;
    }
    since(clock, start)
}

/// The nanoseconds that it takes to build a context of so many entries, which are made, looked up, reserved and pushed one by one.
pub fn building(alloc: Global, clock: &impl Clock, entries: usize) -> io::Result<u64> {
    let start = Instant::now(clock)?;
    let _context = built(alloc, entries)?;
    since(clock, start)
}

/// The nanoseconds of the dearest of the copies at the last lengths up to so many entries, each the least of several.
pub fn copying(alloc: Global, clock: &impl Clock, entries: usize) -> io::Result<u64> {
    let mut context = built(alloc, entries.saturating_sub(SAMPLES))?;
    let mut dearest = 0;
    for number in context.len()..entries {
        grow(alloc, &mut context, number)?;
        dearest = dearest.max(copying_one(clock, &context)?);
    }
    Ok(dearest)
}

/// The nanoseconds of 1,000 look-ups in a context of so many entries. The names are numbered from the first on.
pub fn looking_up(
    alloc: Global,
    clock: &impl Clock,
    entries: usize,
    first: usize,
) -> io::Result<u64> {
    let context = built(alloc, entries)?;
    let names = names_from(alloc, first, SAMPLES)?;
    let start = Instant::now(clock)?;
    let found = found_of(&context, &names);
    let spent = since(clock, start)?;
    if found == 0 || found == ROUNDS.saturating_mul(SAMPLES) {
        Ok(spent / SAMPLES as u64)
    } else {
        Err(io::Error::from(io::ErrorKind::NotFound))
    }
}

/// The nanoseconds since then.
pub fn since(clock: &impl Clock, start: Instant) -> io::Result<u64> {
    let time = start.elapsed(clock)?;
    let seconds = time.as_secs().saturating_mul(1_000_000_000);
    Ok(seconds.saturating_add(u64::from(time.subsec_nanos())))
}

fn built(alloc: Global, entries: usize) -> Result<Context, AllocError> {
    let mut context = Context::new(alloc);
    for number in 0..entries {
        grow(alloc, &mut context, number)?;
    }
    Ok(context)
}

// Adds the definition with a number.
fn grow(alloc: Global, context: &mut Context, number: usize) -> Result<(), AllocError> {
    let entry = definition(alloc, number)?;
    let key = entry.name.copy()?;
    push(context, entry, key)
}

fn push(context: &mut Context, entry: Entry, key: Name) -> Result<(), AllocError>
    requires { key ≡ entry.name }
{
    context.reserve(1, 0)?;
    if context.place_of(&key).is_none() && entry.is_within() {
        context.push(entry, key);
    }
    Ok(())
}

// The least of several copies of one context.
fn copying_one(clock: &impl Clock, context: &Context) -> io::Result<u64> {
    let mut least = u64::MAX;
    for _ in 0..COPIES {
        if least < LONG || least == u64::MAX {
            least = least.min(copying_once(clock, context)?);
        }
    }
    Ok(least)
}

fn copying_once(clock: &impl Clock, context: &Context) -> io::Result<u64> {
    let start = Instant::now(clock)?;
    let _copy = context.copy()?;
    since(clock, start)
}

// How many look-ups find an entry.
fn found_of(context: &Context, names: &[Name]) -> usize {
    let mut found = 0usize;
    for _ in 0..ROUNDS {
        for name in names {
            if context.lookup(name).is_some() {
                found = found.saturating_add(1);
            }
        }
    }
    found
}
