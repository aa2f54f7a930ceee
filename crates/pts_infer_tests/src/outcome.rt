// What a call of inference came to, small enough to be copied.

use pts_ctx::{Context, System};
use pts_infer::{FitFault, FlawKind, InferFault};
use pts_record::Record;
use pts_reduce::Meter;
use pts_samples::simple;
use pts_worked::{begun, front};
use std::alloc::Global;

/// A system, a front over it, and the worked record over that.
#[derive(Drop)]
pub struct Worked {
    pub system: System,
    pub front: Context,
    pub record: Record,
}

/// The worked record with what it stands over.
pub fn laid_out(alloc: Global) -> Option<Worked> {
    let system = simple(alloc)?;
    let front = front(alloc).ok()?;
    let record = begun(alloc, &system, &front)?;
    Some(Worked {
        system,
        front,
        record,
    })
}

/// What a call came to, in a word, and for how many units.
#[derive(Clone, Copy)]
pub struct Outcome {
    pub word: &'static str,
    pub units: u64,
}

impl Outcome {
    /// What the word says, for what the meter counted.
    pub fn of(word: &'static str, meter: &Meter) -> Outcome {
        Outcome {
            word,
            units: meter.spent(),
        }
    }

    /// Whether it is the word, for so many units.
    pub fn is(self, word: &str, units: u64) -> bool {
        self.word == word && self.units == units
    }
}

fn flaw_word(kind: &FlawKind) -> &'static str {
    match kind {
        FlawKind::NotASort(_) => "no sort",
        FlawKind::NotProduct(_) => "no product",
        FlawKind::NoRule(_, _) => "no rule",
        FlawKind::NoAxiom(_) => "no axiom",
        FlawKind::NotConvertible { .. } => "another type",
    }
}

/// What inference came to, in a word.
pub fn infer_word<T>(answer: &Result<T, InferFault>) -> &'static str {
    match answer {
        Ok(_) => "typed",
        Err(InferFault::Flaw(flaw)) => flaw_word(&flaw.kind),
        Err(InferFault::Spent) => "spent",
        Err(InferFault::Deep) => "deep",
        Err(InferFault::Memory) => "memory",
    }
}

/// What a fit came to, in a word: of a flaw of the wanted type, that it is wanted.
pub fn fit_word<T>(answer: &Result<T, FitFault>) -> &'static str {
    match answer {
        Ok(_) => "typed",
        Err(FitFault::Wanted(_)) => "wanted",
        Err(FitFault::Judged(flaw)) => flaw_word(&flaw.kind),
        Err(FitFault::Spent) => "spent",
        Err(FitFault::Deep) => "deep",
        Err(FitFault::Memory) => "memory",
    }
}

/// The node of an inference that came to one.
pub fn node_of(answer: &Result<usize, InferFault>) -> Option<usize> {
    match answer {
        Ok(node) => Some(*node),
        Err(_) => None,
    }
}
