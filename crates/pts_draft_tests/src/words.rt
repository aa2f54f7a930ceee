// Answers of drafts as they are read.

use pts_declare::System;
use pts_draft::DraftFault;
use pts_flaw_text::infer_text;
use std::alloc::{AllocError, Global};

/// The words of a refusal.
pub fn words(alloc: Global, system: &System, fault: &DraftFault) -> Result<String, AllocError> {
    match fault {
        DraftFault::Taken(name, place) => format!(in alloc; "Taken {name} {place}"),
        DraftFault::Infer(part, fault) => infer_text(alloc, system, *part, fault),
        DraftFault::Memory => Err(AllocError),
    }
}

/// Whether an answer has these words, which are none where nothing is refused.
pub fn says(alloc: Global, system: &System, answer: &Result<(), DraftFault>, wanted: &str) -> bool {
    match answer {
        Ok(()) => wanted.is_empty(),
        Err(fault) => match words(alloc, system, fault) {
            Ok(words) => words.as_str() == wanted,
            Err(_) => false,
        },
    }
}
