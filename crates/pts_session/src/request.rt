// What sessions ask for.

use pts_core::Examined;

/// What a session asks of the core.
#[derive(Drop)]
pub enum Request {
    /// How many entries are there?
    Look,
    /// What was examined is to enter.
    Submit(Examined),
}

/// What a session waits for.
#[derive(Clone, Copy, Debug, PartialEq, Eq)]
pub enum Awaited {
    /// The answer to a look.
    Look,
    /// The answer to a submission.
    Submission,
}
