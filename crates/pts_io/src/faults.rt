use thiserror::Error;

/// What a source or a sink answers in place of a count, and the answer of `write_whole`.
#[derive(Clone, Copy, Debug, PartialEq, Eq, Error)]
pub enum Fail {
    #[error("the outside failed")]
    Failed,
}

/// Why not all of a source could be read.
#[derive(Clone, Copy, Debug, PartialEq, Eq, Error)]
pub enum WholeFault {
    /// The source failed.
    #[error("the source failed")]
    Failed,
    /// The source had more bytes than the limit.
    #[error("the source has too many bytes")]
    TooMuch,
    /// Memory ran out.
    #[error("out of memory")]
    Memory,
}

/// What a call that takes memory answers where the outside fails.
#[derive(Clone, Copy, Debug, PartialEq, Eq, Error)]
pub enum ReadFail {
    /// The source or the library failed.
    #[error("the outside failed")]
    Failed,
    /// Memory ran out.
    #[error("out of memory")]
    Memory,
}
