/// How the lines of a source came to their end, of which each is answered as soon as it is read.
#[derive(Clone, Copy, Debug, PartialEq, Eq)]
pub enum Ended {
    /// Each line was answered.
    Whole,
    /// The source failed.
    ReadFailed,
    /// The source had more bytes than the limit.
    TooMuch,
    /// The sink failed.
    WriteFailed,
    /// There was no memory for more.
    NoMemory,
}
