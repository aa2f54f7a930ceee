use std::sync::Wait;

/// A point in the work of a session, at which a gate may hold it.
#[derive(Clone, Copy, Debug, Drop, PartialEq, Eq)]
pub enum Point {
    /// Before a request to the core, without the turn.
    BeforeStep,
    /// After the answer, without the turn.
    AfterStep,
    /// Before a line is run by the session itself.
    BeforeLocal,
    /// After that.
    AfterLocal,
}

/// What workers pass at each point. A gate that holds them changes nothing of what they do, but when they do it.
pub trait Gate {
    /// The session with this number is at the point, and goes on when the call returns.
    fn at<R: Wait>(&self, rt: &R, session: u32, point: Point);
}

/// A gate that holds nobody.
pub struct FreeGate;

impl Gate for FreeGate {
    fn at<R: Wait>(&self, _rt: &R, _session: u32, _point: Point) {}
}
