// A hook that statements pass, for tests of what runs beside what.

/// It is called before each statement of a session and before each step of a long one.
pub trait Gate {
    /// Before a statement of a session, its statements counted from 1.
    fn pass(&self, session: u32, statement: u32);

    /// Before a step of a search or a cleanup, the steps of that statement counted from 1.
    fn page(&self, session: u32, statement: u32, step: u64);
}

/// A hook that does nothing.
#[derive(Clone, Copy, Debug, Drop)]
pub struct NoGate;

impl Gate for NoGate {
    fn pass(&self, _session: u32, _statement: u32) {}

    fn page(&self, _session: u32, _statement: u32, _step: u64) {}
}
