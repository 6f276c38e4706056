//! What stands around each request.

/// Is told of each request before and after it, so that a test can hold a worker back. Nothing is
/// promised of it, so each theorem holds whatever it does.
pub trait Gate {
    /// The worker, by its number, is about to work off a request, by its place in the trace from 0.
    fn pass(&self, worker: usize, request: usize);

    /// The worker has worked off that request.
    fn done(&self, worker: usize, request: usize);
}

/// A gate that holds nobody back.
#[derive(Clone, Copy, Debug, PartialEq, Eq)]
pub struct OpenGate;

impl Gate for OpenGate {
    fn pass(&self, _: usize, _: usize) {}

    fn done(&self, _: usize, _: usize) {}
}
