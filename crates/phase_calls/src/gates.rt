// What is passed before each call of a mutator, and before a marker begins.

/// A gate that the threads of a phase pass, on their own threads. Nothing that it does changes what a phase answers.
pub trait Gate: Sync {
    /// Is called before each call of a mutator, with the mutator's number and the call's number in the phase, from 0; and once for
    /// each marker of a phase in a cycle, with the marker's number and 0, before it takes or scans an object.
    fn pass(&self, number: u32, call: u32);
}

/// The gate that does nothing.
pub struct Open;

impl Gate for Open {
    fn pass(&self, _number: u32, _call: u32) {}
}
