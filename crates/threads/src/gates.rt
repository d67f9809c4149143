//! Gates, at which a test can hold the threads.

/// What is called round each line of a script, with the positions of the script and of its line, from 0.
pub trait Gate {
    /// Before the line is run.
    fn before(&self, session: usize, line: usize);

    /// After the line was answered.
    fn after(&self, session: usize, line: usize);
}

/// A gate that holds nothing.
#[derive(Clone, Copy)]
pub struct Free;

impl Gate for Free {
    fn before(&self, _session: usize, _line: usize) {}

    fn after(&self, _session: usize, _line: usize) {}
}
