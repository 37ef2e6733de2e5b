//! Lines for people.

/// Where diagnostics go. Nothing is claimed of them, and a line that can't be written is lost without a word.
pub trait Diag {
    /// Writes a line, to which the line's end is added.
    fn line(&mut self, text: &str);
}
