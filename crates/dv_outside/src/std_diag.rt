//! The standard error.
use crate::Diag;

/// The standard error.
#[derive(Drop)]
pub struct StdDiag<'a, R: Eprint> {
    rt: &'a R,
}

impl<'a, R: Eprint> StdDiag<'a, R> {
    /// The standard error of this runtime.
    pub fn new(rt: &'a R) -> Self {
        StdDiag { rt }
    }
}

impl<R: Eprint> Diag for StdDiag<'_, R> {
    fn line(&mut self, text: &str) {
        let _ = self.rt.eprintln(text);
    }
}

#[cfg(test)]
mod tests {
    use super::*;

    #[test]
    fn writes_a_line(rt: HostRuntime) {
        StdDiag::new(&rt).line("a line for people");
    }
}
