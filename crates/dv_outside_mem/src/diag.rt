//! Lines for people in memory.
ghost use Rattle.std.specs.Prelude.{◌≡◌, ◌⊎◌, ◌++◌, ◌∷◌, [], map, string_bytes, OnOk, OnErr};
ghost use Rattle.dv_outside_mem.specs.MemDiag.{lines};

use dv_outside::Diag;
use std::alloc::{AllocError, Global};

/// Lines for people, kept in order.
#[derive(Drop)]
pub struct MemDiag {
    lines: Vec<String>,
    alloc: Global,
}

impl MemDiag {
    /// No line was written yet.
    pub fn new(alloc: Global) -> MemDiag
        ensures { lines result ≡ [] }
    {
        MemDiag {
            lines: Vec::new(alloc),
            alloc,
        }
    }

    /// The lines so far, without their ends.
    pub fn lines(&self) -> &[String]
        ensures { map string_bytes result.now ≡ lines self.now }
    {
        &self.lines
    }

    fn keep(&mut self, text: &str) -> Result<(), AllocError>
        ensures ok { OnOk result (lines self.new ≡ lines self.old ++ text.now ∷ []) }
        ensures err { OnErr result (lines self.new ≡ lines self.old) }
    {
        let line = String::from_str(self.alloc, text)?;
        self.lines.push(line)?;
        Ok(())
    }
}

impl Diag for MemDiag {
    /// Keeps the line, or loses it for want of memory.
    fn line(&mut self, text: &str)
        ensures { (lines self.new ≡ lines self.old ++ text.now ∷ []) ⊎ (lines self.new ≡ lines self.old) }
    {
        let _ = self.keep(text);
    }
}

#[cfg(test)]
mod tests {
    use super::*;

    #[test]
    fn keeps_lines(rt: HostRuntime) {
        let mut diag = MemDiag::new(rt.alloc());
        diag.line("one");
        diag.line("two");
        let lines = diag.lines();
        assert_eq!(rt; lines.len(), 2);
        assert_eq!(rt; lines[1].as_str(), "two");
    }
}
