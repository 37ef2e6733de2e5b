//! The standard input.
ghost use Rattle.std.specs.Prelude.{◌≡◌, ◌≤◌, None, IfOk, length};

use crate::{Failed, Source};
use std::io;
use std::io::{ErrorKind, Read};

/// What a reader gives, as the standard input. It tells no content.
#[derive(Drop)]
pub struct StdSource<R: Read> {
    reader: R,
    ended: bool,
    faults: u64,
}

impl<R: Read> StdSource<R> {
    /// What this reader gives from here on. The standard input of a runtime `rt` is `rt.reader()`.
    pub fn new(reader: R) -> Self {
        StdSource {
            reader,
            ended: false,
            faults: 0,
        }
    }
}

// A read that a signal interrupts is made again.
fn read_once<R: Read>(reader: &mut R, into: &mut [u8]) -> io::Result<usize>
    ensures { IfOk result (λ n. n ≤ length into.new) }
{
    for _ in 0..u64::MAX {
        match reader.read(into) {
            Err(error) if error.kind() == ErrorKind::Interrupted => {}
            result => return result,
        }
    }
    Err(io::Error::from(ErrorKind::Interrupted))
}

impl<R: Read> Source for StdSource<R> {
    ghost left = { λ _. None };

    ghost ended = { λ s. s.ended };

    ghost faults = { λ s. s.faults };

    fn read(&mut self, into: &mut [u8]) -> Result<usize, Failed> {
        match read_once(&mut self.reader, into) {
            Ok(n) => {
                self.ended = n == 0;
                Ok(n)
            }
            Err(_) => {
                self.ended = false;
                self.faults = self.faults.saturating_add(1);
                Err(Failed)
            }
        }
    }
}

#[cfg(test)]
mod tests {
    use super::*;

    // Answers in turn: a signal, an octet, a fault, an octet, and then the end.
    #[derive(Drop)]
    struct Turns(u8);

    impl Read for Turns {
        fn read(&mut self, buf: &mut [u8]) -> io::Result<usize> {
            self.0 = self.0.saturating_add(1);
            match (self.0, buf.first_mut()) {
                (1, _) => Err(io::Error::from(ErrorKind::Interrupted)),
                (3, _) => Err(io::Error::from(ErrorKind::BrokenPipe)),
                (2 | 4, Some(first)) => {
                    *first = self.0;
                    Ok(1)
                }
                _ => Ok(0),
            }
        }
    }

    #[test]
    fn counts_faults_and_sees_the_end(rt: HostRuntime) {
        let mut source = StdSource::new(Turns(0));
        let mut into = [0; 4];
        let rows = [
            (Ok(1), 2, false, 0),
            (Err(Failed), 2, false, 1),
            (Ok(1), 4, false, 1),
            (Ok(0), 4, true, 1),
        ];
        for (answer, first, ended, faults) in rows {
            assert_eq!(rt; source.read(&mut into), answer);
            assert_eq!(rt;
                (into[0], source.ended, source.faults),
                (first, ended, faults)
            );
        }
    }
}
