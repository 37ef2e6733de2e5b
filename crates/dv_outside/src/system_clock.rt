//! The clock of the system.
ghost use Rattle.std.specs.Prelude.{◌≡◌, None};

use crate::{Clock, Failed};
use std::rt;

/// The clock of the system. It tells no content.
#[derive(Drop)]
pub struct SystemClock<'a, R: rt::Clock> {
    rt: &'a R,
    faults: u64,
}

impl<'a, R: rt::Clock> SystemClock<'a, R> {
    /// The clock of this runtime.
    pub fn new(rt: &'a R) -> Self {
        SystemClock { rt, faults: 0 }
    }
}

impl<R: rt::Clock> Clock for SystemClock<'_, R> {
    ghost told = { λ _. None };

    ghost faults = { λ s. s.faults };

    fn now(&mut self) -> Result<u64, Failed> {
        match self.rt.since_1970() {
            Ok(time) => Ok(time.as_secs()),
            Err(_) => {
                self.faults = self.faults.saturating_add(1);
                Err(Failed)
            }
        }
    }
}

#[cfg(test)]
mod tests {
    use super::*;
    use std::io;
    use std::io::ErrorKind;
    use std::time::Duration;

    #[derive(Drop)]
    struct Stopped;

    impl rt::Clock for Stopped {
        fn monotonic(&self) -> io::Result<Duration> {
            Err(io::Error::from(ErrorKind::Unsupported))
        }

        fn since_1970(&self) -> io::Result<Duration> {
            Err(io::Error::from(ErrorKind::Unsupported))
        }
    }

    #[test]
    fn asks_the_system(rt: HostRuntime) {
        let mut clock = SystemClock::new(&rt);
        // The year 2020 is over, and 9999 isn't.
        let moment = clock.now().unwrap_or(0);
        assert!(rt; 1_600_000_000 < moment && moment < 253_402_300_800);
        assert_eq!(rt; clock.faults, 0);

        let stopped = Stopped;
        let mut clock = SystemClock::new(&stopped);
        assert_eq!(rt; clock.now(), Err(Failed));
        assert_eq!(rt; clock.faults, 1);
    }
}
