//! The time of day.
ghost use Rattle.std.specs.Prelude.{◌≡◌, ℕ, List, Option, is_some};
ghost use Rattle.dv_outside.specs.Causes.{HasCause};
ghost use Rattle.dv_outside.specs.Clock.{Tells};

use crate::Failed;

/// A clock that is asked for the moment. It may go back.
pub trait Clock {
    /// All its answers so far, the first one first, where the clock tells them.
    ghost told: { Self → Option (List ℕ) };

    /// The count of faults.
    ghost faults: { Self → ℕ };

    /// The seconds since 1970-01-01T00:00:00Z.
    fn now(&mut self) -> Result<u64, Failed>
        ensures content { Tells (told self.old) (told self.new) result }
        ensures tells { is_some (told self.new) ≡ is_some (told self.old) }
        ensures cause { HasCause (faults self.old) (faults self.new) result };
}
