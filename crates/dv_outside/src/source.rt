//! Octets that come in.
ghost use Rattle.std.specs.Prelude.{◌≡◌, ◌<◌, ◌≤◌, ℕ, Bool, List, Option, is_some, length, IfOk};
ghost use Rattle.dv_outside.specs.Causes.{HasCause};
ghost use Rattle.dv_outside.specs.Source.{is_end, Takes};

use crate::Failed;

/// A stream of octets, read in pieces. Its length is not known beforehand.
pub trait Source {
    /// The octets that are left, where the source tells them.
    ghost left: { Self → Option (List ℕ) };

    /// Whether the latest read answered that nothing is left. It is false before the first read.
    ghost ended: { Self → Bool };

    /// The count of faults.
    ghost faults: { Self → ℕ };

    /// Reads at least one octet and at most as many as `into` holds, into its front, and answers how many. Zero is the
    /// end of the input. A read that fails takes nothing; what it leaves in `into` is not said.
    fn read(&mut self, into: &mut [u8]) -> Result<usize, Failed>
        requires { 0 < length into.old }
        ensures bound { IfOk result (λ n. n ≤ length into.old) }
        ensures content { Takes (left self.old) (left self.new) into.new result }
        ensures tells { is_some (left self.new) ≡ is_some (left self.old) }
        ensures ended { ended self.new ≡ is_end result }
        ensures cause { HasCause (faults self.old) (faults self.new) result };
}
