//! A register's file and the output, which share one count of moments.
ghost use Rattle.std.specs.Prelude.{◌≡◌, ◌+◌, ◌^◌, ◌≤◌, Bool, length, slice_range, IfOk, OnOk, IsTrue};
ghost use Rattle.dv_outside.specs.Causes.{HasCause};
ghost use Rattle.dv_outside.specs.Station.{Content, Counts, Looks, Syncs, Writes, Puts, Spends};

use crate::Failed;

/// The file of a register and the output. Both share one count of moments, so one crash moment speaks of both, also within
/// a call.
///
/// Between two syncs each written range, and what is past the old end of the file, may hold any octets after a crash; the
/// octets outside stay. After a sync that succeeds a crash leaves what the file holds. Nobody else writes the file.
pub trait Station {
    /// Whether the station tells its content.
    ghost tells: { Self → Bool };

    /// The file, its images and what was sent, moment by moment. It means something where the station tells it.
    ghost content: { Self → Content };

    /// Its two counts of faults, what its calls have used, and up to which amount none faults.
    ghost counts: { Self → Counts };

    /// The length of the file in octets.
    fn len(&mut self) -> Result<u64, Failed>
        ensures length { IsTrue (tells self.old) → IfOk result (λ n. n ≡ length (content self.old).reads) }
        ensures content { IsTrue (tells self.old) → Looks (content self.old) (content self.new) }
        ensures tells { tells self.new ≡ tells self.old }
        ensures cause { HasCause (counts self.old).faults (counts self.new).faults result }
        ensures puts { (counts self.new).put_faults ≡ (counts self.old).put_faults }
        ensures spends { Spends 1 0 (counts self.old) (counts self.new) };

    /// Reads the octets of the file from `place` on, as many as `into` holds. What a read that fails leaves in `into` is
    /// not said.
    fn read_at(&mut self, place: u64, into: &mut [u8]) -> Result<(), Failed>
        requires { IsTrue (tells self.old) → place + length into.old ≤ length (content self.old).reads }
        ensures octets { IsTrue (tells self.old) → OnOk result
            (into.new ≡ slice_range (content self.old).reads place (place + length into.old)) }
        ensures content { IsTrue (tells self.old) → Looks (content self.old) (content self.new) }
        ensures tells { tells self.new ≡ tells self.old }
        ensures cause { HasCause (counts self.old).faults (counts self.new).faults result }
        ensures puts { (counts self.new).put_faults ≡ (counts self.old).put_faults }
        ensures spends { Spends 1 0 (counts self.old) (counts self.new) };

    /// Writes these octets from `place` on, over what is there and past the end. One that fails may have written any octets
    /// into its range.
    fn write_at(&mut self, place: u64, bytes: &[u8]) -> Result<(), Failed>
        requires end { place + length bytes.now ≤ 2 ^ 40 }
        requires place { IsTrue (tells self.old) → place ≤ length (content self.old).reads }
        ensures content { IsTrue (tells self.old) →
            Writes place bytes.now result (content self.old) (content self.new) }
        ensures tells { tells self.new ≡ tells self.old }
        ensures cause { HasCause (counts self.old).faults (counts self.new).faults result }
        ensures puts { (counts self.new).put_faults ≡ (counts self.old).put_faults }
        ensures spends { Spends 1 (length bytes.now) (counts self.old) (counts self.new) };

    /// Makes sure that the file outlasts a crash as it is now.
    fn sync(&mut self) -> Result<(), Failed>
        ensures content { IsTrue (tells self.old) → Syncs result (content self.old) (content self.new) }
        ensures tells { tells self.new ≡ tells self.old }
        ensures cause { HasCause (counts self.old).faults (counts self.new).faults result }
        ensures puts { (counts self.new).put_faults ≡ (counts self.old).put_faults }
        ensures spends { Spends 1 0 (counts self.old) (counts self.new) };

    /// Appends these octets to the output. One that fails has sent a part of them from their front, maybe none.
    fn put(&mut self, bytes: &[u8]) -> Result<(), Failed>
        ensures content { IsTrue (tells self.old) → Puts bytes.now result (content self.old) (content self.new) }
        ensures tells { tells self.new ≡ tells self.old }
        ensures cause { HasCause (counts self.old).put_faults (counts self.new).put_faults result }
        ensures faults { (counts self.new).faults ≡ (counts self.old).faults }
        ensures spends { Spends 1 (length bytes.now) (counts self.old) (counts self.new) };

    /// The file as it is now is one of its images.
    ghost reads_is_image: { (station : Self) → IsTrue (tells station) →
        (content station).image (content station).moment (content station).reads };
}
