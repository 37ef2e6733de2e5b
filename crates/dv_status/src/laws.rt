//! What was written of a value is read as the same value, whatever follows; and failure bits and their octets are one for one.

ghost use Rattle.std.specs.Prelude.{◌≡◌, ◌<◌, ◌^◌, ◌/◌, ◌%◌, ℕ, List, IsTrue};
ghost use Rattle.dv_schema.specs.Octets.{IsBytes};
ghost use Rattle.dv_schema.specs.Clear.{is_low};
ghost use Rattle.dv_schema.specs.Decodes.{ReadsBack};
ghost use Rattle.dv_status.specs.Fail.{fail_bits, fail_octets, is_fail};
ghost use Rattle.dv_status.specs.Types.{status_info};
ghost use Rattle.dv_status.specs.Views.{view_status};

/// A status, under whichever constructed tag of one octet it stands.
pub fn status_is_read_again()
    ensures { (tag : ℕ) → IsTrue (is_low tag) → tag / 32 % 2 ≡ 1
        → ReadsBack (status_info tag) view_status }
{}

/// Contents that are allowed give a set of failure bits, which gives them back; and a set gives allowed contents, which give
/// it back.
pub fn fail_bits_are_their_octets()
    ensures octets { (c : List ℕ) → IsBytes c → IsTrue (is_fail c) → fail_octets (fail_bits c) ≡ c }
    ensures bits { (m : ℕ) → m < 2 ^ 32 → fail_bits (fail_octets m) ≡ m }
    ensures allowed { (m : ℕ) → 0 < m → m % 32 ≡ 0 → m < 2 ^ 32 → IsTrue (is_fail (fail_octets m)) }
{}
