//! Where the parts of a signature stand in its octets (RFC 8554 4.5): the type in 4, the randomizer
//! in 32, and a value of 32 for each chain.

ghost use Rattle.std.specs.Prelude.{◌≡◌, ◌↔◌, [], ◌∷◌, ◌+◌, ◌≤◌, length, IsTrue, slice_range, take};
ghost use Rattle.dv_lmots.specs.Lmots.{HasOtsForm};

use crate::SIGNATURE_LEN;

// The type of LMOTS_SHA256_N32_W8.
const TYPE: [u8; 4] = [0, 0, 0, 4];

/// The octets of a signature with the randomizer `c`, whose values are still to be written.
pub(crate) fn start(c: &[u8; 32]) -> [u8; SIGNATURE_LEN]
    ensures { take 36 result ≡ 0 ∷ 0 ∷ 0 ∷ 4 ∷ c.now }
{
    let mut octets = [0; SIGNATURE_LEN];
    octets[..4].copy_from_slice(&TYPE);
    octets[4..36].copy_from_slice(c);
    octets
}

/// Whether the octets have the length of a signature and begin with its type.
pub(crate) fn has_form(octets: &[u8]) -> bool
    ensures { IsTrue result ↔ HasOtsForm octets.now }
{
    octets.len() == SIGNATURE_LEN && &octets[..4] == TYPE.as_slice()
}

/// The 32 octets from `start` on.
pub(crate) fn hash_at(octets: &[u8], start: usize) -> [u8; 32]
    requires { start + 32 ≤ length octets.now }
    ensures { result ≡ slice_range octets.now start (start + 32) }
{
    let mut hash = [0; 32];
    hash.copy_from_slice(&octets[start..start + 32]);
    hash
}
