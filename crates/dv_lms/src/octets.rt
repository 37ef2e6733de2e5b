//! Parts of the octets of keys and signatures.

ghost use Rattle.std.specs.Prelude.{◌≡◌, ◌↔◌, ◌+◌, ◌≤◌, IsTrue, length, slice_range};
ghost use Rattle.std.specs.Int.{w32, to_be_bytes};
ghost use Rattle.dv_lms.specs.Signed.{public_start};

use crate::height::Height;

/// How a public key begins (RFC 8554 6.1): one level of trees, the LMS type, and the LM-OTS type 4.
pub(crate) fn public_start(height: Height) -> [u8; 12]
    ensures { result ≡ public_start height }
{
    let [a, b, c, d] = height.lms_type().to_be_bytes();
    [0, 0, 0, 1, a, b, c, d, 0, 0, 0, 4]
}

/// Whether the octets are this number in 32 bits.
pub(crate) fn is_number(octets: &[u8], number: u32) -> bool
    ensures { IsTrue result ↔ (octets.now ≡ to_be_bytes w32 number) }
{
    octets == number.to_be_bytes().as_slice()
}

/// The 32 octets from `start` on.
pub(crate) fn hash_at(octets: &[u8], start: usize) -> [u8; 32]
    requires { start + 32 ≤ length octets.now }
    ensures { result ≡ slice_range octets.now start (start + 32) }
{
    let mut hash = [0; 32];
    hash.copy_from_slice(&octets[start..start + 32]);
    hash
}
