//! Digests of octets by each known algorithm.

ghost use Rattle.std.specs.Prelude.{◌≡◌};
ghost use Rattle.dv_schema.specs.Octets.{same_octets};
ghost use Rattle.dv_schema.specs.Tlv.{tlv};
ghost use Rattle.dv_signed.specs.Kinds.{digest_by};

use dv_asn1::same;
use dv_names::DigestKind;
use sha2::{Digest, Sha256, Sha384, Sha512};

/// The tag of an OCTET STRING.
const OCTET_STRING: u8 = 0x04;

/// Whether this is the digest of the octets.
pub(crate) fn is_digest(kind: DigestKind, octets: &[u8], digest: &[u8]) -> bool
    ensures { result ≡ same_octets (digest_by kind octets.now) digest.now }
{
    match kind {
        DigestKind::Sha256 => same(&Sha256::digest(octets), digest),
        DigestKind::Sha384 => same(&Sha384::digest(octets), digest),
        DigestKind::Sha512 => same(&Sha512::digest(octets), digest),
    }
}

/// Whether the value is the OCTET STRING of the digest of the octets. They aren't looked at where it has another length.
pub(crate) fn holds_digest(value: &[u8], kind: DigestKind, octets: &[u8]) -> bool
    ensures { result ≡ same_octets value.now (tlv 4 (digest_by kind octets.now)) }
{
    let [tag, len, digest @ ..] = value else {
        return false;
    };
    if *tag != OCTET_STRING || *len as usize != kind.digest_len() {
        return false;
    }
    is_digest(kind, octets, digest)
}
