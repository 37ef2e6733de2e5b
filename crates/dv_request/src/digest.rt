//! The DigestInfo of a SHA-256 digest.

ghost use Rattle.std.specs.Prelude.{◌≡◌, ◌≤◌, None, length};
ghost use Rattle.dv_schema.specs.Schema.{spelling};
ghost use Rattle.dv_asn1.specs.Writing.{room_of, Writes};
ghost use Rattle.dv_names.specs.Types.{digest_info};
ghost use Rattle.dv_names.specs.declared.identifiers.TheConstants.{SHA_256};

use dv_asn1::{Writer, header_len};
use dv_names::identifiers::SHA_256;

/// How many octets the AlgorithmIdentifier of SHA-256 without parameters has.
const ALGORITHM_LEN: usize = 13;

/// How many octets the DigestInfo has.
pub(crate) fn digest_len(digest: &[u8; 32]) -> usize
    ensures octets { result ≡ length (spelling digest_info ((SHA_256, (None, tt)), (digest.now, tt))) }
    ensures few { result ≤ 49 }
{
    let contents = ALGORITHM_LEN + header_len(digest.len()) + digest.len();
    header_len(contents) + contents
}

/// Writes a DigestInfo whose algorithm is SHA-256 without parameters.
pub(crate) fn write_digest(digest: &[u8; 32], out: &mut Writer<'_>)
    requires { length (spelling digest_info ((SHA_256, (None, tt)), (digest.now, tt))) ≤ room_of out.old }
    ensures { Writes out.old out.new (spelling digest_info ((SHA_256, (None, tt)), (digest.now, tt))) }
{
    out.header(0x30, 47);
    out.header(0x30, 11);
    out.tlv(0x06, &SHA_256);
    out.tlv(0x04, digest);
}
