//! The digest algorithms that this project knows.

ghost use Rattle.std.specs.Prelude.{◌≡◌};
ghost use Rattle.std.specs.Option.{option_copied};
ghost use Rattle.dv_names.specs.Digest.{is_none_or_null, kind_of, length_of};
ghost use Rattle.dv_names.specs.Views.{view_algorithm};

use crate::algorithm::AlgId;
use crate::identifiers::{SHA_256, SHA_384, SHA_512};
use dv_asn1::same;

/// A digest algorithm.
#[derive(Clone, Copy, Debug, PartialEq, Eq)]
pub enum DigestKind {
    Sha256,
    Sha384,
    Sha512,
}

impl DigestKind {
    /// How many octets a digest has.
    pub fn digest_len(self) -> usize
        ensures { result ≡ length_of self }
    {
        match self {
            DigestKind::Sha256 => 32,
            DigestKind::Sha384 => 48,
            DigestKind::Sha512 => 64,
        }
    }
}

/// The digest algorithm that this is, its parameters absent or NULL (RFC 5754 2); None exactly for all else.
pub fn digest_kind(alg: &AlgId<'_>) -> Option<DigestKind>
    ensures { result ≡ kind_of (view_algorithm alg.now) }
{
    if !has_no_parameters(alg.params) {
        None
    } else if same(alg.oid.octets, &SHA_256) {
        Some(DigestKind::Sha256)
    } else if same(alg.oid.octets, &SHA_384) {
        Some(DigestKind::Sha384)
    } else if same(alg.oid.octets, &SHA_512) {
        Some(DigestKind::Sha512)
    } else {
        None
    }
}

/// Whether parameters are absent or NULL.
fn has_no_parameters(params: Option<&[u8]>) -> bool
    ensures { result ≡ is_none_or_null (option_copied params.entry) }
{
    match params {
        None => true,
        Some(params) => same(params, &[0x05, 0x00]),
    }
}
