//! Why a signer's signature isn't taken.

/// Why a signer's signature isn't taken, in the order in which it is looked at.
#[derive(Clone, Copy, Debug, PartialEq, Eq)]
pub enum SignerFault {
    /// The digest algorithm is none of SHA-256, SHA-384 and SHA-512, or the signature algorithm isn't HSS without
    /// parameters.
    Algorithm = 1,
    /// The signed attributes aren't as they must be (RFC 5652 11, RFC 5035 3), or there are none and the content isn't of type
    /// id-data.
    Attribute = 2,
    /// The messageDigest isn't the digest of the content.
    Digest = 3,
    /// There is no HSS key, or the signature isn't one under it.
    Signature = 4,
}
