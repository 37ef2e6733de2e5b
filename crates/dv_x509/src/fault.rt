//! Why octets are no certificate.

use dv_asn1::Der;
use thiserror::Error;

/// Why octets are no certificate. Where several causes stand together the answer is the first of `TooLong`, `Der`,
/// `Version` and `Algorithm`.
#[derive(Clone, Copy, Debug, PartialEq, Eq, Error)]
pub enum X509 {
    /// The octets are no Certificate: the place and the reason of the first check that fails.
    #[error("the certificate is {0}")]
    Der(Der),
    /// A version is present, and it is neither 1 nor 2 (RFC 5280 4.1.2.1).
    #[error("the certificate has an unknown version")]
    Version,
    /// The algorithm in the signed part isn't the one of the signature (RFC 5280 4.1.1.2).
    #[error("the two signature algorithms of the certificate differ")]
    Algorithm,
    /// There are more than 8,192 octets.
    #[error("the certificate has more than 8192 octets")]
    TooLong,
}
