//! Certificates of keys (RFC 5280 4), in a profile for HSS keys (RFC 9708).
//!
//! What it is for: [`Certificate::decode`] reads a certificate and names spans of its octets; its calls tell the key, what it
//! may be used for, and whether it may issue others. [`own_tbs`] and [`own_certificate`] write the certificate that the
//! holder of a key issues to itself.
//!
//! What it promises: a decode answers exactly the certificate that the octets are, or the first cause why they are none, with
//! the place of the first check that fails. The contents of the known extensions are checked there: keyUsage, extKeyUsage,
//! basicConstraints, subjectKeyIdentifier, authorityKeyIdentifier and certificatePolicies. No call but `own_tbs` and
//! `own_certificate` takes memory.
//!
//! What it stands on: `dv_asn1` over the definitions of `dv_schema`, `dv_time` and `dv_names`, and the digests of `sha2`.
#![tactic(auto)]

mod certificate;
mod fault;
mod find;
mod known;
pub mod laws;
mod own;
mod tbs;
#[cfg(test)]
mod tests;
mod uses;
mod whole;

pub use certificate::{CERTIFICATE_LIMIT, Certificate};
pub use fault::X509;
pub use own::{OwnParts, own_certificate, own_tbs};
pub use uses::{Ca, is_hss};
