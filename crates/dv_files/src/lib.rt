//! The files that the commands on a register read, from their octets to values.
//!
//! What it is for: [`read_seed`] reads the seed file of a register's key, [`read_certificates`] the file of the certificates
//! that a server signs under, and [`is_key_of`] tells whether a certificate is one of that key. [`next_certificate`] reads one
//! certificate among others, for readers of other files of certificates.
//!
//! What it promises: each reader gives exactly the value whose file the octets are, and refuses octets exactly where they are
//! no such file, with the place of the first octet, or of the first check of a certificate, that fails.
//!
//! What it stands on: `dv_lms` and `dv_register` for keys, `dv_asn1`, `dv_x509` and `dv_draft` over the definitions of
//! `dv_schema` for certificates, and `thiserror`.
#![tactic(auto)]

mod certificates;
mod faults;
mod key;
pub mod laws;
mod seed;
#[cfg(test)]
mod tests;

pub use certificates::{next_certificate, read_certificates};
pub use faults::{CertificateFile, NoCertificate, SeedFile};
pub use key::is_key_of;
pub use seed::read_seed;
