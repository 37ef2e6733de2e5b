//! Signed data (RFC 5652 5), and whether its signers signed it.
//!
//! What it is for: [`SignedData`] is a signed content with its certificates and its signers, each a [`SignerInfo`];
//! [`signer_check`] says whether a signer signed the content with the key of a certificate, or why not.
//!
//! What it promises: `decode` answers the one value that the octets spell, or the first refusal with its place, with the
//! counts of certificates and signers and the places of the content; [`SignedData::certificate`] and
//! [`SignedData::signer`] give each of them, and none exactly past the count. The fault of a signer is the first of
//! `IsFault` in specs/Check.antt, and at most one signature is verified for it. No call takes memory.
//!
//! What it stands on: `dv_cms` for the types of signers, `dv_names` for names and algorithms, `dv_members` for lists,
//! `dv_repeats` for types that stand twice, `dv_x509` for the algorithm of keys, `dv_lms` for signatures, `sha2` for digests, and `dv_asn1` over the definitions of `dv_schema`.
#![tactic(auto)]

mod attributes;
mod certificates;
mod check;
mod digest;
mod encapsulated;
mod essential;
mod fault;
mod header;
pub mod laws;
mod sid;
mod signed_data;
mod signer;

pub use check::signer_check;
pub use fault::SignerFault;
pub use sid::Sid;
pub use signed_data::SignedData;
pub use signer::SignerInfo;
