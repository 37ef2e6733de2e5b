//! Identifiers, algorithms, names, policies and extensions.
//!
//! What it is for: the types that certificates, requests and signatures are made of (RFC 5280 4.1.1.2, 4.1.2.4, 4.2; RFC 5652
//! 10.1), the identifiers that this project knows, and identifiers as dotted decimals.
//!
//! What it promises: `decode` answers the value that the octets spell, or the first refusal with its place; `write` writes
//! the spelling of a value, and what was written is read as the same value. [`display`] shows an identifier by its arcs, and
//! [`oid_from_text`] gives the identifier that a text shows, or the place of the first octet that no such text has there; the
//! two undo each other. Of all calls only these two take memory.
//!
//! What it stands on: `dv_asn1`, over the definitions of `dv_schema`, `dv_repeats` for lists of extensions, and `thiserror`.
#![tactic(auto)]

mod algorithm;
mod digest;
mod dotted;
mod extension;
mod extensions;
mod general;
pub mod identifiers;
pub mod laws;
mod name;
mod policy;
mod shown;

pub use algorithm::{AlgId, DigestInfo, Oid};
pub use digest::{DigestKind, digest_kind};
pub use dotted::{OidText, oid_from_text};
pub use extension::Extension;
pub use extensions::{
    Known, NoneKnown, check_extensions, read_extensions, read_optional_extensions,
};
pub use general::GeneralName;
pub use name::Name;
pub use policy::PolicyInfo;
pub use shown::{DisplayError, display};

#[cfg(test)]
mod tests;
