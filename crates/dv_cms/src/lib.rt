//! Cryptographic Message Syntax (RFC 5652), as far as this project reads and writes it.
//!
//! What it is for: every message is a [`ContentInfo`], a content type and a content.
//!
//! What it promises: `decode` answers the one value that the octets spell, or the first refusal with its place, and
//! takes no memory; `write` writes the spelling of a value, and what was written decodes to the same value.
//!
//! What it stands on: `dv_asn1`, over the definitions of `dv_schema`.
#![tactic(auto)]

mod content_info;
pub mod laws;
mod signer;

pub use content_info::{ContentInfo, SIGNED_DATA_TYPE, content_header_len, write_content_header};
pub use signer::{Attribute, SERIAL_LIMIT, Signer};
