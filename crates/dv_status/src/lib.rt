//! The status of a request (RFC 4210 5.2.3), in the profile of this project.
//!
//! What it is for: a [`StatusInfo`] says whether a request was granted, and which failures stood against it.
//!
//! What it promises: `decode` answers the value that the octets spell, or the first refusal with its place; `write` writes
//! the spelling of a value, and what was written is read as the same value. A set of failure bits and its octets are one
//! for one. No call takes memory.
//!
//! What it stands on: `dv_asn1`, over the definitions of `dv_schema`.
#![tactic(auto)]

mod fail;
pub mod failure;
pub mod laws;
mod status;

pub use fail::FailBits;
pub use status::StatusInfo;
