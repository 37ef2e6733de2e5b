//! What the server sends.
//!
//! What it is for: the error notice, the certificate of service, and the rule of what may be sent. [`notice_len`] and
//! [`notice_bytes`] write the ContentInfo that answers a request which gets no certificate. [`Room::new`] takes all the memory
//! that a certificate of a draft needs; [`Room::to_sign`] gives the octets to be signed once the serial number is known, and
//! [`Room::finish`] the whole ContentInfo once the signature is. [`NotaryRule`] says that a certificate may be sent while a
//! register holds its record, and a notice always.
//!
//! What it promises: the octets are those of `notice_of` in specs/Notice.antt and of `sealed` in specs/Sealed.antt. No call but
//! `Room::new` takes memory.
//!
//! What it stands on: `dv_asn1` over the definitions of `dv_schema`, `dv_names` and `dv_x509`, the drafts of `dv_draft`, the
//! signatures of `dv_lms` by their definition, the rules of `dv_outside`, and the digests of `sha2`.
#![tactic(auto)]

mod attributes;
mod draft_parts;
mod info;
pub mod laws;
mod message;
mod notice;
mod order;
mod room;
mod rule;
mod signer;

pub use notice::{notice_bytes, notice_len};
pub use room::Room;
pub use rule::NotaryRule;

/// No memory is found for a message with a part of more octets than this.
const PART_LIMIT: usize = 0xFF_FFFF_FFFF;
