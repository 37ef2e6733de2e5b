//! What a server of RFC 3029 answers, read from its octets.
//!
//! What it is for: a [`Response`] is a certificate of service, [`CertInfo`], or a [`Notice`] that there is none.
//!
//! What it promises: `decode` answers the value that the octets spell, or the first refusal with its place. No call takes
//! memory.
//!
//! What it stands on: `dv_asn1`, `dv_time`, `dv_names`, `dv_status`, `dv_cms` and `dv_request`, over the definitions of `dv_schema`.
#![tactic(auto)]

mod cert_info;
mod response;

pub use cert_info::CertInfo;
pub use response::{Notice, Response};
