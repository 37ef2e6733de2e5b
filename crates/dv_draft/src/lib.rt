//! What a certificate of service says before it has its serial number, and the records that keep it.
//!
//! What it is for: a [`Draft`] has all fields of a DVCSCertInfo (RFC 3029 9.1) but its serial number; [`record_of`] gives the
//! octets that a register keeps of it, beside the certificates of its [`Server`], and [`assemble`] the DVCSCertInfo once the
//! serial number is known. [`read_record`] reads what a register kept, and [`read_own_record`] the record of an own certificate.
//!
//! What it promises: each part of a draft spells its type, at its depth in a DVCSCertInfo. The writers give exactly the
//! octets of the definitions, and the readers exactly what was written, or the first refusal with its place: [`reading_laws`]
//! says so of whole records.
//!
//! What it stands on: `dv_asn1` over the definitions of `dv_schema`, `dv_time`, `dv_names`, `dv_status`, `dv_request`,
//! `dv_response` and `dv_x509`.
#![tactic(auto)]

mod certificates;
mod draft;
mod imprint;
mod imprint_span;
pub mod laws;
mod numbered;
mod own;
mod own_reading;
mod reading;
pub mod reading_laws;
mod record;
mod server;
mod service_status;
mod spans;
mod status_reading;

pub use draft::{Answer, Draft};
pub use imprint::Imprint;
pub use numbered::assemble;
pub use own::own_record;
pub use own_reading::read_own_record;
pub use reading::{ReadRecord, read_record};
pub use record::record_of;
pub use server::Server;
pub use service_status::Status;

#[cfg(test)]
mod tests;
