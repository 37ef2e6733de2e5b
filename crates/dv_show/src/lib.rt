//! What the values in a file are, in words.
//!
//! What it is for: [`show_values`] gives a line for each value of a file: a request (RFC 3029 8) by its service, an error notice
//! (RFC 3029 9.2) by its least failure bit, and a certificate of service (RFC 3029 9.1) by its service, serial number, moment,
//! imprint and status. A certificate is read where it is the content of signed data; requests and notices are read so too, and
//! unsigned. No signature is looked at.
//!
//! What it promises: the text has exactly the lines of the file's values, and at most four times as many octets as the file. A
//! file gets none exactly where it has no value, or one that is none of these, but for want of memory. That a refusal's place is
//! that of the first check that fails is only tested.
//!
//! The definitions stand in `Values` (what a value is), `Lines` (its line) and `Show` (the text of a file).
//!
//! What it stands on: `dv_asn1`, `dv_time`, `dv_names`, `dv_status`, `dv_cms`, `dv_request`, `dv_response` and `dv_signed`, over the
//! definitions of `dv_schema`, and the kit's `hex`.
#![tactic(auto)]

mod content;
mod line;
mod names;
mod show;
mod shown;
mod value;

pub use names::{digest_name, failure_name, service_name, status_name};
pub use show::{ShowFault, show_values};
pub use shown::Shown;

#[cfg(test)]
mod tests;
