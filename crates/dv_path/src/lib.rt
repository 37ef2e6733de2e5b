//! Trust anchors, bags of certificates, and the paths between them (RFC 5280 6.1).
//!
//! What it is for: [`Trust::decode`] reads a trust file, a [`Bag`] holds the certificates among which a path is searched, and
//! [`find_path`] searches one.
//!
//! What it promises: a trust file is read exactly where it is 1 to 16 certificates, and each refusal comes exactly for its
//! cause; a bag holds exactly the certificates that were added to it, in order. What a path is, and which one is chosen, stands
//! in specs/Paths.antt, which knows nothing of how it is found: the search gives that path, or none exactly where there is no
//! path, and verifies at most one signature for each certificate and each certificate or anchor that may have issued it. The
//! module [`laws`] says that one path is chosen at most.
//!
//! What it stands on: `dv_x509` for certificates, `dv_lms` for signatures, `dv_walks` for the search, `dv_request` for what is
//! demanded of a path, `dv_files` for files of certificates, `dv_asn1` over the definitions of `dv_schema`, and `thiserror`.
#![tactic(auto)]

mod bag;
mod demand;
mod faults;
mod issuing;
pub mod laws;
mod path;
mod table;
#[cfg(test)]
mod tests;
mod trust;

pub use bag::{BAG_LIMIT, Bag};
pub use faults::{BagFault, TrustFile};
pub use path::{Path, find_path};
pub use trust::{ANCHOR_LIMIT, Trust};
