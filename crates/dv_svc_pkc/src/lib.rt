//! The service of certificates (RFC 3029 2.4): `cpkc` validates public key certificates.
//!
//! What it is for: [`answer_cpkc`] makes the draft of a certificate of service from a request that hands in certificates, or
//! says why there is none.
//!
//! What it promises: a request is refused exactly where the definitions say so. Else the draft is exactly theirs: a target is
//! granted exactly where a path leads from it to a trust anchor, its entry has the certificates of the chosen path, and at most
//! so many signatures are verified as the definitions allow.
//!
//! What it stands on: `dv_draft` and `dv_request`, the paths of `dv_path`, and what the services share, `dv_parts`.
#![tactic(auto)]

mod certificates;
mod cpkc;
mod entries;
mod entry;
mod input;
mod targets;
mod validation;

pub use cpkc::answer_cpkc;

#[cfg(test)]
mod tests;
