//! The services of possession (RFC 3029 2.1 and 2.2): `cpd` certifies that octets were possessed, `ccpd` that their possession
//! was claimed by a digest.
//!
//! What it is for: [`answer_cpd`] and [`answer_ccpd`] make the draft of a certificate of service from a request, or say why
//! there is none.
//!
//! What it promises: the drafts are exactly those of the definitions, and a claim is refused exactly where its algorithm
//! isn't known or its digest hasn't the algorithm's length.
//!
//! What it stands on: `dv_draft`, `dv_request`, and what the services share, `dv_parts`.
#![tactic(auto)]

mod possession;

pub use possession::{answer_ccpd, answer_cpd};

#[cfg(test)]
mod tests;
