//! The signature scheme: HSS of RFC 8554 with one level, which is LMS over the one-time signatures of
//! `dv_lmots`, with the parameter set LMS_SHA256_M32_H5 (32 leaves).
//!
//! A `Key` is made from the height of its tree, an identifier and a seed. `Key::public` gives the 60
//! octets of its public key, and `Key::sign` its signature of a message with a leaf. `verify` says
//! whether a signature is one of a message under a public key: true exactly where the standard's
//! verification accepts it, with nothing before, between or after its parts; `verify_joined` says so of
//! a message in two parts. Each call of them adds one step to the counter that it is lent, whatever it
//! answers. `signed_verifies` is the law that what a
//! key signs verifies under its public octets.
//!
//! Signing and verifying take no memory. What the octets are is said by the definitions in `specs/`:
//! `node`, `public_of` and `signature_of` go from the root down, and the code goes from the leaves
//! up. A one-time key may sign one message only. No call here counts the leaves that were used.
//!
//! It stands on `dv_lmots` for one-time signatures, on `sha2` for the hashes of nodes, and on
//! `byteorder` for the numbers in keys and signatures.
#![tactic(auto)]

pub use height::Height;
pub use key::{Key, signed_verifies};
pub use signature::Signature;
pub use steps::Steps;
pub use verification::{verify, verify_joined};

mod height;
mod key;
mod octets;
mod signature;
mod steps;
#[cfg(test)]
mod tests;
mod tree;
mod verification;
