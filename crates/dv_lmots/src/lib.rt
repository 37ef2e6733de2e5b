//! One-time signatures: LM-OTS of RFC 8554 section 4, with the one parameter set
//! LMOTS_SHA256_N32_W8 (hashes of 32 octets, digits of 8 bits, 34 chains, signatures of 1,124
//! octets).
//!
//! A one-time key is named by the identifier `id` of its tree, the tree's `seed` and the number `q`
//! of its leaf. `public_of` gives its public key, `sign_ots` its signature of a message, and
//! `candidate` the public key that a signature of a message gives, which is the signer's where the
//! signature is good; `candidate_joined` does so for a message in two parts. Each answers exactly what the standard's formulas say, as `specs/Lmots.antt`
//! has them, for every number `q`. None takes memory, and each makes one compression of SHA-256 for
//! a step of a chain. Chains go four at a time, a chain in each lane of `dv_lanes`; `plain` has the
//! same calls under the same clauses as the definition's plain program, one chain after another.
//!
//! The standard leaves the randomizer of a signature to the signer. Here it is derived from the
//! seed, so that signing is a function: two signatures of one message at one leaf are the same
//! octets. Nothing here counts leaves: that a leaf signs one message only is for the caller to see
//! to.
//!
//! It stands on `sha2` for SHA-256, on `dv_lanes` for its compression in four lanes, and on
//! `byteorder` for the numbers in its buffers.
#![tactic(auto)]

pub use lanes::{candidate, candidate_joined, public_of, sign_ots};
pub use law::signature_gives_key;

mod chain;
mod chains;
mod four;
mod hashes;
mod lanes;
mod law;
pub mod plain;
mod signature;
#[cfg(test)]
mod tests;

/// The number of chains of a one-time key.
const CHAINS: usize = 34;

/// The length of a signature: its type, the randomizer, and a value for each chain.
pub const SIGNATURE_LEN: usize = 1124;
