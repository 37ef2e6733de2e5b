//! The compression of SHA-256 on four blocks at once.
//!
//! A `u32x4` holds one word of each of four messages, a message in each lane. `compress` adds a block
//! to the hash value of each, and each lane of what it gives is the compression of `sha2`'s own
//! definition, `compress` in `sha2/specs/Sha256.antt`: so a digest that is made here is the digest of
//! that definition, and nothing new is to be believed. `words` has the operations on words of which a
//! caller makes its blocks.
//!
//! It takes no memory, and stands on the definitions of `sha2` alone: no digest of `sha2` is called.
#![tactic(auto)]

pub use rounds::{compress, initial};

mod constants;
mod rounds;
#[cfg(test)]
mod tests;
pub mod words;
