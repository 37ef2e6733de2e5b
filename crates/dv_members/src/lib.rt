//! Lists of values of one type (X.690 8.10, 8.12), kept as the octets of their members.
//!
//! What it is for: types keep a list as its contents octets. [`read_counted`] reads such a list and counts its members.
//!
//! What it promises: what is read is a list of values of the type, or the first refusal with its place, and the count is
//! that of the values in it. `values_in` in specs/Members.antt says which values kept octets hold, and [`laws`] that they
//! are those which the octets spell.
//!
//! What it stands on: `dv_asn1`, over the definitions of `dv_schema`.
#![tactic(auto)]

pub mod laws;
mod members;

pub use members::read_counted;
