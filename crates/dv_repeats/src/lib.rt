//! The first repetition in a list of values with keys.
//!
//! What it is for: in some lists no two members may have the same key, as no two extensions of one identifier stand in a list
//! (RFC 5280 4.2). [`first_repeated`] goes over such a list, whose members a [`Keyed`] reads, and tells the first member whose key a member
//! before it has.
//!
//! What it promises: for the members that are read, up to any of them, it tells exactly whether two have one key, and which is the first
//! that repeats one. What is read of a list that isn't read whole counts up to its fault.
//!
//! What it costs: it takes no memory. The keys of 1,024 members at a time stand in order, and those of all members behind are looked up
//! among them: for n members some n^2 / 2,048 look-ups, each of ten comparisons. No member of a list of 1,024 or fewer is read twice.
//!
//! What it stands on: `dv_asn1` over the definitions of `dv_schema`, and `arrayvec`.
#![tactic(auto)]

mod repeated;
mod window;

pub use repeated::{Keyed, first_repeated};
