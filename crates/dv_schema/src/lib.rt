//! The grammar of DER values (X.690), as definitions and theorems.
//!
//! What it is for: the one place that says what the octets of a value are, and why octets are refused. A type is one
//! line in a table of schemas (`specs/Schema.antt`); the crates that read and write values cite the definitions here in
//! their contracts. It has no parser and no writer of its own.
//!
//! What it promises: for every schema, what is read is spelled so, what is spelled so is read whatever follows, each
//! spelling spells one value, none is a proper prefix of another, and octets begin with a value or are refused, never
//! both. Each of these is the contract of a function in [`laws`]. [`Der`] is a refusal: the place and the reason of the
//! first check that fails.
//!
//! The definitions, to be read in this order: `Tlv` (one value's octets), `Octets` (comparing them), `Rules` (contents of
//! primitive values), `Schema` (types, their values, the spelling), `Fits` (what has a spelling, and how deep), `Clear`
//! (schemas that one tag decides), `Reading` (the first refusal), `Answers` and `Decodes` (what a decoder answers),
//! `Types` (common types).
//!
//! What it stands on: std alone.
#![tactic(auto)]

pub mod laws;
mod refusal;

pub use refusal::{Der, Why};
