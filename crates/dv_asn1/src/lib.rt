//! Reading and writing DER values (X.690).
//!
//! What it is for: every crate that reads a message does it by a [`Cursor`] over its octets, and every crate that makes
//! one writes it by a [`Writer`] into a slice.
//!
//! What it promises: each reading call answers the value or the first refusal, its place and its reason, exactly as the
//! definitions of `dv_schema` have it, and leaves the cursor where it was after a refusal. Each writing call writes
//! exactly the octets that those definitions name. No call takes memory. By the laws of `dv_schema` it follows that what
//! a decoder reads is spelled so, that what is spelled so is read, and that there is a value or a refusal.
//!
//! The lists [`Octets`], [`OctetLists`] and [`Places`] are fields of public types that contracts see as lists.
//!
//! What it stands on: `dv_schema`.
#![tactic(auto)]

mod cursor;
mod lists;
mod members;
mod number;
mod rules;
mod writer;

pub use cursor::Cursor;
pub use dv_schema::{Der, Why};
pub use lists::{OctetLists, Octets, Places};
pub use members::{
    AnyValue, Decode, Member, check_members, check_set, count_members, member_at, read_list,
    read_optional_list, read_optional_set, read_set,
};
pub use rules::same;
pub use writer::{Writer, header_len, number_len, value_len};
