//! The world outside in memory: fakes of the traits of `dv_outside` that tell their content.
//!
//! Each fake does exactly what it was told when it was made: which octets it gives, in which pieces, and at which calls it
//! fails. In each, `failing` lists the numbers of the calls that fail, counted from 0. Contracts say of each call whether
//! it fails, what it gives and what state it leaves, so that a test or a theorem above can rest on them.
//!
//! - [`MemSource`] gives its octets in pieces of listed sizes.
//! - [`MemShelf`] holds files by name.
//! - [`MemClock`] gives listed moments.
//! - [`MemStation`] keeps what was put, and takes no memory in a call.
//! - [`MemDiag`] keeps the lines for people, so that tests can compare them.
//!
//! A count of calls stops at 2^64 - 1, which no list of numbers goes past; from there on each call of the first three
//! fails.
//!
//! It stands on `dv_outside`, whose traits it meets.
#![tactic(auto)]

mod clock;
mod diag;
mod image;
mod journal;
mod made;
mod meter;
mod plan;
mod shelf;
mod source;
mod station;
mod tape;

pub use clock::MemClock;
pub use diag::MemDiag;
pub use image::Pick;
pub use shelf::MemShelf;
pub use source::MemSource;
pub use station::MemStation;
