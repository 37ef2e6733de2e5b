//! The world outside the program: what it reads, where it puts its octets, the clock, and the lines for people.
//!
//! Everything above this crate is generic over its traits, so the same code runs over real files and over the fakes of
//! `dv_outside_mem`. A trait says what a caller may know:
//!
//! - [`Source`]: octets that come in, in pieces of any size.
//! - [`Shelf`]: files that are read whole, by name.
//! - [`Clock`]: the time of day in seconds.
//! - [`Station`]: where the program's octets go out.
//! - [`Diag`]: lines for people, of which nothing is claimed.
//!
//! **Faults.** An object counts its faults, and a call answers [`Failed`] only where that count rose in the call, so a
//! caller that passes a fault on can show whose it was. A count never falls; one that stands at its end, 2^64 - 1, counts
//! as risen.
//!
//! **Content.** Whether an object tells what it holds is its own choice, which no call changes. Clauses on content hold
//! where it tells; clauses on faults hold always. The objects of this crate that reach the real world ([`StdSource`],
//! [`FileStation`], [`DirShelf`], [`SystemClock`], [`StdDiag`]) tell nothing: no proof can say what a file or a terminal
//! does. They are the trusted edge, a few lines each.
//!
//! It stands on the toolchain's library alone.
#![tactic(auto)]

mod clock;
mod diag;
mod dir_shelf;
mod fault;
mod file_station;
mod releases;
mod shelf;
mod source;
mod station;
mod std_diag;
mod std_source;
mod system_clock;

pub use clock::Clock;
pub use diag::Diag;
pub use dir_shelf::DirShelf;
pub use fault::Failed;
pub use file_station::FileStation;
pub use releases::Releases;
pub use shelf::{Shelf, ShelfRefusal};
pub use source::Source;
pub use station::Station;
pub use std_diag::StdDiag;
pub use std_source::StdSource;
pub use system_clock::SystemClock;
