//! The register of a key: a file that gives each certificate its serial and its leaf before it is signed.
//!
//! [`Register`] makes a register in an empty file, opens one, reserves a serial and a leaf for a record's contents, gives
//! records back, and sends what a rule allows under its list. [`SigningKey`] signs with leaves of its register alone, each of
//! them once. [`steps`] are the station calls that write the file, and [`laws`] what holds over whole histories.
//!
//! What it promises, where the station tells its content:
//!
//! - At every moment since a register was made or opened, inside a call too, whatever octets a crash leaves in the file stand
//!   for a list that begins with the one at the opening, and under that list each piece that was sent is allowed.
//! - After a reservation that answers Ok, each such list holds the record at its number, with its kind and contents.
//! - An opening finds the list that stands in the file, and refuses a file exactly where the layout says so, by its place.
//!   It keeps what each image stands for, whatever it answers.
//! - Over any lives of a register, each opening finds every record under which anything was sent before, at its serial.
//!
//! And always: a fault is answered only where the station's count of faults rose in the call, and then nothing more is
//! reserved until the file is opened again.
//!
//! What it stands on: `dv_outside` for the file, `dv_lms` for the key, and `thiserror`.
#![tactic(auto)]

pub mod laws;
mod opening;
mod place;
mod refusals;
mod register;
mod signing_key;
pub mod steps;

pub use refusals::{Contents, Create, Open, Reserve};
pub use register::Register;
pub use signing_key::{Leaf, SigningKey, Slot};

#[cfg(test)]
mod tests;
