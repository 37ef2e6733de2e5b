//! The register that several workers share, and what each of them knows of its history.
//!
//! A [`SharedRegister`] keeps a register under a lock. Each call of a worker takes its [`Pass`](dv_passes::Pass) and hands it back:
//! the pass has then seen the history up to that call, and has the call's addition among its own. So a worker knows, whatever the
//! others do, that its record stands in the register at the number that its [`Receipt`] says. Signing is no call of this crate,
//! and nothing that its calls give back holds the lock.
//!
//! What it promises, where the lock is free: the register has the records of the history, what was sent since it began to be
//! shared are the octets of its puts, and the counts of faults rose for its stops and its cut puts.
//!
//! What it stands on: `dv_passes` for the history, `dv_register` for the register, and the lock of std.
#![tactic(auto)]

mod adding;
mod crossing;
mod locked;
mod origin;
mod receipt;
mod shared;

pub use crossing::may_be_lent;
pub use locked::Locked;
pub use origin::{NamesRegister, Origin};
pub use receipt::{Receipt, SharedEmit, SharedReserve};
pub use shared::{SharedRegister, Unshared};

#[cfg(test)]
mod tests;
