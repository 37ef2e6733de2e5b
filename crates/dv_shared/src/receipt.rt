//! What a reservation or a put on a shared register answers.
ghost use Rattle.std.specs.Prelude.{◌≡◌};

use dv_register::Slot;
use std::marker::Model;
use thiserror::Error;

/// A record that stands in the register: its serial and its leaf, and how many records there were with it. Nothing else has that
/// leaf.
#[derive(Drop)]
pub struct Receipt {
    slot: Slot,
    front: u32,
}

impl Model for Receipt {
    ghost use Rattle.dv_shared.specs.Receipts.{ReceiptState};

    ghost Value = { ReceiptState };

    ghost view = { λ r. record { slot = r.slot; front = r.front } };
}

/// Why no record is reserved.
#[derive(Clone, Copy, Debug, PartialEq, Eq, Error)]
pub enum SharedReserve {
    /// Each leaf of the key has its record.
    #[error("the register is full")]
    Full,
    /// An earlier reservation met a fault.
    #[error("the register is shut")]
    Shut,
    /// The station failed. The register is shut from then on.
    #[error("the register's file can't be written")]
    Fault,
    /// Want of memory. Nothing was written.
    #[error("there is not enough memory for a record")]
    Memory,
}

/// Why octets aren't put.
#[derive(Clone, Copy, Debug, PartialEq, Eq, Error)]
pub enum SharedEmit {
    /// The station failed. A part of the octets from their front may have gone out.
    #[error("the output can't be written")]
    Failed,
    /// The history has no room for another put. Nothing was put.
    #[error("the register was used too often since it was opened")]
    Spent,
}

impl Receipt {
    pub(crate) fn new(slot: Slot, front: u32) -> Receipt
        ensures { result ≡ record { slot = slot; front = front } }
    {
        Receipt { slot, front }
    }

    /// The serial of the record.
    pub fn serial(&self) -> u64
        ensures { result ≡ self.now.slot.serial }
    {
        self.slot.serial()
    }

    /// How many records there were with it.
    pub fn front(&self) -> u32
        ensures { result ≡ self.now.front }
    {
        self.front
    }

    /// Its serial and its leaf, to sign with.
    pub fn into_slot(self) -> Slot
        ensures { result ≡ self.slot }
    {
        self.slot
    }
}
