//! The key of a register, and the leaves that it signs with.
ghost use Rattle.std.specs.Prelude.{◌≡◌, ◌<◌, length};
ghost use Rattle.dv_lms.specs.Height.{leaf_count, signature_len};
ghost use Rattle.dv_lms.specs.Signed.{public_of, signature_of};
ghost use Rattle.dv_register.specs.SigningKey.{LeafState, SlotState};

use dv_lms::{Height, Key, Signature};
use std::marker::Model;
use std::snapshot::Snapshot;

/// A key that signs with leaves of its register alone. It is seen as its identity, and the key can't be taken out.
#[derive(Drop)]
pub struct SigningKey {
    key: Key,
}

impl Model for SigningKey {
    ghost use Rattle.dv_lms.specs.Identity.{Identity};

    ghost Value = { Identity };

    ghost view = { λ k. k.key };
}

impl SigningKey {
    /// A key that signs with leaves of its register alone.
    pub fn new(key: Key) -> SigningKey
        ensures { result ≡ key }
    {
        SigningKey { key }
    }

    /// Its public key, 60 octets (RFC 8554 6.1).
    pub fn public(&self) -> [u8; 60]
        ensures { result ≡ public_of self.now }
    {
        self.key.public()
    }

    /// How high its tree is.
    pub fn height(&self) -> Height
        ensures { result ≡ self.now.height }
    {
        self.key.height()
    }

    /// The signature of a message with a leaf, which is spent (RFC 8554 6.2). It takes no memory.
    pub fn sign(&self, leaf: Leaf, message: &[u8]) -> Signature
        requires { leaf.key ≡ self.now }
        ensures octets { result ≡ signature_of self.now leaf.number message.now }
        ensures len { length result ≡ signature_len self.now.height }
    {
        self.key.sign(leaf.number, message)
    }
}

/// A leaf of a register's key. It comes from a slot, and signing spends it: there is no other way to it, and none to a copy.
#[derive(Drop)]
pub struct Leaf {
    number: u32,
    // The register's own snapshot of its key.
    key: Snapshot<Snapshot<SigningKey>>,
}

impl Model for Leaf {
    ghost Value = { LeafState };

    ghost view = { λ leaf. record { number = leaf.number; key = leaf.key.value.value } };

    ghost invariant = { λ leaf. leaf.number < leaf_count leaf.key.value.value.height };
}

/// What a record of a register has for its certificate: a serial, and a leaf to sign with.
#[derive(Drop)]
pub struct Slot {
    serial: u64,
    leaf: Leaf,
}

impl Model for Slot {
    ghost Value = { SlotState };

    ghost view = { λ slot. record { serial = slot.serial; leaf = slot.leaf } };
}

impl Slot {
    /// The slot of a record by its number in the register of a key.
    pub(crate) fn new(serial: u64, number: u32, key: &Snapshot<SigningKey>) -> Slot
        requires { number < leaf_count key.now.value.height }
        ensures { result ≡ record { serial = serial; leaf = record { number = number; key = key.now.value } } }
    {
        Slot {
            serial,
            leaf: Leaf {
                number,
                key: Snapshot::of(key),
            },
        }
    }

    /// The serial of the record.
    pub fn serial(&self) -> u64
        ensures { result ≡ self.now.serial }
    {
        self.serial
    }

    /// The leaf of the record.
    pub fn into_leaf(self) -> Leaf
        ensures { result ≡ self.leaf }
    {
        self.leaf
    }
}
