//! One chain of a one-time key (RFC 8554 4.3), walked in place.

ghost use Rattle.std.specs.Prelude.{◌≡◌, ℕ, ◌-◌, ◌≤◌, take, drop};
ghost use Rattle.dv_lmots.specs.Lmots.{chain_prefix, chain_step, chain_steps, private_value};

use byteorder::{BigEndian, ByteOrder};
use sha2::{Digest, Sha256};
use std::marker::Model;

/// The octets that a step hashes before the value: I, the leaf, the place and the step's number.
const VALUE_AT: usize = 23;

/// A chain at one of its values. It holds the message that the next step hashes, 55 octets, which
/// are one block of SHA-256 with their padding: a step changes its own number and the value there.
#[derive(Drop)]
pub(crate) struct Chain {
    message: [u8; 55],
}

impl Model for Chain {
    ghost use Rattle.std.specs.Prelude.{take, drop};
    ghost use Rattle.dv_lmots.specs.Walk.{Walk};

    ghost Value = { Walk };

    ghost view = { λ c. record { prefix = take 22 c.message; value = drop 23 c.message } };
}

impl Chain {
    /// The chain at place `i` of the leaf `q`, at this value.
    pub(crate) fn new(id: &[u8; 16], q: u32, i: u16, value: &[u8; 32]) -> Chain
        ensures { result ≡ record { prefix = chain_prefix id.now q i; value = value.now } }
    {
        let mut message = [0; 55];
        message[..16].copy_from_slice(id);
        BigEndian::write_u32(&mut message[16..], q);
        BigEndian::write_u16(&mut message[20..], i);
        message[VALUE_AT..].copy_from_slice(value);
        Chain { message }
    }

    /// The chain at place `i` of the leaf `q`, at its private value.
    pub(crate) fn at_private_value(id: &[u8; 16], seed: &[u8; 32], q: u32, i: u16) -> Chain
        ensures { result ≡ record { prefix = chain_prefix id.now q i; value = private_value id.now seed.now q i } }
    {
        let mut chain = Chain::new(id, q, i, seed);
        chain.step(255);
        chain
    }

    /// Makes the step at `j`.
    fn step(&mut self, j: u8)
        ensures { self.new ≡ record self.old { value = chain_step self.old.prefix j self.old.value } }
    {
        self.message[VALUE_AT - 1] = j;
        let next = Sha256::digest(&self.message);
        self.message[VALUE_AT..].copy_from_slice(&next);
    }

    /// Makes the steps from `from` up to `to`.
    pub(crate) fn walk(&mut self, from: u8, to: u8)
        requires { from ≤ to }
        ensures { self.new ≡ record self.old { value = chain_steps self.old.prefix self.old.value from (to - from) } }
    {
        for j in from..to {
            self.step(j);
        }
    }

    /// The value that the chain has come to.
    pub(crate) fn value(&self) -> [u8; 32]
        ensures { result ≡ self.now.value }
    {
        let mut value = [0; 32];
        value.copy_from_slice(&self.message[VALUE_AT..]);
        value
    }
}
