//! Keys, and what they sign.

ghost use Rattle.std.specs.Prelude.{◌≡◌, ℕ, ◌+◌, ◌-◌, ◌*◌, ◌^◌, ◌<◌, ◌≤◌, [], IfOk, length, slice_index_or, take};
ghost use Rattle.dv_lms.specs.Height.{leaf_count, levels, signature_len};
ghost use Rattle.dv_lms.specs.Signed.{public_of, signature_of, signature_start};
ghost use Rattle.dv_lms.specs.Tree.{node, path_node};
ghost use Rattle.dv_lms.specs.Verifies.{Verifies};

use crate::height::Height;
use crate::octets::public_start;
use crate::signature::{SIGNATURE_LEN, Signature};
use crate::tree::{leaf_hash, pair_hash, sibling};
use byteorder::{BigEndian, ByteOrder};
use std::alloc::{AllocError, Global};
use std::marker::Model;

// The most leaves that a tree has.
const MAX_LEAVES: usize = 32;

/// A signing key: the height of its tree, the tree's identifier, and the seed of all its one-time
/// keys. The seed can't be taken out.
#[derive(Drop)]
pub struct Key {
    height: Height,
    id: [u8; 16],
    seed: [u8; 32],
}

impl Model for Key {
    ghost use Rattle.dv_lms.specs.Identity.{Identity};

    ghost Value = { Identity };

    ghost view = { λ key. record { height = key.height; id = key.id; seed = key.seed } };
}

impl Key {
    /// The key of this height, identifier and seed.
    ///
    /// It keeps no nodes of its tree, so no memory is taken: an `Err` would be want of it.
    pub fn from_seed(
        _alloc: Global,
        height: Height,
        id: [u8; 16],
        seed: [u8; 32],
    ) -> Result<Key, AllocError>
        ensures { IfOk result (λ key. key ≡ record { height = height; id = id; seed = seed }) }
    {
        Ok(Key { height, id, seed })
    }

    /// The height of the key's tree.
    pub fn height(&self) -> Height
        ensures { result ≡ self.now.height }
    {
        self.height
    }

    /// The public key, 60 octets (RFC 8554 6.1).
    pub fn public(&self) -> [u8; 60]
        ensures { result ≡ public_of self.now }
    {
        let mut octets = [0; 60];
        octets[..12].copy_from_slice(&public_start(self.height));
        octets[12..28].copy_from_slice(&self.id);
        octets[28..].copy_from_slice(&self.node(self.height.levels(), 1));
        octets
    }

    /// The signature of the message with the leaf `q` (RFC 8554 6.2). A leaf may sign one message
    /// only, which its caller sees to.
    pub fn sign(&self, q: u32, message: &[u8]) -> Signature
        requires { q < leaf_count self.now.height }
        ensures octets { result ≡ signature_of self.now q message.now }
        ensures len { length result ≡ signature_len self.now.height }
    {
        let ots = dv_lmots::sign_ots(&self.id, &self.seed, q, message);
        let mut octets = self.signature_start(q, &ots);
        for level in 0..self.height.levels() {
            let at = 1136 + 32 * level as usize;
            octets[at..at + 32].copy_from_slice(&self.path_node(q, level));
        }
        Signature::new(octets)
    }

    // The octets of a signature with the leaf `q`, whose path is still to be written.
    fn signature_start(&self, q: u32, ots: &[u8; dv_lmots::SIGNATURE_LEN]) -> [u8; SIGNATURE_LEN]
        ensures { take 1136 result ≡ signature_start self.now.height q ots.now }
    {
        let mut octets = [0; SIGNATURE_LEN];
        BigEndian::write_u32(&mut octets[4..8], q);
        octets[8..1132].copy_from_slice(ots);
        BigEndian::write_u32(&mut octets[1132..1136], self.height.lms_type());
        octets
    }

    // The sibling that stands `level` levels above the leaf `q`.
    fn path_node(&self, q: u32, level: u32) -> [u8; 32]
        requires leaf { q < leaf_count self.now.height }
        requires level { level < levels self.now.height }
        ensures { result ≡ path_node self.now q level }
    {
        self.node(level, sibling((self.height.leaves() + q) >> level))
    }

    // The node `r`, which stands `depth` levels above the leaves.
    fn node(&self, depth: u32, r: u32) -> [u8; 32]
        requires depth { depth ≤ levels self.now.height }
        requires low { leaf_count self.now.height ≤ r * 2 ^ depth }
        requires high { (r + 1) * 2 ^ depth ≤ 2 * leaf_count self.now.height }
        ensures { result ≡ node self.now depth r }
    {
        let mut row = self.leaves(r << depth, 1 << depth);
        for above in (0..depth).rev() {
            self.raise(&mut row, r << above, 1 << above);
        }
        row[0]
    }

    // The leaves from the node `first` on.
    fn leaves(&self, first: u32, count: u32) -> [[u8; 32]; MAX_LEAVES]
        requires low { leaf_count self.now.height ≤ first }
        requires high { first + count ≤ 2 * leaf_count self.now.height }
        ensures { (k : ℕ) → k < count → slice_index_or result k [] ≡ node self.now 0 (first + k) }
    {
        let mut row = [[0; 32]; MAX_LEAVES];
        for k in 0..count {
            let r = first + k;
            let ots_key = dv_lmots::public_of(&self.id, &self.seed, r - self.height.leaves());
            row[k as usize] = leaf_hash(&self.id, r, &ots_key);
        }
        row
    }

    // One level up: the nodes from `first` on take the places of their children.
    fn raise(&self, row: &mut [[u8; 32]; MAX_LEAVES], first: u32, count: u32)
        requires count { 2 * count ≤ 32 }
        requires last { first + count ≤ 64 }
        ensures { (d : ℕ)
            → ((k : ℕ) → k < 2 * count → slice_index_or row.old k [] ≡ node self.now d (2 * first + k))
            → (k : ℕ) → k < count → slice_index_or row.new k [] ≡ node self.now (d + 1) (first + k) }
    {
        for k in 0..count {
            let at = 2 * k as usize;
            row[k as usize] = pair_hash(&self.id, first + k, &row[at], &row[at + 1]);
        }
    }
}

/// What a key signs verifies under its public octets.
///
/// The contract is the law, and the call does nothing.
pub fn signed_verifies(key: &Key, q: u32, message: &[u8])
    requires { q < leaf_count key.now.height }
    ensures { Verifies (public_of key.now) message.now (signature_of key.now q message.now) }
{
    dv_lmots::signature_gives_key(&key.id, &key.seed, q, message);
}
