//! Verifying signatures (RFC 8554 5.4.2 and 6.3).

ghost use Rattle.std.specs.Prelude.{◌≡◌, ◌+◌, ◌*◌, ◌++◌, ◌<◌, ◌≤◌, ◌↔◌, IsTrue, IfSome, IfNone, length, slice_range};
ghost use Rattle.std.specs.Int.{w32, to_be_bytes};
ghost use Rattle.dv_lmots.specs.Lmots.{HasOtsForm};
ghost use Rattle.dv_lms.specs.declared.height.Height.{Height};
ghost use Rattle.dv_lms.specs.Height.{leaf_count, levels, lms_type, signature_len};
ghost use Rattle.dv_lms.specs.Tree.{leaf_hash};
ghost use Rattle.dv_lms.specs.Verifies.{IsPublicKey, Verifies, ancestor, id_in, leaf_in, ots_in, parent_hash, root_from, root_in, sibling_in};

use crate::height::Height;
use crate::octets::{hash_at, is_number, public_start};
use crate::steps::Steps;
use crate::tree::{leaf_hash, pair_hash};
use byteorder::{BigEndian, ByteOrder};
use std::sync::ledger::Ledger;

/// Whether the signature is one of the message under the public key.
///
/// False for octets of another length or type than a key's or a signature's, for a leaf that the tree
/// hasn't, and where the signature gives another root. Counts one step, whatever it answers.
pub fn verify<L: Ledger>(
    public: &[u8],
    message: &[u8],
    signature: &[u8],
    checks: &mut Steps<L>,
) -> bool
    ensures verifies { IsTrue result ↔ Verifies public.now message.now signature.now }
    ensures step { checks.new ≡ checks.old + 1 }
{
    verify_joined(public, &[], message, signature, checks)
}

/// The same for a message that is in two parts, `rest` behind `front`, so that they needn't be copied together. Counts one
/// step too.
pub fn verify_joined<L: Ledger>(
    public: &[u8],
    front: &[u8],
    rest: &[u8],
    signature: &[u8],
    checks: &mut Steps<L>,
) -> bool
    ensures verifies { IsTrue result ↔ Verifies public.now (front.now ++ rest.now) signature.now }
    ensures step { checks.new ≡ checks.old + 1 }
{
    checks.tick();
    match key_height(public) {
        Some(height) => {
            has_frame(height, signature) && gives_root(height, public, front, rest, signature)
        }
        None => false,
    }
}

// The height for which the octets are a public key.
fn key_height(public: &[u8]) -> Option<Height>
    ensures known { IfSome result (λ height. IsPublicKey height public.now) }
    ensures unknown { IfNone result ((height : Height) → ¬ IsPublicKey height public.now) }
{
    if public.len() != 60 {
        return None;
    }
    let height = Height::from_lms_type(BigEndian::read_u32(&public[4..]))?;
    if &public[..12] == public_start(height).as_slice() {
        Some(height)
    } else {
        None
    }
}

// The leaf that a signature names.
fn leaf_number(signature: &[u8]) -> u32
    requires { 8 ≤ length signature.now }
    ensures { result ≡ leaf_in signature.now }
{
    BigEndian::read_u32(&signature[4..8])
}

// Whether the octets have the form of a signature, but for its one-time signature.
fn has_frame(height: Height, signature: &[u8]) -> bool
    ensures { IsTrue result ↔ (length signature.now ≡ signature_len height)
        × (slice_range signature.now 0 4 ≡ to_be_bytes w32 0)
        × (leaf_in signature.now < leaf_count height)
        × (slice_range signature.now 1132 1136 ≡ to_be_bytes w32 (lms_type height)) }
{
    signature.len() == 1136 + 32 * height.levels() as usize
        && is_number(&signature[..4], 0)
        && leaf_number(signature) < height.leaves()
        && is_number(&signature[1132..1136], height.lms_type())
}

// Whether the signature holds a one-time signature and gives the root of the public key.
fn gives_root(height: Height, public: &[u8], front: &[u8], rest: &[u8], signature: &[u8]) -> bool
    requires key { IsPublicKey height public.now }
    requires len { length signature.now ≡ signature_len height }
    requires leaf { leaf_in signature.now < leaf_count height }
    ensures { IsTrue result ↔ HasOtsForm (ots_in signature.now)
        × (root_from height (id_in public.now) (front.now ++ rest.now) signature.now ≡ root_in public.now) }
{
    let mut id = [0; 16];
    id.copy_from_slice(&public[12..28]);
    let q = leaf_number(signature);
    match dv_lmots::candidate_joined(&id, q, front, rest, &signature[8..1132]) {
        Some(ots_key) => climb(height, &id, q, &ots_key, signature).as_slice() == &public[28..60],
        None => false,
    }
}

// The root to which the siblings in the signature lead from the leaf `q` of this one-time key.
fn climb(height: Height, id: &[u8; 16], q: u32, ots_key: &[u8; 32], signature: &[u8]) -> [u8; 32]
    requires len { length signature.now ≡ signature_len height }
    requires leaf { q < leaf_count height }
    ensures { result ≡ ancestor id.now (sibling_in signature.now) (leaf_count height + q)
        (leaf_hash id.now (leaf_count height + q) ots_key.now) (levels height) }
{
    let r = height.leaves() + q;
    let mut hash = leaf_hash(id, r, ots_key);
    for level in 0..height.levels() {
        let sibling = hash_at(signature, 1136 + 32 * level as usize);
        hash = parent_hash(id, r >> level, &hash, &sibling);
    }
    hash
}

// The parent of the node `r`, which has this hash, and whose sibling has that one.
fn parent_hash(id: &[u8; 16], r: u32, hash: &[u8; 32], sibling: &[u8; 32]) -> [u8; 32]
    ensures { result ≡ parent_hash id.now r hash.now sibling.now }
{
    if r % 2 == 0 {
        pair_hash(id, r / 2, hash, sibling)
    } else {
        pair_hash(id, r / 2, sibling, hash)
    }
}
