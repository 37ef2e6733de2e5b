//! The hashes of nodes (RFC 8554 5.3).

ghost use Rattle.std.specs.Prelude.{◌≡◌, ◌^◌, ◌<◌, ◌≤◌, ◌++◌};
ghost use Rattle.sha2.specs.Hashers.{Holds256};
ghost use Rattle.dv_lmots.specs.Lmots.{id_and_number};
ghost use Rattle.dv_lms.specs.Tree.{leaf_hash, pair_hash, sibling};

use sha2::{Digest, Sha256};

// What keeps the hashes of leaves and of the nodes above them apart from others (RFC 8554 7.1).
const D_LEAF: [u8; 2] = [0x82, 0x82];

const D_INTR: [u8; 2] = [0x83, 0x83];

// A hasher of the identifier, the number of a node, and the mark.
fn node_hasher(id: &[u8; 16], r: u32, mark: &[u8; 2]) -> Sha256
    ensures { Holds256 result (id_and_number id.now r ++ mark.now) }
{
    let mut hasher = Sha256::new();
    hasher.update(id);
    hasher.update(&r.to_be_bytes());
    hasher.update(mark);
    hasher
}

/// The node `r` where it is the leaf of this one-time key.
pub(crate) fn leaf_hash(id: &[u8; 16], r: u32, ots_key: &[u8; 32]) -> [u8; 32]
    ensures { result ≡ leaf_hash id.now r ots_key.now }
{
    let mut hasher = node_hasher(id, r, &D_LEAF);
    hasher.update(ots_key);
    hasher.finalize()
}

/// The node `r` over its two children.
pub(crate) fn pair_hash(id: &[u8; 16], r: u32, left: &[u8; 32], right: &[u8; 32]) -> [u8; 32]
    ensures { result ≡ pair_hash id.now r left.now right.now }
{
    let mut hasher = node_hasher(id, r, &D_INTR);
    hasher.update(left);
    hasher.update(right);
    hasher.finalize()
}

/// The other child of the parent of the node `r`.
pub(crate) fn sibling(r: u32) -> u32
    requires low { 1 ≤ r }
    requires high { r < 2 ^ 31 }
    ensures { result ≡ sibling r }
{
    if r % 2 == 0 { r + 1 } else { r - 1 }
}
