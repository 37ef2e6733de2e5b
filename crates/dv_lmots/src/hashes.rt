//! What a leaf hashes beside its chains: the message that is signed and the public key.

ghost use Rattle.std.specs.Prelude.{◌≡◌, ◌++◌, [], ◌∷◌, slice_index_or};
ghost use Rattle.sha2.specs.Hashers.{Holds256};
ghost use Rattle.dv_lmots.specs.Lmots.{checksum, digits, id_and_number, key_from, message_hash, randomizer};

use crate::CHAINS;
use crate::chain::Chain;
use byteorder::{BigEndian, ByteOrder};
use sha2::{Digest, Sha256};

// What keeps the hashes of public keys and of messages apart from others (RFC 8554 7.1).
const D_PBLC: [u8; 2] = [0x80, 0x80];

const D_MESG: [u8; 2] = [0x81, 0x81];

// The place whose private value is the randomizer. No chain has it.
const RANDOMIZER_PLACE: u16 = 0xfffd;

/// The randomizer of the leaf `q`.
pub(crate) fn randomizer(id: &[u8; 16], seed: &[u8; 32], q: u32) -> [u8; 32]
    ensures { result ≡ randomizer id.now seed.now q }
{
    Chain::at_private_value(id, seed, q, RANDOMIZER_PLACE).value()
}

// A hasher of what the messages of the leaf `q` begin with, and then the mark.
fn leaf_hasher(id: &[u8; 16], q: u32, mark: &[u8; 2]) -> Sha256
    ensures { Holds256 result (id_and_number id.now q ++ mark.now) }
{
    let mut hasher = Sha256::new();
    hasher.update(id);
    hasher.update(&q.to_be_bytes());
    hasher.update(mark);
    hasher
}

/// A hasher of what the public key of the leaf `q` is the hash of, up to the ends of the chains.
pub(crate) fn key_hasher(id: &[u8; 16], q: u32) -> Sha256
    ensures { Holds256 result (id_and_number id.now q ++ 0x80 ∷ 0x80 ∷ []) }
{
    leaf_hasher(id, q, &D_PBLC)
}

/// The public key of the leaf `q` whose chains end so.
pub(crate) fn key_from(id: &[u8; 16], q: u32, ends: &[[u8; 32]; CHAINS]) -> [u8; 32]
    ensures { result ≡ key_from id.now q (λ i. slice_index_or ends.now i []) }
{
    let mut hasher = key_hasher(id, q);
    for end in ends {
        hasher.update(end);
    }
    hasher.finalize()
}

// The hash of the message under the randomizer `c` (RFC 8554 4.5). The message is in two parts, one behind the other.
fn message_hash(id: &[u8; 16], q: u32, c: &[u8; 32], front: &[u8], rest: &[u8]) -> [u8; 32]
    ensures { result ≡ message_hash id.now q c.now (front.now ++ rest.now) }
{
    let mut hasher = leaf_hasher(id, q, &D_MESG);
    hasher.update(c);
    hasher.update(front);
    hasher.update(rest);
    hasher.finalize()
}

// What the octets of a hash lack to 255, added up (RFC 8554 4.4).
fn checksum(hash: &[u8; 32]) -> u16
    ensures { result ≡ checksum hash.now }
{
    let mut sum = 0;
    for digit in hash {
        sum += 255 - *digit as u16;
    }
    sum
}

/// The digits of the message under the randomizer `c`: the octets of its hash and of the checksum. The message is in two
/// parts, one behind the other.
pub(crate) fn digits(id: &[u8; 16], q: u32, c: &[u8; 32], front: &[u8], rest: &[u8]) -> [u8; CHAINS]
    ensures { result ≡ digits id.now q c.now (front.now ++ rest.now) }
{
    let hash = message_hash(id, q, c, front, rest);
    let mut digits = [0; CHAINS];
    digits[..32].copy_from_slice(&hash);
    BigEndian::write_u16(&mut digits[32..], checksum(&hash));
    digits
}
