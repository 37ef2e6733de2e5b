//! The calls as the definition's plain program: one chain after another, one step after another.

ghost use Rattle.std.specs.Prelude.{◌≡◌, ◌↔◌, ◌∷◌, ◌++◌, [], IsSome, IfSome, length};
ghost use Rattle.dv_lmots.specs.Lmots.{HasOtsForm, candidate_of, key_of, ots_of};

use crate::chain::Chain;
use crate::hashes::{digits, key_hasher, randomizer};
use crate::{CHAINS, SIGNATURE_LEN, signature};
use sha2::Digest;

/// The public key of the leaf `q` (RFC 8554 4.3).
pub fn public_of(id: &[u8; 16], seed: &[u8; 32], q: u32) -> [u8; 32]
    ensures { result ≡ key_of id.now seed.now q }
{
    let mut hasher = key_hasher(id, q);
    for i in 0..CHAINS {
        let mut chain = Chain::at_private_value(id, seed, q, i as u16);
        chain.walk(0, 255);
        hasher.update(&chain.value());
    }
    hasher.finalize()
}

/// The signature of the message at the leaf `q` (RFC 8554 4.5), with the randomizer that the leaf
/// has by its seed.
pub fn sign_ots(id: &[u8; 16], seed: &[u8; 32], q: u32, message: &[u8]) -> [u8; SIGNATURE_LEN]
    ensures { result ≡ ots_of id.now seed.now q message.now }
{
    let c = randomizer(id, seed, q);
    let digits = digits(id, q, &c, &[], message);
    let mut octets = signature::start(&c);
    for i in 0..CHAINS {
        let mut chain = Chain::at_private_value(id, seed, q, i as u16);
        chain.walk(0, digits[i]);
        octets[36 + 32 * i..68 + 32 * i].copy_from_slice(&chain.value());
    }
    octets
}

/// The public key that the signature of the message at the leaf `q` gives (RFC 8554 4.6), and `None`
/// where its length is not 1,124 or its first four octets are not the type 4.
pub fn candidate(id: &[u8; 16], q: u32, message: &[u8], signature: &[u8]) -> Option<[u8; 32]>
    ensures form { IsSome result ↔ HasOtsForm signature.now }
    ensures value { IfSome result (λ key. key ≡ candidate_of id.now q message.now signature.now) }
{
    if !signature::has_form(signature) {
        return None;
    }
    let c = signature::hash_at(signature, 4);
    let digits = digits(id, q, &c, &[], message);
    let mut hasher = key_hasher(id, q);
    for i in 0..CHAINS {
        let value = signature::hash_at(signature, 36 + 32 * i);
        let mut chain = Chain::new(id, q, i as u16, &value);
        chain.walk(digits[i], 255);
        hasher.update(&chain.value());
    }
    Some(hasher.finalize())
}
