//! The calls with the chains walked four at a time. They have the clauses of the plain ones.

ghost use Rattle.std.specs.Prelude.{◌≡◌, ◌↔◌, ℕ, [], ◌+◌, ◌*◌, ◌++◌, ◌<◌, IsSome, IfSome, length, slice_index_or};
ghost use Rattle.dv_lmots.specs.Lmots.{HasOtsForm, candidate_of, key_of, ots_of, private_value, value_in};

use crate::chain::Chain;
use crate::chains::walk_all;
use crate::hashes::{digits, key_from, randomizer};
use crate::{CHAINS, SIGNATURE_LEN, signature};

/// The public key of the leaf `q` (RFC 8554 4.3).
pub fn public_of(id: &[u8; 16], seed: &[u8; 32], q: u32) -> [u8; 32]
    ensures { result ≡ key_of id.now seed.now q }
{
    let start = private_values(id, seed, q);
    let ends = walk_all(id, q, &start, &[0; CHAINS], &[255; CHAINS]);
    key_from(id, q, &ends)
}

/// The signature of the message at the leaf `q` (RFC 8554 4.5), with the randomizer that the leaf
/// has by its seed.
pub fn sign_ots(id: &[u8; 16], seed: &[u8; 32], q: u32, message: &[u8]) -> [u8; SIGNATURE_LEN]
    ensures { result ≡ ots_of id.now seed.now q message.now }
{
    let c = randomizer(id, seed, q);
    let digits = digits(id, q, &c, &[], message);
    let start = private_values(id, seed, q);
    let ends = walk_all(id, q, &start, &[0; CHAINS], &digits);
    let mut octets = signature::start(&c);
    for i in 0..CHAINS {
        octets[36 + 32 * i..68 + 32 * i].copy_from_slice(&ends[i]);
    }
    octets
}

/// The public key that the signature of the message at the leaf `q` gives (RFC 8554 4.6), and `None`
/// where its length is not 1,124 or its first four octets are not the type 4.
pub fn candidate(id: &[u8; 16], q: u32, message: &[u8], signature: &[u8]) -> Option<[u8; 32]>
    ensures form { IsSome result ↔ HasOtsForm signature.now }
    ensures value { IfSome result (λ key. key ≡ candidate_of id.now q message.now signature.now) }
{
    candidate_joined(id, q, &[], message, signature)
}

/// The same for a message that is in two parts, `rest` behind `front`, so that they needn't be copied together.
pub fn candidate_joined(
    id: &[u8; 16],
    q: u32,
    front: &[u8],
    rest: &[u8],
    signature: &[u8],
) -> Option<[u8; 32]>
    ensures form { IsSome result ↔ HasOtsForm signature.now }
    ensures value { IfSome result (λ key. key ≡ candidate_of id.now q (front.now ++ rest.now) signature.now) }
{
    if !signature::has_form(signature) {
        return None;
    }
    let c = signature::hash_at(signature, 4);
    let digits = digits(id, q, &c, front, rest);
    let ends = walk_all(id, q, &signed_values(signature), &digits, &[255; CHAINS]);
    Some(key_from(id, q, &ends))
}

// Where the chains of the leaf `q` begin.
fn private_values(id: &[u8; 16], seed: &[u8; 32], q: u32) -> [[u8; 32]; CHAINS]
    ensures { (i : ℕ) → i < 34 → slice_index_or result i [] ≡ private_value id.now seed.now q i }
{
    let mut values = [[0; 32]; CHAINS];
    for i in 0..CHAINS {
        values[i] = Chain::at_private_value(id, seed, q, i as u16).value();
    }
    values
}

// The values of a signature.
fn signed_values(signature: &[u8]) -> [[u8; 32]; CHAINS]
    requires { length signature.now ≡ 1124 }
    ensures { (i : ℕ) → i < 34 → slice_index_or result i [] ≡ value_in signature.now i }
{
    let mut values = [[0; 32]; CHAINS];
    for i in 0..CHAINS {
        values[i] = signature::hash_at(signature, 36 + 32 * i);
    }
    values
}
