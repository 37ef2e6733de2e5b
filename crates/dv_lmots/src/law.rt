//! The law that ties signing to the public key.

ghost use Rattle.std.specs.Prelude.{◌≡◌};
ghost use Rattle.dv_lmots.specs.Lmots.{HasOtsForm, candidate_of, key_of, ots_of};

/// A leaf's own signature of a message has a signature's form, and the public key that it gives is
/// the leaf's.
///
/// The contract is the law, and the call does nothing.
pub fn signature_gives_key(id: &[u8; 16], seed: &[u8; 32], q: u32, message: &[u8])
    ensures form { HasOtsForm (ots_of id.now seed.now q message.now) }
    ensures key { candidate_of id.now q message.now (ots_of id.now seed.now q message.now) ≡ key_of id.now seed.now q }
{}
