//! The works that are timed, and the compressions that they need.

ghost use Rattle.std.specs.Prelude.{◌≡◌, ◌*◌, ◌<◌, ◌≤◌, IfOk};

use dv_lms::{Height, Key, Steps, verify};
use sha2::{Digest, Sha256};
use std::alloc::{AllocError, Global};
use std::marker::Brand;
use std::sync::ledger::{Blank, Ledger};

const ID: [u8; 16] = [3; 16];

const SEED: [u8; 32] = [5; 32];

const LEAF: u32 = 17;

// As many octets as are signed of a certificate.
const MESSAGE: [u8; 137] = [9; 137];

/// A work that is timed.
#[derive(Clone, Copy)]
pub enum Work {
    PlainOneTimeKey,
    PlainOneTimeSignature,
    PlainCandidate,
    OneTimeKey,
    OneTimeSignature,
    Candidate,
    Key,
    Signature,
    Verification,
}

/// All works, in the order of a round.
pub const WORKS: [Work; 9] = [
    Work::PlainOneTimeKey,
    Work::PlainOneTimeSignature,
    Work::PlainCandidate,
    Work::OneTimeKey,
    Work::OneTimeSignature,
    Work::Candidate,
    Work::Key,
    Work::Signature,
    Work::Verification,
];

impl Work {
    pub fn name(self) -> &'static str {
        match self {
            Work::PlainOneTimeKey => "plain-one-time-key",
            Work::PlainOneTimeSignature => "plain-one-time-signature",
            Work::PlainCandidate => "plain-candidate",
            Work::OneTimeKey => "one-time-key",
            Work::OneTimeSignature => "one-time-signature",
            Work::Candidate => "candidate",
            Work::Key => "key-of-32-leaves",
            Work::Signature => "signature",
            Work::Verification => "verification",
        }
    }
}

// The compressions of a one-time key: 34 private values with 255 steps each, and a hash of 1,110
// octets.
const OF_ONE_TIME_KEY: u64 = 34 * 256 + 18;

// The compressions of the hash of `MESSAGE` for a leaf.
const OF_MESSAGE: u64 = 4;

/// A key, and its signature of `MESSAGE` with `LEAF`.
#[derive(Drop)]
pub struct Bench {
    key: Key,
    public: [u8; 60],
    signature: [u8; 1296],
}

impl Bench {
    pub fn new(alloc: Global) -> Result<Bench, AllocError> {
        let key = key_of_seed(alloc)?;
        let public = key.public();
        let mut signature = [0; 1296];
        signature.copy_from_slice(key.sign(LEAF, &MESSAGE).as_slice());
        Ok(Bench {
            key,
            public,
            signature,
        })
    }

    /// Does the work once, and gives an octet of what it made.
    pub fn run(&self, work: Work) -> u8 {
        let ots = &self.signature[8..1132];
        match work {
            Work::PlainOneTimeKey => dv_lmots::plain::public_of(&ID, &SEED, LEAF)[0],
            Work::PlainOneTimeSignature => {
                dv_lmots::plain::sign_ots(&ID, &SEED, LEAF, &MESSAGE)[100]
            }
            Work::PlainCandidate => {
                first_octet(dv_lmots::plain::candidate(&ID, LEAF, &MESSAGE, ots))
            }
            Work::OneTimeKey => dv_lmots::public_of(&ID, &SEED, LEAF)[0],
            Work::OneTimeSignature => dv_lmots::sign_ots(&ID, &SEED, LEAF, &MESSAGE)[100],
            Work::Candidate => first_octet(dv_lmots::candidate(&ID, LEAF, &MESSAGE, ots)),
            Work::Key => self.key.public()[28],
            Work::Signature => last_octet(self.key.sign(LEAF, &MESSAGE).as_slice()),
            Work::Verification => { verifies(&self.public, &MESSAGE, &self.signature) as u8 }
        }
    }

    /// The compressions that the formulas need for the work.
    pub fn compressions(&self, work: Work) -> u64 {
        let steps = self.steps();
        let signature = 34 + steps + 1 + OF_MESSAGE;
        let candidate = 34 * 255 - steps + OF_MESSAGE + 18;
        match work {
            Work::PlainOneTimeKey | Work::OneTimeKey => OF_ONE_TIME_KEY,
            Work::PlainOneTimeSignature | Work::OneTimeSignature => signature,
            Work::PlainCandidate | Work::Candidate => candidate,
            Work::Key => 32 * (OF_ONE_TIME_KEY + 1) + 31 * 2,
            Work::Signature => signature + 31 * (OF_ONE_TIME_KEY + 1) + 26 * 2,
            Work::Verification => candidate + 1 + 5 * 2,
        }
    }

    // How many steps the chains of the signature take: its digits, added up.
    fn steps(&self) -> u64
        ensures { result ≤ 34 * 255 }
    {
        let mut hasher = Sha256::new();
        hasher.update(&ID);
        hasher.update(&LEAF.to_be_bytes());
        hasher.update(&[0x81, 0x81]);
        hasher.update(&self.signature[12..44]);
        hasher.update(&MESSAGE);
        let mut sum = 0u16;
        let mut checksum = 0u16;
        for digit in hasher.finalize() {
            sum += digit as u16;
            checksum += 255 - digit as u16;
        }
        let [high, low] = checksum.to_be_bytes();
        sum as u64 + high as u64 + low as u64
    }
}

fn key_of_seed(alloc: Global) -> Result<Key, AllocError>
    ensures { IfOk result (λ key. key.height ≡ Height.H5) }
{
    Key::from_seed(alloc, Height::H5, ID, SEED)
}

fn first_octet(key: Option<[u8; 32]>) -> u8 {
    match key {
        Some(octets) => octets[0],
        None => 0,
    }
}

fn last_octet(octets: &[u8]) -> u8 {
    octets.last().copied().unwrap_or(0)
}

fn counted<L: Ledger>(public: &[u8], message: &[u8], signature: &[u8], blank: Blank) -> bool
    requires name { blank.name ≡ L.name }
    requires parts { blank.parts ≡ L.parts }
    requires some { 0 < blank.parts }
{
    verify(public, message, signature, &mut Steps::<L>::new(blank))
}

fn verifies(public: &[u8], message: &[u8], signature: &[u8]) -> bool {
    counted::<Brand>(public, message, signature, Blank::new(1))
}
