// Four messages of one block each, and the words of their digests by another implementation of
// SHA-256 (Python's hashlib).

ghost use Rattle.std.specs.Prelude.{◌≤◌, length};

use crate::{compress, initial};
use std::simd::u32x4;

const MESSAGES: [&[u8]; 4] = [
    b"",
    b"abc",
    b"four blocks at once",
    b"xxxxxxxxxxxxxxxxxxxxxxxxxxxxxxxxxxxxxxxxxxxxxxxxxxxxxxx",
];

const DIGESTS: [[u32; 8]; 4] = [
    [
        0xe3b0_c442,
        0x98fc_1c14,
        0x9afb_f4c8,
        0x996f_b924,
        0x27ae_41e4,
        0x649b_934c,
        0xa495_991b,
        0x7852_b855,
    ],
    [
        0xba78_16bf,
        0x8f01_cfea,
        0x4141_40de,
        0x5dae_2223,
        0xb003_61a3,
        0x9617_7a9c,
        0xb410_ff61,
        0xf200_15ad,
    ],
    [
        0xabbd_8c33,
        0xb256_d65a,
        0x4716_b817,
        0x41b8_2504,
        0x83e9_6c3c,
        0xbd27_136e,
        0xe669_0f51,
        0xd072_b933,
    ],
    [
        0xd5e2_8568,
        0x3cd4_efc0,
        0x2d02_1a5c,
        0x6201_4694,
        0x9589_0100,
        0x5d6f_71e8,
        0x9e09_89fa,
        0xc77e_4072,
    ],
];

// The words of a message and its padding.
fn block(message: &[u8]) -> [u32; 16]
    requires { length message.now ≤ 55 }
{
    let mut octets = [0; 64];
    octets[..message.len()].copy_from_slice(message);
    octets[message.len()] = 0x80;
    octets[62..].copy_from_slice(&(message.len() as u16 * 8).to_be_bytes());
    let mut words = [0; 16];
    for k in 0..16 {
        words[k] = u32::from_be_bytes([
            octets[4 * k],
            octets[4 * k + 1],
            octets[4 * k + 2],
            octets[4 * k + 3],
        ]);
    }
    words
}

#[test]
fn each_lane_has_its_own_digest(rt: HostRuntime) {
    let blocks = [
        block(MESSAGES[0]),
        block(MESSAGES[1]),
        block(MESSAGES[2]),
        block(MESSAGES[3]),
    ];
    let mut words = [u32x4::splat(0); 16];
    for k in 0..16 {
        words[k] = u32x4::from_array([blocks[0][k], blocks[1][k], blocks[2][k], blocks[3][k]]);
    }
    let state = compress(initial(), words);
    for k in 0..8 {
        let lanes = state[k].to_array();
        for lane in 0..4 {
            assert_eq!(rt; lanes[lane], DIGESTS[lane][k], "word {k} of lane {lane}");
        }
    }
}
