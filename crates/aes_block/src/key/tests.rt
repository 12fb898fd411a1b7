use super::*;
use crate::round::{add_round_key, last_round as plain_last_round, middle_round as plain_round};

// Key, block and result: FIPS 197, B and C.1; NIST SP 800-38A, F.1.1; and further values that were
// computed by other programs.
const VECTORS: [(u128, u128, u128); 11] = [
    (
        0x000102030405060708090a0b0c0d0e0f,
        0x00112233445566778899aabbccddeeff,
        0x69c4e0d86a7b0430d8cdb78070b4c55a,
    ),
    (
        0x2b7e151628aed2a6abf7158809cf4f3c,
        0x3243f6a8885a308d313198a2e0370734,
        0x3925841d02dc09fbdc118597196a0b32,
    ),
    (
        0x2b7e151628aed2a6abf7158809cf4f3c,
        0x6bc1bee22e409f96e93d7e117393172a,
        0x3ad77bb40d7a3660a89ecaf32466ef97,
    ),
    (
        0x2b7e151628aed2a6abf7158809cf4f3c,
        0xae2d8a571e03ac9c9eb76fac45af8e51,
        0xf5d3d58503b9699de785895a96fdbaaf,
    ),
    (0, 0, 0x66e94bd4ef8a2c3b884cfa59ca342b2e),
    (u128::MAX, 0, 0xa1f6258c877d5fcd8964484538bfc92c),
    (0, u128::MAX, 0x3f5b8cc9ea855a0afa7347d23e8d664e),
    (1 << 127, 1, 0x93e2c5243d6839eac58503919192f7ae),
    (0, 1, 0x58e2fccefa7e3061367f1d57a4e7455a),
    (0, 2, 0x0388dace60b6a392f328c2b971b2fe78),
    (0, 4096, 0x76ae64417c297184d668c5fd908b3ce5),
];

#[test]
fn encrypts_known_blocks(rt: HostRuntime) {
    for (key, block, result) in VECTORS {
        let encrypted = Key::new(key.to_be_bytes()).encrypt(block.to_be_bytes());
        assert!(rt;
            encrypted == result.to_be_bytes(),
            "block {block:032x} under {key:032x}"
        );
    }
}

// FIPS 197, A.1: words 4 to 7, and the last four.
#[test]
fn expands_the_standards_key(rt: HostRuntime) {
    let key = Key::new(0x2b7e151628aed2a6abf7158809cf4f3cu128.to_be_bytes());
    assert!(rt; key.words[4..8] == [0xa0fafe17, 0x88542cb1, 0x23a33939, 0x2a6c7605]);
    assert!(rt; key.words[40..] == [0xd014f9a8, 0xc9ee2589, 0xe13f0cc8, 0xb6630ca6]);
}

// The rounds by tables, and those that are written as the standard writes them.
#[test]
fn tables_do_what_the_plain_rounds_do(rt: HostRuntime) {
    let mut block = [0; 16];
    for n in 0..50u8 {
        let key = [n; 16];
        let plain = encrypt_plainly(key, block);
        let encrypted = Key::new(key).encrypt(block);
        assert!(rt; encrypted == plain);
        block = encrypted;
    }
}

// AES, round after round on bytes.
fn encrypt_plainly(key: [u8; 16], block: [u8; 16]) -> [u8; 16] {
    let words = expand(&key);
    let mut state = add_round_key(block, &words, 0);
    for n in 0..9 {
        let next = plain_round(state, &words, n + 1);
        state = next;
    }
    plain_last_round(state, &words)
}
