use super::*;
use crate::field::times;
use crate::table::HashTable;
use hex::FromHex;
use sha2::{Digest, Sha256};
use std::alloc::{AllocError, Global};
use std::test::Fail;

// Key 00 to 0f and IV 10 to 1b.
const KEY: [u8; 16] = [0, 1, 2, 3, 4, 5, 6, 7, 8, 9, 10, 11, 12, 13, 14, 15];

const IV: [u8; 12] = [16, 17, 18, 19, 20, 21, 22, 23, 24, 25, 26, 27];

// Lengths of the text and of the additional data, and the ciphertext and the tag, as other programs
// give them.
const SHORT: [(usize, usize, &str); 13] = [
    (0, 0, "0ed7259add1011e159d00e61b1925410"),
    (0, 1, "06b65c91443f09bfc23f5a6de68552e2"),
    (0, 16, "eebb4892a889b6b8343e0ff687cf01a3"),
    (1, 0, "c5d057b9d6ca9dca502c2168243c8f27cd"),
    (1, 17, "c5e498129f6b96461b46e32bb5fc87f373"),
    (
        15,
        0,
        "c5260cb9126b9ddd2e9d1abb927b88e59a954ae40fc79177b2ec8e3b742d0d",
    ),
    (
        16,
        0,
        "c5260cb9126b9ddd2e9d1abb927b88543ba3a86fc96a03609f3c540d31fa14cc",
    ),
    (
        16,
        16,
        "c5260cb9126b9ddd2e9d1abb927b8854a59fd12321a605da915bcd3319fb5312",
    ),
    (
        17,
        1,
        "c5260cb9126b9ddd2e9d1abb927b88544bed8093a41e186ff8d08bbdeebd8583fe",
    ),
    (
        31,
        20,
        "c5260cb9126b9ddd2e9d1abb927b88544bc40b01bb60f01d2c7b9eafa2c9c218a71808d3925e50a282f7f860dcffe7",
    ),
    (
        32,
        0,
        "c5260cb9126b9ddd2e9d1abb927b88544bc40b01bb60f01d2c7b9eafa2c9c27744ed4f581d390531d845f38dd5c7649b",
    ),
    (
        33,
        64,
        "c5260cb9126b9ddd2e9d1abb927b88544bc40b01bb60f01d2c7b9eafa2c9c27733c93123f92d8e6869ceb61be5c929c694",
    ),
    (
        100,
        7,
        "c5260cb9126b9ddd2e9d1abb927b88544bc40b01bb60f01d2c7b9eafa2c9c2773331cec97ca2f00efa80f2e6efec1251d8e0ae4d94b7c06ae285ba28223cf5229f90dd72ff73966937807d4eb8bd8f0b47ba8bc83497f5b23408e499755c6eec30886f2e43b648342f8bada5ae1f3eb6fb5a9f48",
    ),
];

// The same, with the SHA-256 of the ciphertext and the tag.
const LONG: [(usize, usize, &str); 3] = [
    (
        1000,
        1000,
        "8d95c1e8aae71e9d494be22e89bd089cd145ff05d7cb3a581f395809dfb86e88",
    ),
    (
        65_536,
        13,
        "8fe64377308132e3497b8234045ea97520df6cb9a7d84b27843e97f803cc00e7",
    ),
    (
        1_048_576,
        0,
        "ff0474ce15a64da2b7621d723e72e066cda7fe873b68b9fce477fd4d62b0073f",
    ),
];

// Bytes that begin with `first` and grow by 7, modulo 256.
fn pattern(alloc: Global, count: usize, first: u8) -> Result<Vec<u8>, AllocError> {
    let mut bytes = Vec::with_capacity(alloc, count)?;
    let mut byte = first;
    for _ in 0..count {
        bytes.push(byte)?;
        byte = byte.wrapping_add(7);
    }
    Ok(bytes)
}

// The patterns of these lengths, sealed.
fn sealed_pattern(alloc: Global, text: usize, aad: usize) -> Result<Vec<u8>, Fail> {
    let plain = pattern(alloc, text, 1)?;
    let data = pattern(alloc, aad, 2)?;
    let mut sealed = Vec::new(alloc);
    seal(
        &GcmKey::new(KEY),
        &IV,
        data.as_slice(),
        plain.as_slice(),
        &mut sealed,
    )?;
    Ok(sealed)
}

#[test]
fn seals_as_other_programs_do(rt: HostRuntime) -> Result<(), Fail> {
    for (text, aad, expected) in SHORT {
        let sealed = sealed_pattern(rt.alloc(), text, aad)?;
        let shown = hex::encode(rt.alloc(), sealed.as_slice())?;
        assert!(rt;
            shown.as_str() == expected,
            "{text} bytes of text, {aad} of additional data"
        );
    }
    for (text, aad, expected) in LONG {
        let sealed = sealed_pattern(rt.alloc(), text, aad)?;
        let digest = hex::encode(rt.alloc(), Sha256::digest(sealed.as_slice()))?;
        assert!(rt;
            digest.as_str() == expected,
            "{text} bytes of text, {aad} of additional data"
        );
    }
    Ok(())
}

// Key, IV, additional data, text, and ciphertext with tag: test cases 1, 2 and 4 of the paper that
// GCM was proposed in, and two more.
const WRITTEN_OUT: [(&str, &str, &str, &str, &str); 5] = [
    (
        "00000000000000000000000000000000",
        "000000000000000000000000",
        "",
        "",
        "58e2fccefa7e3061367f1d57a4e7455a",
    ),
    (
        "00000000000000000000000000000000",
        "000000000000000000000000",
        "",
        "00000000000000000000000000000000",
        "0388dace60b6a392f328c2b971b2fe78ab6e47d42cec13bdf53a67b21257bddf",
    ),
    (
        "feffe9928665731c6d6a8f9467308308",
        "cafebabefacedbaddecaf888",
        "feedfacedeadbeeffeedfacedeadbeefabaddad2",
        "d9313225f88406e5a55909c5aff5269a86a7a9531534f7da2e4c303d8a318a721c3c0c95956809532fcf0e2449a6b525b16aedf5aa0de657ba637b39",
        "42831ec2217774244b7221b784d0d49ce3aa212f2c02a4e035c17e2329aca12e21d514b25466931c7d8f6a5aac84aa051ba30b396a0aac973d58e0915bc94fbc3221a5db94fae95ae7121a47",
    ),
    (
        "00000000000000000000000000000000",
        "000000000000000000000000",
        "2f",
        "61",
        "621a34e856a5b361add2f163a27f030659",
    ),
    (
        "000102030405060708090a0b0c0d0e0f",
        "000102030405060708090a0b",
        "000102030405060708090a0b0c0d0e0f10",
        "000102030405060708090a0b0c0d0e0f101112131415161718191a1b1c1d1e1f20",
        "936da5cd621ef15343db6b813aae7e07a33708f547f8ebe1fe38eb360859bc73a5354b878b09e3e2eb6e6515795f115564",
    ),
];

#[test]
fn seals_the_papers_examples(rt: HostRuntime) -> Result<(), Fail> {
    for (key, iv, aad, plain, expected) in WRITTEN_OUT {
        let key = GcmKey::new(<[u8; 16] as FromHex>::from_hex(key)?);
        let iv = <[u8; 12] as FromHex>::from_hex(iv)?;
        let aad = hex::decode(rt.alloc(), aad)?;
        let plain = hex::decode(rt.alloc(), plain)?;
        let mut sealed = Vec::new(rt.alloc());
        seal(&key, &iv, aad.as_slice(), plain.as_slice(), &mut sealed)?;
        let shown = hex::encode(rt.alloc(), sealed.as_slice())?;
        assert!(rt; shown.as_str() == expected, "{shown}");
    }
    Ok(())
}

#[test]
fn opens_what_was_sealed_and_no_other_tag(rt: HostRuntime) -> Result<(), Fail> {
    let key = GcmKey::new(KEY);
    let data = pattern(rt.alloc(), 17, 2)?;
    let plain = pattern(rt.alloc(), 33, 1)?;
    let sealed = sealed_pattern(rt.alloc(), 33, 17)?;
    let text = sealed.as_slice().get(..33).ok_or("short")?;
    let mut tag = [0; 16];
    for (to, from) in tag.iter_mut().zip(sealed.as_slice().iter().skip(33)) {
        *to = *from;
    }
    let mut opened = Vec::new(rt.alloc());
    let right = unseal(&key, &IV, data.as_slice(), text, &tag, &mut opened)?;
    assert!(rt; right && opened.as_slice() == plain.as_slice());
    tag[15] ^= 1;
    let wrong = unseal(&key, &IV, data.as_slice(), text, &tag, &mut opened)?;
    assert!(rt; !wrong && opened.len() == 33);
    Ok(())
}

// Numbers of 128 bits, each from the one before.
fn next(number: u128) -> u128 {
    number
        .wrapping_mul(0x2360_ed05_1fc6_5da4_4385_df64_9fcc_f645)
        .wrapping_add(1)
}

#[test]
fn the_table_multiplies_as_the_definition_does(rt: HostRuntime) {
    let mut first = 1;
    for _ in 0..20 {
        let second = next(first);
        let product = HashTable::new(second).times(first);
        assert!(rt; product == times(first, second));
        first = next(second);
    }
}

// A text cut at a place, or at its end.
fn parts(text: &[u8], cut: usize) -> (&[u8], &[u8]) {
    text.split_at(cut.min(text.len()))
}

// The patterns of these lengths, sealed in two pieces, with additional data in two pieces.
fn seals_in_pieces_alike(alloc: Global, text: usize, aad: usize, cut: usize) -> Result<bool, Fail> {
    let key = GcmKey::new(KEY);
    let plain = pattern(alloc, text, 1)?;
    let data = pattern(alloc, aad, 2)?;
    let (first, second) = parts(plain.as_slice(), cut);
    let mut pieces = Vec::new(alloc);
    seal_pieces(&key, &IV, data.as_slice(), first, second, &mut pieces)?;
    let (front, back) = parts(data.as_slice(), cut);
    let mut absorbed = Absorbed::new();
    absorbed.absorb(&key, front);
    absorbed.absorb(&key, back);
    let mut behind = Vec::new(alloc);
    seal_absorbed(&key, &IV, &absorbed, plain.as_slice(), &mut behind)?;
    let whole = sealed_pattern(alloc, text, aad)?;
    Ok(pieces.as_slice() == whole.as_slice() && behind.as_slice() == whole.as_slice())
}

#[test]
fn pieces_are_sealed_as_the_whole_is(rt: HostRuntime) -> Result<(), Fail> {
    for cut in [0, 1, 15, 16, 17, 40] {
        for length in [0, 16, 33, 50] {
            let alike = seals_in_pieces_alike(rt.alloc(), length, 50 - length, cut)?;
            assert!(rt; alike, "{length} bytes, cut at {cut}");
        }
    }
    Ok(())
}
