//! The key expansion (FIPS 197, section 5.2).

ghost use Rattle.std.specs.Prelude.{◌≡◌, ◌<◌, ◌≤◌, ℕ, slice_index};
ghost use Rattle.std.specs.Int.{from_be_bytes, to_be_bytes, w32};
ghost use Rattle.aes_block.specs.Aes.{expanded, next_word, x_to};
ghost use Rattle.aes_block.specs.Columns.{word_bytes, words_of};

use crate::sbox::substitute;

const ROUND_CONSTANTS: [u8; 10] = [0x01, 0x02, 0x04, 0x08, 0x10, 0x20, 0x40, 0x80, 0x1b, 0x36];

// The round constant of round n + 1: x to the power n, in the field.
fn round_constant(n: usize) -> u8
    requires { n < 10 }
    ensures { result ≡ x_to n }
{
    ROUND_CONSTANTS[n]
}

// Word `i` from the words before it; byte j of word i is byte 4 i + j of `words`.
fn next_word(words: &[u8; 176], i: usize) -> [u8; 4]
    requires low { 4 ≤ i }
    requires high { i < 44 }
    ensures { result ≡ next_word words.now i }
{
    let before = 4 * (i - 1);
    let older = 4 * (i - 4);
    if i % 4 == 0 {
        [
            words[older] ^ (substitute(words[before + 1]) ^ round_constant(i / 4 - 1)),
            words[older + 1] ^ substitute(words[before + 2]),
            words[older + 2] ^ substitute(words[before + 3]),
            words[older + 3] ^ substitute(words[before]),
        ]
    } else {
        [
            words[older] ^ words[before],
            words[older + 1] ^ words[before + 1],
            words[older + 2] ^ words[before + 2],
            words[older + 3] ^ words[before + 3],
        ]
    }
}

/// The 44 words of a key, as 176 bytes.
pub(crate) fn expand(key: &[u8; 16]) -> [u8; 176]
    ensures { result ≡ expanded key.now 40 }
{
    let mut words = [0; 176];
    words[..16].copy_from_slice(key);
    for i in 4..44 {
        let word = next_word(&words, i);
        words[4 * i..4 * i + 4].copy_from_slice(&word);
    }
    words
}

// Word `i` of 44 words.
fn word(bytes: &[u8; 176], i: usize) -> u32
    requires { i < 44 }
    ensures of { result ≡ from_be_bytes w32 (word_bytes bytes.now i) }
    ensures back { to_be_bytes w32 result ≡ word_bytes bytes.now i }
{
    u32::from_be_bytes([
        bytes[4 * i],
        bytes[4 * i + 1],
        bytes[4 * i + 2],
        bytes[4 * i + 3],
    ])
}

/// The 44 words from their bytes.
pub(crate) fn words(bytes: &[u8; 176]) -> [u32; 44]
    ensures of { result ≡ words_of bytes.now 44 }
    ensures back { (i : ℕ) → i < 44 → to_be_bytes w32 (slice_index result i) ≡ word_bytes bytes.now i }
{
    let mut words = [0; 44];
    for i in 0..44 {
        words[i] = word(bytes, i);
    }
    words
}
