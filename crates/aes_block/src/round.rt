//! The steps of a round (FIPS 197, section 5.1), on the state as its 16 bytes, column after column.

ghost use Rattle.std.specs.Prelude.{◌≡◌, ◌≤◌};
ghost use Rattle.aes_block.specs.Aes.{add_round_key, mix_columns, mixed, round_key, shift_rows, sub_bytes};

use crate::field::{double, triple};
use crate::sbox::substitute;

// One byte of MixColumns: the sum of four bytes of a column with the factors 02, 03, 01 and 01.
fn mix(a: u8, b: u8, c: u8, d: u8) -> u8
    ensures { result ≡ mixed a b c d }
{
    double(a) ^ triple(b) ^ c ^ d
}

/// MixColumns.
pub(crate) fn mix_columns(state: [u8; 16]) -> [u8; 16]
    ensures { result ≡ mix_columns state }
{
    [
        mix(state[0], state[1], state[2], state[3]),
        mix(state[1], state[2], state[3], state[0]),
        mix(state[2], state[3], state[0], state[1]),
        mix(state[3], state[0], state[1], state[2]),
        mix(state[4], state[5], state[6], state[7]),
        mix(state[5], state[6], state[7], state[4]),
        mix(state[6], state[7], state[4], state[5]),
        mix(state[7], state[4], state[5], state[6]),
        mix(state[8], state[9], state[10], state[11]),
        mix(state[9], state[10], state[11], state[8]),
        mix(state[10], state[11], state[8], state[9]),
        mix(state[11], state[8], state[9], state[10]),
        mix(state[12], state[13], state[14], state[15]),
        mix(state[13], state[14], state[15], state[12]),
        mix(state[14], state[15], state[12], state[13]),
        mix(state[15], state[12], state[13], state[14]),
    ]
}

/// SubBytes and ShiftRows in one step.
pub(crate) fn substitute_and_shift(state: [u8; 16]) -> [u8; 16]
    ensures { result ≡ shift_rows (sub_bytes state) }
{
    [
        substitute(state[0]),
        substitute(state[5]),
        substitute(state[10]),
        substitute(state[15]),
        substitute(state[4]),
        substitute(state[9]),
        substitute(state[14]),
        substitute(state[3]),
        substitute(state[8]),
        substitute(state[13]),
        substitute(state[2]),
        substitute(state[7]),
        substitute(state[12]),
        substitute(state[1]),
        substitute(state[6]),
        substitute(state[11]),
    ]
}

/// AddRoundKey with the key of round `n`, of the 44 words as 176 bytes.
pub(crate) fn add_round_key(state: [u8; 16], words: &[u8; 176], n: usize) -> [u8; 16]
    requires { n ≤ 10 }
    ensures { result ≡ add_round_key state (round_key words.now n) }
{
    let key = &words[16 * n..16 * n + 16];
    [
        state[0] ^ key[0],
        state[1] ^ key[1],
        state[2] ^ key[2],
        state[3] ^ key[3],
        state[4] ^ key[4],
        state[5] ^ key[5],
        state[6] ^ key[6],
        state[7] ^ key[7],
        state[8] ^ key[8],
        state[9] ^ key[9],
        state[10] ^ key[10],
        state[11] ^ key[11],
        state[12] ^ key[12],
        state[13] ^ key[13],
        state[14] ^ key[14],
        state[15] ^ key[15],
    ]
}

/// A round before the last, with the key of round `n`.
pub(crate) fn middle_round(state: [u8; 16], words: &[u8; 176], n: usize) -> [u8; 16]
    requires { n ≤ 10 }
    ensures { let mixed = mix_columns (shift_rows (sub_bytes state)) in
        result ≡ add_round_key mixed (round_key words.now n) }
{
    let mixed = mix_columns(substitute_and_shift(state));
    add_round_key(mixed, words, n)
}

/// The last round, which has no MixColumns.
pub(crate) fn last_round(state: [u8; 16], words: &[u8; 176]) -> [u8; 16]
    ensures { result ≡ add_round_key (shift_rows (sub_bytes state)) (round_key words.now 10) }
{
    let shifted = substitute_and_shift(state);
    add_round_key(shifted, words, 10)
}
