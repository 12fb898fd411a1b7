//! The rounds (FIPS 197, section 5.1), on the state as four words: one for each column, whose
//! highest byte is in the first row.

ghost use Rattle.std.specs.Prelude.{◌≡◌, ◌+◌, ◌*◌, ◌≤◌, [], ◌∷◌, bit_xor};
ghost use Rattle.std.specs.Int.{byte_at, to_be_bytes, w32};
ghost use Rattle.aes_block.specs.Aes.{add_round_key, mix_columns, shift_rows, sub_byte, sub_bytes};
ghost use Rattle.aes_block.specs.Columns.{bytes_from, mixed_column, plus_word};

use crate::sbox::substitute;
use crate::tables::{first_row, fourth_row, second_row, third_row};

fn byte_3(word: u32) -> u8
    ensures { result ≡ byte_at 3 word }
{
    (word / 0x100_0000 % 0x100) as u8
}

fn byte_2(word: u32) -> u8
    ensures { result ≡ byte_at 2 word }
{
    (word / 0x1_0000 % 0x100) as u8
}

fn byte_1(word: u32) -> u8
    ensures { result ≡ byte_at 1 word }
{
    (word / 0x100 % 0x100) as u8
}

fn byte_0(word: u32) -> u8
    ensures { result ≡ byte_at 0 word }
{
    (word % 0x100) as u8
}

// One column of a round before the last, from the four columns that its bytes stand in before
// ShiftRows.
fn column(first: u32, second: u32, third: u32, fourth: u32, key: u32) -> u32
    ensures { to_be_bytes w32 result ≡ plus_word (mixed_column first second third fourth) key }
{
    first_row(byte_3(first))
        ^ second_row(byte_2(second))
        ^ third_row(byte_1(third))
        ^ fourth_row(byte_0(fourth))
        ^ key
}

/// A round before the last, with the key of round `n`.
pub(crate) fn middle_round(state: [u32; 4], words: &[u32; 44], n: usize) -> [u32; 4]
    requires { n ≤ 10 }
    ensures { let mixed = mix_columns (shift_rows (sub_bytes (bytes_from state 0))) in
        bytes_from result 0 ≡ add_round_key mixed (bytes_from words.now (4 * n)) }
{
    [
        column(state[0], state[1], state[2], state[3], words[4 * n]),
        column(state[1], state[2], state[3], state[0], words[4 * n + 1]),
        column(state[2], state[3], state[0], state[1], words[4 * n + 2]),
        column(state[3], state[0], state[1], state[2], words[4 * n + 3]),
    ]
}

// One column of a block, with a word of the key.
fn first_column(first: u8, second: u8, third: u8, fourth: u8, key: u32) -> u32
    ensures { to_be_bytes w32 result ≡ plus_word (first ∷ second ∷ third ∷ fourth ∷ []) key }
{
    u32::from_be_bytes([first, second, third, fourth]) ^ key
}

/// The block with the first round key.
pub(crate) fn first_state(block: [u8; 16], words: &[u32; 44]) -> [u32; 4]
    ensures { bytes_from result 0 ≡ add_round_key block (bytes_from words.now 0) }
{
    [
        first_column(block[0], block[1], block[2], block[3], words[0]),
        first_column(block[4], block[5], block[6], block[7], words[1]),
        first_column(block[8], block[9], block[10], block[11], words[2]),
        first_column(block[12], block[13], block[14], block[15], words[3]),
    ]
}

fn last_3(word: u32, key: u32) -> u8
    ensures { result ≡ bit_xor (sub_byte (byte_at 3 word)) (byte_at 3 key) }
{
    substitute(byte_3(word)) ^ byte_3(key)
}

fn last_2(word: u32, key: u32) -> u8
    ensures { result ≡ bit_xor (sub_byte (byte_at 2 word)) (byte_at 2 key) }
{
    substitute(byte_2(word)) ^ byte_2(key)
}

fn last_1(word: u32, key: u32) -> u8
    ensures { result ≡ bit_xor (sub_byte (byte_at 1 word)) (byte_at 1 key) }
{
    substitute(byte_1(word)) ^ byte_1(key)
}

fn last_0(word: u32, key: u32) -> u8
    ensures { result ≡ bit_xor (sub_byte (byte_at 0 word)) (byte_at 0 key) }
{
    substitute(byte_0(word)) ^ byte_0(key)
}

/// The last round, which has no MixColumns.
pub(crate) fn last_round(state: [u32; 4], words: &[u32; 44]) -> [u8; 16]
    ensures { let shifted = shift_rows (sub_bytes (bytes_from state 0)) in
        result ≡ add_round_key shifted (bytes_from words.now 40) }
{
    [
        last_3(state[0], words[40]),
        last_2(state[1], words[40]),
        last_1(state[2], words[40]),
        last_0(state[3], words[40]),
        last_3(state[1], words[41]),
        last_2(state[2], words[41]),
        last_1(state[3], words[41]),
        last_0(state[0], words[41]),
        last_3(state[2], words[42]),
        last_2(state[3], words[42]),
        last_1(state[0], words[42]),
        last_0(state[1], words[42]),
        last_3(state[3], words[43]),
        last_2(state[0], words[43]),
        last_1(state[1], words[43]),
        last_0(state[2], words[43]),
    ]
}
