//! GCTR: a text under the key stream (NIST SP 800-38D, section 6.5).

ghost use Rattle.std.specs.Prelude.{◌≡◌, ◌+◌, ◌^◌, ◌≤◌, ◌++◌, drop, length, take, vec_capacity, vec_len};
ghost use Rattle.std.specs.Int.{to_be_bytes, w32};
ghost use Rattle.gcm_mode.specs.Gcm.{text_under, xor_bytes};

use crate::hash::padded_block;
use aes_block::Key;

/// The counter block with this number.
pub(crate) fn counter_block(iv: &[u8; 12], number: u32) -> [u8; 16]
    ensures { result ≡ iv.now ++ to_be_bytes w32 number }
{
    let mut block = [0; 16];
    block[..12].copy_from_slice(iv);
    block[12..].copy_from_slice(&number.to_be_bytes());
    block
}

/// The exclusive or of two blocks.
pub(crate) fn xor(x: [u8; 16], y: [u8; 16]) -> [u8; 16]
    ensures { result ≡ xor_bytes x y }
{
    [
        x[0] ^ y[0],
        x[1] ^ y[1],
        x[2] ^ y[2],
        x[3] ^ y[3],
        x[4] ^ y[4],
        x[5] ^ y[5],
        x[6] ^ y[6],
        x[7] ^ y[7],
        x[8] ^ y[8],
        x[9] ^ y[9],
        x[10] ^ y[10],
        x[11] ^ y[11],
        x[12] ^ y[12],
        x[13] ^ y[13],
        x[14] ^ y[14],
        x[15] ^ y[15],
    ]
}

/// Appends bytes for which there is room, so that no memory is taken.
pub(crate) fn push_piece(into: &mut Vec<u8>, piece: &[u8])
    requires { vec_len into.old + length piece.now ≤ vec_capacity into.old }
    ensures items { into.new.items ≡ into.old.items ++ piece.now }
    ensures capacity { vec_capacity into.old ≤ vec_capacity into.new }
{
    into.extend_from_slice(piece).unwrap();
}

/// Puts a text under the key stream, in place: a plain text becomes its ciphertext, and the other
/// way round.
fn cover(key: &Key, iv: &[u8; 12], text: &mut [u8])
    requires { length text.old ≤ 2 ^ 28 }
    ensures { text.new ≡ text_under key.now iv.now text.old }
{
    for n in 0..text.len().div_ceil(16) {
        let mask = key.encrypt(counter_block(iv, n as u32 + 2));
        let block = xor(padded_block(text, n), mask);
        let size = (text.len() - 16 * n).min(16);
        text[16 * n..16 * n + size].copy_from_slice(&block[..size]);
    }
}

/// Puts the bytes from `start` on under the key stream.
pub(crate) fn cover_from(key: &Key, iv: &[u8; 12], start: usize, into: &mut Vec<u8>)
    requires within { start ≤ vec_len into.old }
    requires short { vec_len into.old ≤ start + 2 ^ 28 }
    ensures items { into.new.items
        ≡ take start into.old.items ++ text_under key.now iv.now (drop start into.old.items) }
    ensures capacity { vec_capacity into.old ≤ vec_capacity into.new }
{
    let (_, text) = into.as_mut_slice().split_at_mut(start);
    cover(key, iv, text);
}
