//! GHASH of a text (NIST SP 800-38D, section 6.4).

ghost use Rattle.std.specs.Prelude.{◌≡◌, ◌*◌, ◌/◌, ◌≤◌, length};
ghost use Rattle.gcm_mode.specs.Ghash.{block_count, blocks, ghash, padded_block};

use crate::table::HashTable;

/// Block `n` of a text, filled up with zeros.
pub(crate) fn padded_block(text: &[u8], n: usize) -> [u8; 16]
    requires { 16 * n ≤ length text.now }
    ensures { result ≡ padded_block text.now n }
{
    let (_, rest) = text.split_at(16 * n);
    let mut block = [0; 16];
    let size = rest.len().min(16);
    block[..size].copy_from_slice(&rest[..size]);
    block
}

/// GHASH under the hash key, continued from `start` over the whole blocks of a text.
pub(crate) fn absorb_blocks(hash_key: &HashTable, start: u128, text: &[u8]) -> u128
    ensures { result ≡ ghash hash_key.now start (blocks text.now (length text.now / 16)) }
{
    let mut hash = start;
    for n in 0..text.len() / 16 {
        hash = hash_key.times(hash ^ u128::from_be_bytes(padded_block(text, n)));
    }
    hash
}

/// GHASH under the hash key, continued from `start` over all blocks of a text, the last of them
/// filled up with zeros.
pub(crate) fn absorb_text(hash_key: &HashTable, start: u128, text: &[u8]) -> u128
    ensures { result ≡ ghash hash_key.now start (blocks text.now (block_count text.now)) }
{
    let hash = absorb_blocks(hash_key, start, text);
    if text.len().is_multiple_of(16) {
        hash
    } else {
        let last = padded_block(text, text.len() / 16);
        hash_key.times(hash ^ u128::from_be_bytes(last))
    }
}
