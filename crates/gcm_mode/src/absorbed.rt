//! Additional data that is hashed piece by piece.

ghost use Rattle.std.specs.Prelude.{◌≡◌, ◌+◌, ◌^◌, ◌<◌, ◌++◌, ℕ, List, [], length};
ghost use Rattle.gcm_mode.specs.Absorbed.{IsAbsorbed};
ghost use Rattle.gcm_mode.specs.HashKey.{hash_key};
ghost use Rattle.gcm_mode.specs.Ghash.{block_count, blocks, ghash};

use crate::hash::{absorb_blocks, padded_block};
use crate::key::GcmKey;

/// Additional data under one key, as far as it is known: GHASH over its whole blocks, and the bytes
/// behind them.
///
/// Texts whose additional data begins alike share what is hashed once: copy the value where they
/// part, and absorb the rest of each. It takes no memory but its own. For
/// which additional data it stands, `IsAbsorbed` of `specs/Absorbed.antt` says.
#[derive(Clone, Copy)]
pub struct Absorbed {
    pub(crate) hash: u128,
    // what is left behind the whole blocks, filled up with zeros
    pub(crate) part: [u8; 16],
    // in bytes
    pub(crate) length: usize,
}

impl Absorbed {
    /// No additional data, under any key.
    pub fn new() -> Absorbed
        ensures { (key : List ℕ) → IsAbsorbed key result [] }
    {
        Absorbed {
            hash: 0,
            part: [0; 16],
            length: 0,
        }
    }

    /// Appends a piece. The key must be the one that the pieces before were absorbed under. Takes
    /// time in proportion to the piece alone: a product for each block that it fills.
    pub fn absorb(&mut self, key: &GcmKey, piece: &[u8])
        ensures { (aad : List ℕ) → IsAbsorbed key.now self.old aad
            → length aad + length piece.now < 2 ^ 64
            → IsAbsorbed key.now self.new (aad ++ piece.now) }
    {
        let used = self.length % 16;
        let (front, rest) = piece.split_at((16 - used).min(piece.len()));
        let filled = used + front.len();
        self.part[used..filled].copy_from_slice(front);
        self.length = self.length.wrapping_add(piece.len());
        if filled == 16 {
            let block = self.hash ^ u128::from_be_bytes(self.part);
            let full = key.hash_key().times(block);
            self.hash = absorb_blocks(key.hash_key(), full, rest);
            self.part = padded_block(rest, rest.len() / 16);
        }
    }

    /// GHASH over all of the additional data, the last block filled up with zeros.
    pub(crate) fn hash(&self, key: &GcmKey) -> u128
        ensures { (aad : List ℕ) → IsAbsorbed key.now self.now aad
            → result ≡ ghash (hash_key key.now) 0 (blocks aad (block_count aad)) }
    {
        if self.length.is_multiple_of(16) {
            self.hash
        } else {
            let block = self.hash ^ u128::from_be_bytes(self.part);
            key.hash_key().times(block)
        }
    }
}
