//! A key with its round keys.

ghost use Rattle.std.specs.Prelude.{◌≡◌};
ghost use Rattle.aes_block.specs.Aes.{Aes};

use crate::schedule::{expand, words};
use crate::state::{first_state, last_round, middle_round};
use std::marker::Model;

/// A key of 16 bytes, which is what contracts see of it.
///
/// The round keys are computed once, by [`Key::new`], and kept as words. There is no `Debug`: it
/// would print the key.
#[derive(Clone, Copy)]
pub struct Key {
    key: [u8; 16],
    // the 44 words of the key expansion
    words: [u32; 44],
}

impl Model for Key {
    ghost use Rattle.std.specs.Prelude.{◌≡◌, ◌<◌, ◌*◌, ℕ, List};
    ghost use Rattle.aes_block.specs.Aes.{expanded, round_key};
    ghost use Rattle.aes_block.specs.Columns.{bytes_from, words_of};

    ghost Value = { List ℕ };

    ghost view = { λ k. k.key };

    ghost invariant = { λ k. (k.words ≡ words_of (expanded k.key 40) 44)
        × ((n : ℕ) → n < 11 → bytes_from k.words (4 * n) ≡ round_key (expanded k.key 40) n) };

    ghost inverse = { λ v. record { key = v; words = words_of (expanded v 40) 44 } };
}

impl Key {
    /// The key with these bytes (FIPS 197, section 5.2).
    pub fn new(bytes: [u8; 16]) -> Key
        ensures { result ≡ bytes }
    {
        let words = words(&expand(&bytes));
        Key { key: bytes, words }
    }

    /// The block enciphered under this key (FIPS 197, section 5.1).
    ///
    /// It makes nothing that [`Key::new`] could have made. Each round before the last reads 16 entries
    /// of the tables of `tables`, 4 KiB together, at places that depend on the key and the block.
    pub fn encrypt(&self, block: [u8; 16]) -> [u8; 16]
        ensures { result ≡ Aes self.now block }
    {
        let mut state = first_state(block, &self.words);
        for n in 0..9 {
            let next = middle_round(state, &self.words, n + 1);
            state = next;
        }
        last_round(state, &self.words)
    }
}

#[cfg(test)]
mod tests;
