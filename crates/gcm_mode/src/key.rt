//! A key with its hash key.

ghost use Rattle.std.specs.Prelude.{◌≡◌};
ghost use Rattle.gcm_mode.specs.HashKey.{hash_key};

use crate::table::HashTable;
use aes_block::Key;
use std::marker::Model;

/// A key of 16 bytes, which is what contracts see of it.
///
/// The round keys of AES, the hash key of GHASH and the table of its products are made once, by
/// [`GcmKey::new`], and no call that takes the key makes them again: keep one for each key. It has
/// some 700 bytes, all of them in the value. There is no `Debug`: it would print the key.
#[derive(Clone, Copy)]
pub struct GcmKey {
    cipher: Key,
    hash: HashTable,
}

impl Model for GcmKey {
    ghost use Rattle.std.specs.Prelude.{◌≡◌, ℕ, List};
    ghost use Rattle.gcm_mode.specs.HashKey.{hash_key};

    ghost Value = { List ℕ };

    ghost view = { λ k. k.cipher };

    ghost invariant = { λ k. k.hash ≡ hash_key k.cipher };

    ghost inverse = { λ v. record { cipher = v; hash = hash_key v } };
}

impl GcmKey {
    /// The key with these bytes. Takes no memory.
    pub fn new(bytes: [u8; 16]) -> GcmKey
        ensures { result ≡ bytes }
    {
        let cipher = Key::new(bytes);
        let hash = HashTable::new(u128::from_be_bytes(cipher.encrypt([0; 16])));
        GcmKey { cipher, hash }
    }

    /// The key of the cipher.
    pub(crate) fn cipher(&self) -> &Key
        ensures { result.now ≡ self.now }
    {
        &self.cipher
    }

    /// The hash key.
    pub(crate) fn hash_key(&self) -> &HashTable
        ensures { result.now ≡ hash_key self.now }
    {
        &self.hash
    }
}
