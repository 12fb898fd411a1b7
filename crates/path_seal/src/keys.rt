//! The key and the salt of names.

ghost use Rattle.std.specs.Prelude.{◌≡◌};
ghost use Rattle.aes_block.specs.Laws.{IsBytes};
ghost use Rattle.path_seal.specs.Sealed.{AreKeys};

use gcm_mode::GcmKey;
use std::marker::Model;

/// What names are sealed under: a key of 16 bytes, and a salt of 32 for their IVs.
///
/// What the cipher needs of the key alone is made once, by [`NameKeys::new`]. There is no `Debug`:
/// it would print the key and the salt.
#[derive(Clone, Copy)]
pub struct NameKeys {
    pub(crate) key: GcmKey,
    pub(crate) salt: [u8; 32],
}

impl Model for NameKeys {
    ghost use Rattle.path_seal.specs.Sealed.{Keys, AreKeys};

    ghost Value = { Keys };

    ghost view = { λ k. record { key = k.key; salt = k.salt } };

    ghost invariant = { λ k. AreKeys (record { key = k.key; salt = k.salt }) };

    ghost inverse = { λ v. record { key = v.key; salt = v.salt } };
}

impl NameKeys {
    /// The keys with this name key and this salt. Takes no memory.
    pub fn new(key: [u8; 16], salt: [u8; 32]) -> NameKeys
        ensures { result ≡ record { key = key; salt = salt } }
    {
        NameKeys {
            key: GcmKey::new(key),
            salt,
        }
    }

    /// The law that the key is 16 bytes, and the salt 32, which the laws of this crate want.
    pub fn are_keys(&self)
        ensures { AreKeys self.now }
    {
        let _ = &self.salt;
    }

    /// The key of the cipher, whose items are bytes.
    pub(crate) fn key(&self) -> &GcmKey
        ensures value { result.now ≡ self.now.key }
        ensures bytes { IsBytes self.now.key }
    {
        &self.key
    }
}
