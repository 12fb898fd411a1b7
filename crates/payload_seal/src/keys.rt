//! Keys, and the files that hold them.

ghost use Rattle.std.specs.Prelude.{◌≡◌, ◌↔◌, ◌+◌, ◌*◌, ◌<◌, ◌≤◌, ℕ, [], ◌∷◌, ◌++◌, length, take, drop, IfOk, IfErr, IfSome, IsOk, IsNone};
ghost use Rattle.payload_seal.specs.Keys.{IsKeyFileSize, key_of, keys_in, payload_keys};

use crate::bytes::bytes_at;
use gcm_mode::GcmKey;
use path_seal::NameKeys;
use std::marker::Model;
use thiserror::Error;

/// The bytes of a file of keys before those of the epochs from 1 on.
const FIXED: usize = 64;

/// How many epochs there are at most besides epoch 0.
const LATER_EPOCHS: usize = 255;

/// What payloads are sealed under: 1 to 256 keys of 16 bytes, one for each epoch from 0 on.
/// Contracts see the list of the keys, that of epoch 0 first.
///
/// The key of the greatest epoch is kept ready, so that a payload under it costs no key schedule.
/// There is no `Debug`: it would print the keys.
#[derive(Clone, Copy)]
pub struct PayloadKeys {
    // from epoch 0 on, and zeros above the greatest one
    places: [[u8; 16]; 256],
    epoch: u8,
    ready: GcmKey,
}

impl Model for PayloadKeys {
    ghost use Rattle.std.specs.Prelude.{◌+◌, ◌-◌, ℕ, List, length, take};
    ghost use Rattle.payload_seal.specs.Keys.{HoldsKeys, key_of, places_of};
    ghost use Rattle.payload_seal.specs.Held.{held_epoch, held_places, held_ready};

    ghost Value = { List (List ℕ) };

    ghost view = { λ k. take (k.epoch + 1) k.places };

    ghost invariant = { λ k. HoldsKeys k.places k.epoch k.ready };

    ghost inverse = { λ v. record { places = places_of v; epoch = length v - 1; ready = key_of v (length v - 1) } };

    ghost inverse_ok = { λ k h i. record {
      places = held_places h i;
      epoch = held_epoch h i;
      ready = held_ready h i;
    } };
}

impl PayloadKeys {
    /// The key of epoch 0 alone. Takes no memory.
    #[tactic(auto, unfolding(crate::specs::Keys::keys_in))]
    pub fn new(key: [u8; 16]) -> PayloadKeys
        ensures { result ≡ key ∷ [] }
    {
        PayloadKeys::of_all(key, b"", 0)
    }

    /// The keys with one of the next epoch besides. Takes no memory. None exactly where there are
    /// 256 already.
    pub fn with_next(self, key: [u8; 16]) -> Option<PayloadKeys>
        ensures none { IsNone result ↔ (length self ≡ 256) }
        ensures next { IfSome result (λ next. next ≡ self ++ key ∷ []) }
    {
        let epoch = self.epoch.checked_add(1)?;
        let mut places = self.places;
        places[epoch as usize] = key;
        Some(PayloadKeys {
            places,
            epoch,
            ready: GcmKey::new(key),
        })
    }

    /// The greatest epoch, under which payloads are sealed. Takes no memory.
    pub fn epoch(&self) -> u8
        ensures { result + 1 ≡ length self.now }
    {
        self.epoch
    }

    // The key of epoch 0, and those of the epochs after it, 16 bytes each.
    fn of_all(first: [u8; 16], later: &[u8], count: usize) -> PayloadKeys
        requires few { count ≤ 255 }
        requires long { 16 * count ≤ length later.now }
        ensures { result ≡ first ∷ keys_in later.now count }
    {
        let mut places = [[0; 16]; 256];
        places[0] = first;
        for n in 0..count {
            places[n + 1] = bytes_at(later, 16 * n);
        }
        PayloadKeys {
            places,
            epoch: count as u8,
            ready: GcmKey::new(places[count]),
        }
    }

    /// The key of the greatest epoch.
    pub(crate) fn ready(&self) -> &GcmKey
        ensures { (epoch : ℕ) → length self.now ≡ epoch + 1 → result.now ≡ key_of self.now epoch }
    {
        &self.ready
    }

    /// The key of an epoch, made for this call.
    pub(crate) fn made(&self, epoch: u8) -> GcmKey
        requires { epoch < length self.now }
        ensures { result ≡ key_of self.now epoch }
    {
        GcmKey::new(self.places[epoch as usize])
    }
}

/// All that an entry seals under: the keys of names, and those of payloads.
#[derive(Clone, Copy)]
pub struct EntryKeys {
    pub names: NameKeys,
    pub payloads: PayloadKeys,
}

/// A file of keys has another length than its kind has.
#[derive(Clone, Copy, Debug, Drop, PartialEq, Eq, Error)]
#[error("a key file of {length} bytes")]
pub struct KeyMalformed {
    /// How many bytes it has.
    pub length: usize,
}

/// The keys of an entry, from a file of 64 + 16 n bytes, with n from 0 to 255: the name key of 16,
/// the payload key of epoch 0 of 16, the salt of 32, and then the payload keys of the epochs 1 to
/// n, of 16 each. Takes no memory.
///
/// # Errors
///
/// [`KeyMalformed`] exactly where the file has another length.
pub fn read_keys(file: &[u8]) -> Result<EntryKeys, KeyMalformed>
    ensures ok { IsOk result ↔ IsKeyFileSize (length file.now) }
    ensures name_key { IfOk result (λ keys. keys.names.key ≡ take 16 file.now) }
    ensures payload_keys { IfOk result (λ keys. (n : ℕ) → length file.now ≡ 64 + 16 * n
        → keys.payloads ≡ payload_keys file.now n) }
    ensures salt { IfOk result (λ keys. keys.names.salt ≡ take 32 (drop 32 file.now)) }
    ensures malformed { IfErr result (λ fault. fault.length ≡ length file.now) }
{
    let length = file.len();
    if length < FIXED || length > FIXED + 16 * LATER_EPOCHS || length % 16 != 0 {
        return Err(KeyMalformed { length });
    }
    let count = (length - FIXED) / 16;
    Ok(EntryKeys {
        names: NameKeys::new(bytes_at(file, 0), bytes_at(file, 32)),
        payloads: PayloadKeys::of_all(bytes_at(file, 16), &file[FIXED..], count),
    })
}

/// The keys of names alone, from a file of 48 bytes: the name key of 16, and the salt of 32. Takes
/// no memory.
///
/// # Errors
///
/// [`KeyMalformed`] exactly where the file has another length.
pub fn read_counter_keys(file: &[u8]) -> Result<NameKeys, KeyMalformed>
    ensures ok { IsOk result ↔ (length file.now ≡ 48) }
    ensures name_key { IfOk result (λ keys. keys.key ≡ take 16 file.now) }
    ensures salt { IfOk result (λ keys. keys.salt ≡ drop 16 file.now) }
    ensures malformed { IfErr result (λ fault. fault.length ≡ length file.now) }
{
    if file.len() != 48 {
        return Err(KeyMalformed { length: file.len() });
    }
    Ok(NameKeys::new(bytes_at(file, 0), bytes_at(file, 16)))
}
