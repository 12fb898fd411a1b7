//! Opening a payload for the path that was asked.

ghost use Rattle.std.specs.Prelude.{◌≡◌, ◌≤◌, ◌<◌, ◌↔◌, ◌^◌, ◌++◌, ℕ, List, [], Ok, true, length, take, IfOk, IfErr, IfSome, IfNone, IsTrue, MatchOption};
ghost use Rattle.gcm_mode.specs.Gcm.{gcm_tag, text_under};
ghost use Rattle.path_seal.specs.Names.{IsCut};
ghost use Rattle.payload_seal.specs.Keys.{epoch_of, key_of};
ghost use Rattle.payload_seal.specs.Payload.{OpensTo, IsDigestFor, Accepts};
ghost use Rattle.payload_seal.specs.Flaws.{IsFlawIn};

use crate::keys::PayloadKeys;
use crate::plain::Plain;
use crate::sealing::{OVERHEAD, digest_of};
use gcm_mode::{GcmFault, GcmKey, unseal};
use jute_core::{Bytes, Memory};
use std::alloc::Global;
use thiserror::Error;
use zk_path::Path;

/// What is wrong with a payload, of which nothing is handed out then.
#[derive(Clone, Copy, Debug, Drop, PartialEq, Eq, Error)]
pub enum Flaw {
    /// It has this many bytes, fewer than 61.
    #[error("{length} bytes are no payload")]
    Short {
        length: u32,
    },
    /// Its first byte is this epoch, which is above the greatest of the keys.
    #[error("no key of epoch {epoch}")]
    UnknownEpoch {
        epoch: u8,
    },
    /// Its tag is not right under the key of its epoch.
    #[error("the tag is not right")]
    BadTag,
    /// This flag is above 3, or says that the content is null though it is not empty.
    #[error("a flag of {flag}")]
    BadFlag {
        flag: u8,
    },
    /// It was sealed for another path.
    #[error("sealed for another path")]
    WrongPath {
        /// The digest that it holds.
        sealed: [u8; 32],
        /// The digest of the text of the path that was asked.
        asked: [u8; 32],
    },
}

/// Why a payload was not opened.
#[derive(Clone, Copy, Debug, Drop, PartialEq, Eq, Error)]
pub enum NotOpened {
    /// The payload is flawed.
    #[error("{0}")]
    Flawed(Flaw),
    /// There was no memory.
    #[error("out of memory")]
    Memory,
}

impl From<Memory> for NotOpened {
    ghost use Rattle.payload_seal.specs.declared.opening.NotOpened.TheVariants.{Memory};

    ghost from_gives = { λ _ r. r ≡ Memory };

    fn from(_e: Memory) -> NotOpened {
        NotOpened::Memory
    }
}

// The IV, the ciphertext and the tag.
fn parts_of(payload: &[u8]) -> Option<(&[u8; 12], &[u8], &[u8; 16])>
    ensures { MatchOption result (length payload.now < 28) (λ parts. IsCut payload.now parts.0.now parts.1.now parts.2.now) }
{
    let (iv, rest) = payload.split_first_chunk::<12>()?;
    let (text, tag) = rest.split_last_chunk::<16>()?;
    Some((iv, text, tag))
}

// As `unseal`, without additional data, of a text that is short enough.
fn unseal_short(
    key: &GcmKey,
    iv: &[u8; 12],
    text: &[u8],
    tag: &[u8; 16],
    into: &mut Vec<u8>,
) -> Result<bool, Memory>
    requires { length text.now ≤ 2 ^ 28 }
    ensures tag { IfOk result
        (λ right. IsTrue right ↔ (tag.now ≡ gcm_tag key.now iv.now [] text.now)) }
    ensures ok { result ≡ Ok true
        → into.new.items ≡ into.old.items ++ text_under key.now iv.now text.now }
{
    match unseal(key, iv, b"", text, tag, into) {
        Ok(right) => Ok(right),
        Err(GcmFault::Memory) => Err(Memory),
        Err(GcmFault::TooLong { .. }) => unreachable!(),
    }
}

// The same under the key whose epoch is the first byte of the IV.
fn unseal_under(
    keys: &PayloadKeys,
    iv: &[u8; 12],
    text: &[u8],
    tag: &[u8; 16],
    into: &mut Vec<u8>,
) -> Result<bool, Memory>
    requires known { epoch_of iv.now < length keys.now }
    requires short { length text.now ≤ 2 ^ 28 }
    ensures tag { let key = key_of keys.now (epoch_of iv.now) in IfOk result
        (λ right. IsTrue right ↔ (tag.now ≡ gcm_tag key iv.now [] text.now)) }
    ensures ok { let key = key_of keys.now (epoch_of iv.now) in result ≡ Ok true
        → into.new.items ≡ into.old.items ++ text_under key iv.now text.now }
{
    if iv[0] == keys.epoch() {
        unseal_short(keys.ready(), iv, text, tag, into)
    } else {
        unseal_short(&keys.made(iv[0]), iv, text, tag, into)
    }
}

// The plain text of a payload. None exactly where its tag is not right.
fn opened(alloc: Global, keys: &PayloadKeys, payload: &[u8]) -> Result<Option<Vec<u8>>, Memory>
    requires known { epoch_of payload.now < length keys.now }
    requires short { length payload.now ≤ 2 ^ 28 }
    ensures some { IfOk result (λ found. IfSome found (λ plain. OpensTo keys.now payload.now plain.items)) }
    ensures none { IfOk result (λ found. IfNone found ((plain : List ℕ) → OpensTo keys.now payload.now plain → ⊥)) }
{
    let Some((iv, text, tag)) = parts_of(payload) else {
        return Ok(None);
    };
    let mut plain = Vec::new(alloc);
    if unseal_under(keys, iv, text, tag, &mut plain)? {
        Ok(Some(plain))
    } else {
        Ok(None)
    }
}

// Whether a digest is that of the path, or of its stem where the node is sequential.
fn is_digest_for(path: &Path, sequential: bool, digest: &[u8; 32]) -> Result<bool, Memory>
    ensures { IfOk result (λ right. IsTrue right ↔ IsDigestFor path.now sequential digest.now) }
{
    if !sequential {
        return Ok(digest_of(path) == *digest);
    }
    match path.without_number()? {
        Some(stem) => Ok(digest_of(&stem) == *digest),
        None => Ok(false),
    }
}

/// The content, or null, of a payload that is accepted for the path that was asked.
///
/// The key is that of the epoch which is the payload's first byte. So keys of later epochs change
/// nothing for a payload: one that begins with 0 is accepted, or has its flaw, exactly where it is or
/// does under the key of epoch 0 alone, as a file of 64 bytes gives it
/// ([`crate::kept_by_later_keys`]).
///
/// # Errors
///
/// [`NotOpened::Flawed`] exactly where the payload is not accepted for the path, with the first
/// flaw of [`Flaw`]: [`Flaw::Short`], [`Flaw::UnknownEpoch`], [`Flaw::BadTag`], [`Flaw::BadFlag`], [`Flaw::WrongPath`].
/// [`NotOpened::Memory`] for want of memory.
pub fn open_data(
    alloc: Global,
    keys: &PayloadKeys,
    path: &Path,
    payload: &[u8],
) -> Result<Option<Bytes>, NotOpened>
    requires { length payload.now ≤ 2 ^ 28 }
    ensures accepted { IfOk result (Accepts keys.now path.now payload.now) }
    ensures flawed { IfErr result (IsFlawIn keys.now path.now payload.now) }

    // A payload of epoch 0 sees the first key alone.
    ensures first_accepted { epoch_of payload.now ≡ 0
        → IfOk result (Accepts (take 1 keys.now) path.now payload.now) }
    ensures first_flawed { epoch_of payload.now ≡ 0
        → IfErr result (IsFlawIn (take 1 keys.now) path.now payload.now) }
{
    if payload.len() < OVERHEAD {
        let length = payload.len() as u32;
        return Err(NotOpened::Flawed(Flaw::Short { length }));
    }
    let epoch = payload[0];
    if epoch > keys.epoch() {
        return Err(NotOpened::Flawed(Flaw::UnknownEpoch { epoch }));
    }
    let Some(bytes) = opened(alloc, keys, payload)? else {
        return Err(NotOpened::Flawed(Flaw::BadTag));
    };
    let plain = Plain::of(bytes);
    if plain.has_bad_flag() {
        let flag = plain.flag;
        return Err(NotOpened::Flawed(Flaw::BadFlag { flag }));
    }
    if !is_digest_for(path, plain.is_sequential(), &plain.digest)? {
        let sealed = plain.digest;
        let asked = digest_of(path);
        return Err(NotOpened::Flawed(Flaw::WrongPath { sealed, asked }));
    }
    Ok(plain.into_content())
}
