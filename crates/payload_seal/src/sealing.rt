//! Sealing a content for a path.

ghost use Rattle.std.specs.Prelude.{◌≡◌, ◌+◌, ◌<◌, ◌≤◌, ◌^◌, ◌++◌, ◌∷◌, [], length, IfOk, IfSome, OnOk};
ghost use Rattle.std.specs.Option.{option_copied};
ghost use Rattle.sha2.specs.Sha256.{sha256};
ghost use Rattle.gcm_mode.specs.Gcm.{Gcm};
ghost use Rattle.zk_path.specs.Paths.{text_of};
ghost use Rattle.payload_seal.specs.Keys.{epoch_of, key_of};
ghost use Rattle.payload_seal.specs.Payload.{flag_of, SealData};

use crate::keys::PayloadKeys;
use gcm_mode::{GcmFault, GcmKey, seal_pieces};
use jute_core::{Bytes, Memory};
use sha2::{Digest, Sha256};
use std::alloc::Global;
use zk_path::Path;

/// The bytes of an IV, a flag, a digest and a tag.
pub(crate) const OVERHEAD: usize = 61;

/// The digest of the text of a path or a stem.
pub(crate) fn digest_of(path: &Path) -> [u8; 32]
    ensures { result ≡ sha256 (text_of path.now) }
{
    Sha256::digest(path.text())
}

// The flag of a content.
fn flag_of(sequential: bool, content: Option<&[u8]>) -> u8
    ensures { result ≡ flag_of sequential (option_copied content.entry) }
{
    match (sequential, content.is_none()) {
        (false, false) => 0,
        (true, false) => 1,
        (false, true) => 2,
        (true, true) => 3,
    }
}

// What comes before the content in the text that is sealed: the flag and the digest.
fn head_of(path: &Path, sequential: bool, content: Option<&[u8]>) -> [u8; 33]
    ensures { result ≡ flag_of sequential (option_copied content.entry) ∷ sha256 (text_of path.now) }
{
    let mut head = [flag_of(sequential, content); 33];
    head[1..].copy_from_slice(&digest_of(path));
    head
}

// As `seal_pieces`, without additional data, of pieces that are short enough.
fn seal_short(
    key: &GcmKey,
    iv: &[u8; 12],
    first: &[u8],
    second: &[u8],
    into: &mut Vec<u8>,
) -> Result<(), Memory>
    requires { length first.now + length second.now ≤ 2 ^ 28 }
    ensures { OnOk result (into.new.items
        ≡ into.old.items ++ Gcm key.now iv.now [] (first.now ++ second.now)) }
{
    match seal_pieces(key, iv, b"", first, second, into) {
        Ok(()) => Ok(()),
        Err(GcmFault::Memory) => Err(Memory),
        Err(GcmFault::TooLong { .. }) => unreachable!(),
    }
}

// The same under the key whose epoch is the first byte of the IV.
fn seal_under(
    keys: &PayloadKeys,
    iv: &[u8; 12],
    first: &[u8],
    second: &[u8],
    into: &mut Vec<u8>,
) -> Result<(), Memory>
    requires known { epoch_of iv.now < length keys.now }
    requires short { length first.now + length second.now ≤ 2 ^ 28 }
    ensures { let key = key_of keys.now (epoch_of iv.now) in OnOk result (into.new.items
        ≡ into.old.items ++ Gcm key iv.now [] (first.now ++ second.now)) }
{
    if iv[0] == keys.epoch() {
        seal_short(keys.ready(), iv, first, second, into)
    } else {
        seal_short(&keys.made(iv[0]), iv, first, second, into)
    }
}

/// The payload of a content, or of null, for a path, or for a stem where the node is sequential:
/// 61 bytes more than the content has. It is sealed under the key whose epoch is the first byte of
/// the IV; that of the greatest epoch is ready, and another one costs its schedule.
///
/// The IV must not be used for another payload under the same keys, which is for the caller to see
/// to: [`crate::IvSource`] gives each IV once.
pub fn seal_data(
    alloc: Global,
    keys: &PayloadKeys,
    iv: [u8; 12],
    path: &Path,
    sequential: bool,
    content: Option<&[u8]>,
) -> Result<Bytes, Memory>
    requires epoch { epoch_of iv < length keys.now }
    requires short { IfSome content (λ bytes. length bytes.now ≤ 268435395) }
    ensures { IfOk result (λ payload. payload ≡ SealData keys.now iv path.now sequential (option_copied content.entry)) }
{
    let head = head_of(path, sequential, content);
    let bytes = content.unwrap_or(b"");
    let mut payload = Vec::with_capacity(alloc, bytes.len() + OVERHEAD)?;
    payload.extend_from_slice(&iv)?;
    seal_under(keys, &iv, &head, bytes, &mut payload)?;
    Ok(Bytes::of(payload))
}
