//! Payloads that an untrusted store keeps: the content of a node sealed by AES-128-GCM with the
//! digest of its path, so that no payload is accepted for another path.
//!
//! The definitions are in `specs/`: `Payload.antt` says what a content is sealed to, when a payload
//! is accepted for a path, and which flaw it has where it is not; `Keys.antt` has the keys, one for
//! each epoch, and `Ivs.antt` the IVs. A payload is sealed under the key of the greatest epoch, and
//! opened under the key of the epoch that it begins with. The crate
//! stands on `gcm_mode` for the cipher, on `sha2` for the digests, on `zk_path` for paths and the
//! stems that they number, and on `path_seal` for the keys of names, which share a file with those
//! of payloads.
//!
//! Read [`seal_data`] and [`open_data`] first, then [`IvSource`], then the laws at the end of this
//! file.
#![tactic(auto)]

ghost use Rattle.payload_seal.specs.Laws.{IsJudgedOnce, IsAcceptedWhenSealed, IsAcceptedWhenNumbered, IsKeptByLaterKeys, HasOneIv};

mod bytes;
mod ivs;
mod keys;
mod lengths;
mod opening;
mod plain;
mod sealing;

pub use ivs::{IvSource, Spent};
pub use keys::{EntryKeys, KeyMalformed, PayloadKeys, read_counter_keys, read_keys};
pub use lengths::plain_length;
pub use opening::{Flaw, NotOpened, open_data};
pub use sealing::seal_data;

/// The law that for each key, path and payload exactly one holds: the payload is accepted with one
/// content, or it has one first flaw.
pub fn judged_once()
    ensures { IsJudgedOnce }
{}

/// The law that what was sealed for a path is accepted for it, with the content that was sealed.
pub fn accepted_when_sealed()
    ensures { IsAcceptedWhenSealed }
{}

/// The law that what was sealed for a stem is accepted for each path that numbers it, with the
/// content that was sealed.
pub fn accepted_when_numbered()
    ensures { IsAcceptedWhenNumbered }
{}

/// The law that keys of later epochs change nothing for a payload: it is accepted with a content, or
/// has a flaw, under more keys exactly where it is or does without them. So a payload that begins with
/// 0 is accepted under a file of keys exactly where it is under the file's first 64 bytes.
pub fn kept_by_later_keys()
    ensures { IsKeptByLaterKeys }
{}

/// The law that no two payloads have one IV: it determines the epoch, the boot, the connection and
/// the count.
pub fn one_iv()
    ensures { HasOneIv }
{}

#[cfg(test)]
mod tests;
