//! The plain text of a payload, read.

ghost use Rattle.std.specs.Prelude.{◌≡◌, ◌≤◌, ◌↔◌, length, drop, IsTrue};
ghost use Rattle.payload_seal.specs.Payload.{flag_of, content_of};
ghost use Rattle.payload_seal.specs.Flaws.{IsBadFlag, IsPlain, is_sequential};

use crate::bytes::bytes_at;
use jute_core::Bytes;

/// The bytes of a flag and a digest.
const HEAD: usize = 33;

/// A flag, a digest and the bytes of a content.
#[derive(Drop)]
pub(crate) struct Plain {
    pub(crate) flag: u8,
    pub(crate) digest: [u8; 32],
    pub(crate) content: Vec<u8>,
}

// What comes after the flag and the digest, moved to the front.
fn without_head(mut bytes: Vec<u8>) -> Vec<u8>
    requires { 33 ≤ length bytes.items }
    ensures { result.items ≡ drop 33 bytes.items }
{
    bytes.copy_within(HEAD.., 0);
    bytes.truncate(bytes.len() - HEAD);
    bytes
}

impl Plain {
    /// The parts of a plain text. Its content stays in the same place of memory.
    pub(crate) fn of(bytes: Vec<u8>) -> Plain
        requires { 33 ≤ length bytes.items }
        ensures { IsPlain bytes.items result.flag result.digest result.content.items }
    {
        let flag = bytes[0];
        let digest = bytes_at(bytes.as_slice(), 1);
        Plain {
            flag,
            digest,
            content: without_head(bytes),
        }
    }

    /// Whether the flag is above 3, or is that of null before the bytes of a content.
    pub(crate) fn has_bad_flag(&self) -> bool
        ensures { IsTrue result ↔ IsBadFlag self.now.flag self.now.content.items }
    {
        self.flag > 3 || self.flag >= 2 && !self.content.is_empty()
    }

    /// Whether the digest is that of a stem.
    pub(crate) fn is_sequential(&self) -> bool
        ensures { result ≡ is_sequential self.now.flag }
    {
        self.flag % 2 == 1
    }

    /// The content, or null.
    pub(crate) fn into_content(self) -> Option<Bytes>
        requires { IsBadFlag self.flag self.content.items → ⊥ }
        ensures flag { self.flag ≡ flag_of (is_sequential self.flag) result }
        ensures content { self.content.items ≡ content_of result }
    {
        if self.flag >= 2 {
            None
        } else {
            Some(Bytes::of(self.content))
        }
    }
}
