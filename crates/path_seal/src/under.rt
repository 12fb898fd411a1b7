//! Names under one path.

ghost use Rattle.std.specs.Prelude.{◌≡◌, ◌≤◌, ◌^◌, ◌++◌, ◌∷◌, ℕ, List, [], length, string_bytes, IfOk, IfSome, IfNone, OnOk};
ghost use Rattle.std.specs.Str.{IsUtf8};
ghost use Rattle.aes_block.specs.Laws.{IsBytes};
ghost use Rattle.gcm_mode.specs.Absorbed.{IsAbsorbed};
ghost use Rattle.gcm_mode.specs.Gcm.{Gcm};
ghost use Rattle.sha2.specs.Hashers.{Holds256};
ghost use Rattle.zk_path.specs.Paths.{joined, text_of};
ghost use Rattle.path_seal.specs.Sealed.{Keys, name_iv, sealed_bytes, SealName, OpensName};
ghost use Rattle.path_seal.specs.Names.{IsName};
ghost use Rattle.path_seal.specs.Under.{IsUnder, IsUnderOne};

use crate::hex_text::{push_hex, read_hex};
use crate::keys::NameKeys;
use crate::opening::{is_component, parts_of};
use crate::sealing::{above_of, parent_text};
use gcm_mode::{Absorbed, GcmFault, seal_absorbed, unseal_absorbed};
use jute_core::{Memory, Text};
use sha2::{Digest, Sha256};
use std::alloc::Global;
use zk_path::Path;

/// What sealing and opening the names under one path needs of that path: the hash of salt and text,
/// and the additional data, each as far as the path gives them.
///
/// It is made once for a path, in time in proportion to the path's text, and serves every name under
/// it, each in time in proportion to that name alone. [`NamesUnder::step`] goes down to a child. To
/// the path, `IsUnder` of `specs/Under.antt` ties it; its calls are to be given the keys that it was
/// made with.
#[derive(Drop)]
pub struct NamesUnder {
    // the salt, the path's text with each component after a slash, and a slash
    hashed: Sha256,
    // the path's text
    text: Absorbed,
    // the path's text with each component after a slash, and a slash
    ahead: Absorbed,
}

/// Memory that names are sealed through, one after another.
#[derive(Drop)]
pub(crate) struct Room {
    // what a name is sealed to
    bytes: Vec<u8>,
    // that in hex
    digits: Vec<u8>,
}

impl Room {
    pub(crate) fn new(alloc: Global) -> Room {
        Room {
            bytes: Vec::new(alloc),
            digits: Vec::new(alloc),
        }
    }
}

// The salt, the text and a slash, hashed.
fn hashed_to(keys: &NameKeys, above: &[u8]) -> Sha256
    ensures { Holds256 result (keys.now.salt ++ (above.now ++ 47 ∷ [])) }
{
    let mut hashed = Sha256::new();
    hashed.update(keys.salt);
    hashed.update(above);
    hashed.update(b"/");
    hashed
}

// The text of a path absorbed, and then what each path under it begins with.
fn ahead_of(keys: &NameKeys, above: &[u8], text: Absorbed) -> Absorbed
    requires { length above.now ≤ 2 ^ 28 }
    ensures { (p : List (List ℕ)) → above.now ≡ joined p → IsAbsorbed keys.now.key text (text_of p)
        → IsAbsorbed keys.now.key result (joined p ++ 47 ∷ []) }
{
    // The root's text is the slash.
    if above.is_empty() {
        return text;
    }
    let mut ahead = text;
    ahead.absorb(keys.key(), b"/");
    ahead
}

// The same state again.
fn copied(hashed: &Sha256) -> Sha256
    ensures { result ≡ hashed.now }
{
    match hashed.clone() {
        Ok(copy) => copy,
        Err(_) => unreachable!(),
    }
}

impl NamesUnder {
    /// What names under a path are sealed and opened with. Takes no memory, and time in proportion
    /// to the path's text.
    pub fn new(keys: &NameKeys, parent: &Path) -> NamesUnder
        requires { length (text_of parent.now) ≤ 2 ^ 28 }
        ensures { IsUnder keys.now parent.now result }
    {
        let above = above_of(parent).as_bytes();
        let mut text = Absorbed::new();
        text.absorb(keys.key(), parent_text(above));
        NamesUnder {
            hashed: hashed_to(keys, above),
            text,
            ahead: ahead_of(keys, above, text),
        }
    }

    /// Steps down to a child of the path. Takes no memory, and time in proportion to the name.
    pub fn step(&mut self, keys: &NameKeys, name: &str)
        ensures { (p : List (List ℕ)) → IsUnder keys.now p self.old
            → length (joined (name.now ∷ p)) ≤ 2 ^ 28 → IsUnder keys.now (name.now ∷ p) self.new }
    {
        self.hashed.update(name);
        self.hashed.update(b"/");
        self.text = self.ahead;
        self.text.absorb(keys.key(), name.as_bytes());
        self.ahead = self.text;
        self.ahead.absorb(keys.key(), b"/");
    }

    // The IV of a name.
    fn iv_of(&self, name: &[u8]) -> [u8; 12]
        ensures { (k : Keys) (p : List (List ℕ)) → IsUnder k p self.now → result ≡ name_iv k p name.now }
    {
        let mut hasher = copied(&self.hashed);
        hasher.update(name);
        let digest: [u8; 32] = hasher.finalize();
        let mut iv = [0; 12];
        iv.copy_from_slice(&digest[..12]);
        iv
    }

    // The IV, the ciphertext and the tag of a name, in place of what the buffer had.
    fn seal_bytes(&self, keys: &NameKeys, name: &[u8], bytes: &mut Vec<u8>) -> Result<(), Memory>
        requires parent { IsUnderOne keys.now self.now }
        requires name { length name.now ≤ 2 ^ 28 }
        ensures { (p : List (List ℕ)) → IsUnder keys.now p self.now
            → OnOk result (bytes.new.items ≡ sealed_bytes keys.now p name.now) }
    {
        let iv = self.iv_of(name);
        bytes.clear();
        bytes.extend_from_slice(&iv)?;
        match seal_absorbed(keys.key(), &iv, &self.text, name, bytes) {
            Ok(()) => Ok(()),
            Err(GcmFault::Memory) => Err(Memory),
            // Neither text is too long.
            Err(GcmFault::TooLong { length: _ }) => unreachable!(),
        }
    }

    /// Appends the sealed text of a name, through memory that serves one name after another.
    pub(crate) fn seal_through(
        &self,
        keys: &NameKeys,
        name: &str,
        room: &mut Room,
        into: &mut String,
    ) -> Result<(), Memory>
        requires parent { IsUnderOne keys.now self.now }
        requires name { length name.now ≤ 2 ^ 28 }
        ensures { (p : List (List ℕ)) → IsUnder keys.now p self.now
            → OnOk result (string_bytes into.new ≡ string_bytes into.old ++ SealName keys.now p name.now) }
    {
        self.seal_bytes(keys, name.as_bytes(), &mut room.bytes)?;
        push_hex(room.bytes.as_slice(), &mut room.digits, into)?;
        Ok(())
    }

    /// Appends the sealed text of a name: 56 characters, and two for each byte of the name.
    pub fn seal(
        &self,
        alloc: Global,
        keys: &NameKeys,
        name: &str,
        into: &mut String,
    ) -> Result<(), Memory>
        requires parent { IsUnderOne keys.now self.now }
        requires name { length name.now ≤ 2 ^ 28 }
        ensures { (p : List (List ℕ)) → IsUnder keys.now p self.now
            → OnOk result (string_bytes into.new ≡ string_bytes into.old ++ SealName keys.now p name.now) }
    {
        let mut room = Room::new(alloc);
        self.seal_through(keys, name, &mut room, into)
    }

    // The name that a ciphertext and a tag open to.
    fn unsealed(
        &self,
        alloc: Global,
        keys: &NameKeys,
        iv: &[u8; 12],
        text: &[u8],
        tag: &[u8; 16],
    ) -> Result<Option<String>, Memory>
        requires parent { IsUnderOne keys.now self.now }
        requires text { length text.now ≤ 2 ^ 28 }
        ensures some { IfOk result (λ found. IfSome found (λ name. (p : List (List ℕ)) → IsUnder keys.now p self.now
            → text.now ++ tag.now ≡ Gcm keys.now.key iv.now (text_of p) (string_bytes name))) }
        ensures none { IfOk result (λ found. IfNone found ((p : List (List ℕ)) (n : List ℕ) → IsUnder keys.now p self.now
            → IsUtf8 n → text.now ++ tag.now ≡ Gcm keys.now.key iv.now (text_of p) n → ⊥)) }
    {
        let mut name = Vec::new(alloc);
        match unseal_absorbed(keys.key(), iv, &self.text, text, tag, &mut name) {
            Ok(true) => {}
            Ok(false) => return Ok(None),
            Err(GcmFault::Memory) => return Err(Memory),
            // Neither text is too long.
            Err(GcmFault::TooLong { length: _ }) => unreachable!(),
        }
        match String::from_utf8(name) {
            Ok(name) => Ok(Some(name)),
            Err(_) => Ok(None),
        }
    }

    /// The name without a slash, legal or not, that a text opens to. What the text spells is read into
    /// `bytes`, in place of what that had.
    pub(crate) fn opened(
        &self,
        alloc: Global,
        keys: &NameKeys,
        text: &str,
        bytes: &mut Vec<u8>,
    ) -> Result<Option<String>, Memory>
        requires parent { IsUnderOne keys.now self.now }
        requires text { length text.now ≤ 2 ^ 28 }
        ensures some { IfOk result (λ found. IfSome found (λ name. IsName (string_bytes name)
            × ((p : List (List ℕ)) → IsUnder keys.now p self.now → SealName keys.now p (string_bytes name) ≡ text.now))) }
        ensures none { IfOk result (λ found. IfNone found ((p : List (List ℕ)) (n : List ℕ) → IsUnder keys.now p self.now
            → IsName n → SealName keys.now p n ≡ text.now → ⊥)) }
        ensures key { IsBytes keys.now.key }
    {
        keys.are_keys();
        if !read_hex(text, bytes)? {
            return Ok(None);
        }
        let Some((iv, sealed, tag)) = parts_of(bytes.as_slice()) else {
            return Ok(None);
        };
        let Some(name) = self.unsealed(alloc, keys, iv, sealed, tag)? else {
            return Ok(None);
        };
        if self.iv_of(name.as_bytes()) != *iv {
            return Ok(None);
        }
        if name.as_str().contains('/') {
            return Ok(None);
        }
        Ok(Some(name))
    }

    /// The legal component that a text opens to. None exactly where no legal component is sealed to
    /// it under the path.
    pub fn open(&self, alloc: Global, keys: &NameKeys, text: &str) -> Result<Option<Text>, Memory>
        requires parent { IsUnderOne keys.now self.now }
        requires text { length text.now ≤ 2 ^ 28 }
        ensures some { IfOk result (λ found. IfSome found (λ name. (p : List (List ℕ)) → IsUnder keys.now p self.now
            → OpensName keys.now p text.now name)) }
        ensures none { IfOk result (λ found. IfNone found ((p : List (List ℕ)) (n : List ℕ) → IsUnder keys.now p self.now
            → OpensName keys.now p text.now n → ⊥)) }
    {
        let mut bytes = Vec::new(alloc);
        let Some(name) = self.opened(alloc, keys, text, &mut bytes)? else {
            return Ok(None);
        };
        if is_component(alloc, name.as_str())? {
            Ok(Some(Text::of(name)))
        } else {
            Ok(None)
        }
    }
}
