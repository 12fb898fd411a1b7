//! Opening names, paths and stems.

ghost use Rattle.std.specs.Prelude.{◌≡◌, ◌≤◌, ◌<◌, ◌↔◌, ◌+◌, ◌^◌, ℕ, List, Ok, true, false, length, string_bytes, IfOk, IfSome, IfNone, IsTrue, MatchOption};
ghost use Rattle.aes_block.specs.Laws.{IsBytes};
ghost use Rattle.zk_path.specs.Paths.{HasNoSlash, IsComponent, joined, text_of};
ghost use Rattle.path_seal.specs.Sealed.{SealName, OpensName, Opens, OpensStem};
ghost use Rattle.path_seal.specs.Names.{IsCut, IsName, AppendsName, IsPlainOf, IsSealedOf};
ghost use Rattle.path_seal.specs.Under.{IsUnder, IsUnderOne};

use crate::keys::NameKeys;
use crate::under::NamesUnder;
use jute_core::{Memory, Text};
use std::alloc::Global;
use zk_path::{NotPath, Path, check_path, read_path, read_stem};

/// The IV, the ciphertext and the tag.
pub(crate) fn parts_of(bytes: &[u8]) -> Option<(&[u8; 12], &[u8], &[u8; 16])>
    ensures { MatchOption result (length bytes.now < 28) (λ parts. IsCut bytes.now parts.0.now parts.1.now parts.2.now) }
{
    let (iv, rest) = bytes.split_first_chunk::<12>()?;
    let (text, tag) = rest.split_last_chunk::<16>()?;
    Some((iv, text, tag))
}

// Appends a slash and the name that a text opens to, steps down to it, and says whether there is one.
fn push_opened(
    alloc: Global,
    keys: &NameKeys,
    text: &str,
    bytes: &mut Vec<u8>,
    under: &mut NamesUnder,
    plain: &mut String,
) -> Result<bool, Memory>
    requires parent { IsUnderOne keys.now under.old }
    requires room { length (string_bytes plain.old) + length text.now ≤ 2 ^ 28 }
    ensures some { result ≡ Ok true → (p : List (List ℕ)) → string_bytes plain.old ≡ joined p → IsUnder keys.now p under.old
        → AppendsName keys.now p text.now (string_bytes plain.old) (string_bytes plain.new) under.new }
    ensures none { result ≡ Ok false → (p : List (List ℕ)) (n : List ℕ) → IsUnder keys.now p under.old
        → IsName n → SealName keys.now p n ≡ text.now → ⊥ }
    ensures key { IsBytes keys.now.key }
{
    let Some(name) = under.opened(alloc, keys, text, bytes)? else {
        return Ok(false);
    };
    plain.push('/')?;
    plain.push_str(name.as_str())?;
    under.step(keys, name.as_str());
    Ok(true)
}

// The plain text of what is sealed to a text, with each component after a slash, whether it is
// legal or not.
fn opened_text(alloc: Global, keys: &NameKeys, text: &str) -> Result<Option<String>, Memory>
    requires { length text.now ≤ 2 ^ 28 }
    ensures some { IfOk result (λ found. IfSome found (λ plain. IsPlainOf keys.now text.now (string_bytes plain))) }
    ensures none { IfOk result (λ found. IfNone found ((p : List (List ℕ)) → IsSealedOf keys.now text.now p → ⊥)) }
{
    let Some(mut rest) = text.strip_prefix('/') else {
        return Ok(None);
    };
    let mut plain = String::new(alloc);
    let mut bytes = Vec::new(alloc);
    let root = Path::root(alloc);
    let mut under = NamesUnder::new(keys, &root);
    while let Some((sealed, after)) = rest.split_once('/') {
        if !push_opened(alloc, keys, sealed, &mut bytes, &mut under, &mut plain)? {
            return Ok(None);
        }
        rest = after;
    }
    if !push_opened(alloc, keys, rest, &mut bytes, &mut under, &mut plain)? {
        return Ok(None);
    }
    Ok(Some(plain))
}

/// Whether a name without a slash is a legal component.
pub(crate) fn is_component(alloc: Global, name: &str) -> Result<bool, Memory>
    requires no_slash { HasNoSlash name.now }
    requires short { length name.now ≤ 2 ^ 28 }
    ensures { IfOk result (λ legal. IsTrue legal ↔ IsComponent name.now) }
{
    if name.is_empty() {
        return Ok(false);
    }
    let mut text = String::with_capacity(alloc, name.len() + 1)?;
    text.push('/')?;
    text.push_str(name)?;
    Ok(check_path(text.as_str()).is_none())
}

/// The legal component that a text opens to under a path. None exactly where no legal component is
/// sealed to it there.
///
/// For several names under one path make a [`NamesUnder`], which reads the path once.
pub fn open_name(
    alloc: Global,
    keys: &NameKeys,
    parent: &Path,
    text: &str,
) -> Result<Option<Text>, Memory>
    requires parent { length (text_of parent.now) ≤ 2 ^ 28 }
    requires text { length text.now ≤ 2 ^ 28 }
    ensures some { IfOk result (λ found. IfSome found (OpensName keys.now parent.now text.now)) }
    ensures none { IfOk result (λ found. IfNone found ((n : List ℕ) → OpensName keys.now parent.now text.now n → ⊥)) }
{
    let under = NamesUnder::new(keys, parent);
    under.open(alloc, keys, text)
}

/// The legal path that a text opens to. None exactly where no legal path is sealed to it.
pub fn open_path(alloc: Global, keys: &NameKeys, text: &str) -> Result<Option<Path>, Memory>
    requires { length text.now ≤ 2 ^ 28 }
    ensures some { IfOk result (λ found. IfSome found (Opens keys.now text.now)) }
    ensures none { IfOk result (λ found. IfNone found ((p : List (List ℕ)) → Opens keys.now text.now p → ⊥)) }
{
    if text == "/" {
        return Ok(Some(Path::root(alloc)));
    }
    let Some(plain) = opened_text(alloc, keys, text)? else {
        return Ok(None);
    };
    match read_path(alloc, plain.as_str()) {
        Ok(path) => {
            // One empty component has the root's text.
            if path.is_root() {
                return Ok(None);
            }
            Ok(Some(path))
        }
        Err(NotPath::BadPath { place: _ }) => Ok(None),
        Err(NotPath::Memory) => Err(Memory),
    }
}

/// The legal stem that a text opens to. None exactly where no legal stem is sealed to it.
pub fn open_stem(alloc: Global, keys: &NameKeys, text: &str) -> Result<Option<Path>, Memory>
    requires { length text.now ≤ 2 ^ 28 }
    ensures some { IfOk result (λ found. IfSome found (OpensStem keys.now text.now)) }
    ensures none { IfOk result (λ found. IfNone found ((s : List (List ℕ)) → OpensStem keys.now text.now s → ⊥)) }
{
    let Some(plain) = opened_text(alloc, keys, text)? else {
        return Ok(None);
    };
    match read_stem(alloc, plain.as_str()) {
        Ok(stem) => Ok(Some(stem)),
        Err(NotPath::BadPath { place: _ }) => Ok(None),
        Err(NotPath::Memory) => Err(Memory),
    }
}
