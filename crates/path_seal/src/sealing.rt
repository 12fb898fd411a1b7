//! Sealing names and paths.

ghost use Rattle.std.specs.Prelude.{◌≡◌, ◌≤◌, ◌^◌, ◌++◌, ◌∷◌, ℕ, List, [], length, string_bytes, All, IfOk, OnOk, MatchOption};
ghost use Rattle.zk_path.specs.Paths.{HasNoSlash, joined, text_of};
ghost use Rattle.path_seal.specs.Sealed.{SealName, SealPath};
ghost use Rattle.path_seal.specs.Under.{IsUnder, IsUnderOne};

use crate::keys::NameKeys;
use crate::under::{NamesUnder, Room};
use jute_core::{Memory, Text};
use std::alloc::Global;
use zk_path::Path;

// In these functions `above` is the text of the path above a name with each component after a
// slash, so that it is empty for the root.

/// The text of a path with each component after a slash.
pub(crate) fn above_of(path: &Path) -> &str
    ensures value { result.now ≡ joined path.now }
    ensures short { length result.now ≤ length (text_of path.now) }
{
    if path.is_root() { "" } else { path.text() }
}

/// The additional data of a name: the text of the path above it, which is `/` for the root.
pub(crate) fn parent_text(above: &[u8]) -> &[u8]
    ensures { (p : List (List ℕ)) → above.now ≡ joined p → result.now ≡ text_of p }
{
    if above.is_empty() { b"/" } else { above }
}

// What follows the first slash of a path's text. None exactly for the root.
fn below_root(path: &Path) -> Option<&str>
    ensures { MatchOption result (path.now ≡ []) (λ rest. (text_of path.now ≡ 47 ∷ rest.now)
        × (joined path.now ≡ text_of path.now) × All HasNoSlash path.now) }
{
    if path.is_root() {
        None
    } else {
        path.text().strip_prefix('/')
    }
}

/// The sealed text of a name under a path: 56 characters, and two for each byte of the name.
///
/// For several names under one path make a [`NamesUnder`], which reads the path once.
pub fn seal_name(alloc: Global, keys: &NameKeys, parent: &Path, name: &str) -> Result<Text, Memory>
    requires parent { length (text_of parent.now) ≤ 2 ^ 28 }
    requires name { length name.now ≤ 2 ^ 28 }
    ensures { IfOk result (λ text. text ≡ SealName keys.now parent.now name.now) }
{
    let under = NamesUnder::new(keys, parent);
    let mut text = String::new(alloc);
    under.seal(alloc, keys, name, &mut text)?;
    Ok(Text::of(text))
}

// Appends a slash and the sealed text of a name.
fn push_sealed(
    keys: &NameKeys,
    under: &NamesUnder,
    name: &str,
    room: &mut Room,
    into: &mut String,
) -> Result<(), Memory>
    requires parent { IsUnderOne keys.now under.now }
    requires name { length name.now ≤ 2 ^ 28 }
    ensures { (p : List (List ℕ)) → IsUnder keys.now p under.now
        → OnOk result (string_bytes into.new ≡ string_bytes into.old ++ 47 ∷ SealName keys.now p name.now) }
{
    into.push('/')?;
    under.seal_through(keys, name, room, into)?;
    Ok(())
}

/// The sealed text of a path or a stem: its components, each sealed under those above it, each
/// after a slash. The root's text stays `/`.
///
/// It has 57 characters for each component, and two for each of their bytes. The time is in
/// proportion to it.
pub fn seal_path(alloc: Global, keys: &NameKeys, path: &Path) -> Result<Text, Memory>
    requires { length (text_of path.now) ≤ 2 ^ 28 }
    ensures { IfOk result (λ text. text ≡ SealPath keys.now path.now) }
{
    let Some(mut rest) = below_root(path) else {
        return Text::copy_of(alloc, "/");
    };
    let mut sealed = String::new(alloc);
    let mut room = Room::new(alloc);
    let root = Path::root(alloc);
    let mut under = NamesUnder::new(keys, &root);
    while let Some((name, after)) = rest.split_once('/') {
        push_sealed(keys, &under, name, &mut room, &mut sealed)?;
        under.step(keys, name);
        rest = after;
    }
    push_sealed(keys, &under, rest, &mut room, &mut sealed)?;
    Ok(Text::of(sealed))
}
