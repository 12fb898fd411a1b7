//! The paths of nodes that were made or synced.

ghost use Rattle.std.specs.Prelude.{◌≡◌, ◌≤◌, ◌↔◌, ◌^◌, ℕ, List, length, IfOk, IfSome, IfNone, IsTrue};
ghost use Rattle.path_seal.specs.Sealed.{Opens};
ghost use Rattle.reply_rewrite.specs.Names.{IsMadeFor, IsCreated, IsNotCreated, IsSynced};
ghost use Rattle.zk_messages.specs.Short.{IsShort};

use jute_core::{Memory, Text};
use path_seal::{NameKeys, open_path};
use std::alloc::Global;
use zk_path::Path;

// Whether a path is the one that was asked for, or the stem that was asked for with ten digits.
#[tactic(auto, using(crate::proofs::Paths::paths))]
fn is_made_for(path: &Path, asked: &Path, sequential: bool) -> Result<bool, Memory>
    ensures { IfOk result (λ made. IsTrue made ↔ IsMadeFor asked.now sequential path.now) }
{
    if !sequential {
        return Ok(path.same(asked));
    }
    match path.without_number()? {
        Some(stem) => Ok(stem.same(asked)),
        None => Ok(false),
    }
}

/// The plain path of a node that was made. None exactly where it is not the one that was asked for.
#[tactic(auto, using(crate::proofs::Paths::paths))]
pub(crate) fn unveil_created(
    alloc: Global,
    keys: &NameKeys,
    asked: &Path,
    sequential: bool,
    text: &Text,
) -> Result<Option<Text>, Memory>
    requires { IsShort text.now }
    ensures some { IfOk result (λ found. IfSome found (IsCreated keys.now asked.now sequential text.now)) }
    ensures none { IfOk result (λ found. IfNone found (IsNotCreated keys.now asked.now sequential text.now)) }
{
    keys.are_keys();
    let Some(path) = open_path(alloc, keys, text.as_str())? else {
        return Ok(None);
    };
    if !is_made_for(&path, asked, sequential)? {
        return Ok(None);
    }
    Ok(Some(Text::copy_of(alloc, path.text())?))
}

/// The plain path of a node that was synced. None exactly where it is not the one that was asked for.
#[tactic(auto, using(crate::proofs::Paths::paths))]
pub(crate) fn unveil_synced(
    alloc: Global,
    keys: &NameKeys,
    asked: &Path,
    text: &Text,
) -> Result<Option<Text>, Memory>
    requires { IsShort text.now }
    ensures some { IfOk result (λ found. IfSome found (IsSynced keys.now asked.now text.now)) }
    ensures none { IfOk result (λ found. IfNone found (Opens keys.now text.now asked.now → ⊥)) }
{
    keys.are_keys();
    let Some(path) = open_path(alloc, keys, text.as_str())? else {
        return Ok(None);
    };
    if !path.same(asked) {
        return Ok(None);
    }
    Ok(Some(Text::copy_of(alloc, path.text())?))
}
