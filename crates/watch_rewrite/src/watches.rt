//! The watches that a client sets again, sealed.

ghost use Rattle.std.specs.Prelude.{All, IfOk, IfSome};
ghost use Rattle.zk_path.specs.Paths.{IsPathText};
ghost use Rattle.zk_messages.specs.Short.{IsShort};
ghost use Rattle.watch_rewrite.specs.Watches.{EachText, SealsText, SealsTexts, SealsList, VeilsWatches};

use jute_core::{Memory, Text, Texts};
use path_seal::{NameKeys, seal_path};
use std::alloc::Global;
use zk_path::{NotPath, read_path};
use zk_records::SetWatches;

// The sealed form of a legal path's text.
fn veil_text(alloc: Global, keys: &NameKeys, text: &str) -> Result<Text, Memory>
    requires legal { IsPathText text.now }
    requires short { IsShort text.now }
    ensures { IfOk result (SealsText keys.now text.now) }
{
    match read_path(alloc, text) {
        Ok(path) => seal_path(alloc, keys, &path),
        Err(NotPath::BadPath { place: _ }) => unreachable!(),
        Err(NotPath::Memory) => Err(Memory),
    }
}

// Each of these texts, sealed.
fn veil_texts(alloc: Global, keys: &NameKeys, texts: &[Text]) -> Result<Vec<Text>, Memory>
    requires legal { All IsPathText texts.now }
    requires short { All IsShort texts.now }
    ensures { IfOk result (λ veiled. SealsTexts keys.now texts.now veiled.items) }
{
    let mut veiled = Vec::with_capacity(alloc, texts.len())?;
    for text in texts {
        veiled.push(veil_text(alloc, keys, text.as_str())?)?;
    }
    Ok(veiled)
}

// A list of texts that may be null, sealed.
fn veil_list(alloc: Global, keys: &NameKeys, list: &Option<Texts>) -> Result<Option<Texts>, Memory>
    requires legal { IfSome list.now (All IsPathText) }
    requires short { IfSome list.now (All IsShort) }
    ensures { IfOk result (SealsList keys.now list.now) }
{
    match list {
        Some(texts) => {
            let veiled = veil_texts(alloc, keys, texts.as_slice())?;
            Ok(Some(Texts::of(veiled)))
        }
        None => Ok(None),
    }
}

/// The setWatches that the store is handed: each path sealed at its place in its list, and all else
/// as it is, null lists too.
pub fn veil_set_watches(
    alloc: Global,
    keys: &NameKeys,
    watches: &SetWatches,
) -> Result<SetWatches, Memory>
    requires legal { EachText IsPathText watches.now }
    requires short { EachText IsShort watches.now }
    ensures { IfOk result (VeilsWatches keys.now watches.now) }
{
    let content_paths = veil_list(alloc, keys, &watches.content_paths)?;
    let exist_paths = veil_list(alloc, keys, &watches.exist_paths)?;
    let child_paths = veil_list(alloc, keys, &watches.child_paths)?;
    Ok(SetWatches {
        seen: watches.seen,
        content_paths,
        exist_paths,
        child_paths,
    })
}
