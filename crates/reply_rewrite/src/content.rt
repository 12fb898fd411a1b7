//! The content of a node.

ghost use Rattle.std.specs.Prelude.{◌≡◌, ◌≤◌, ◌↔◌, pos, length, IfOk, IfErr, IfSome, IsTrue};
ghost use Rattle.payload_seal.specs.Payload.{content_of};
ghost use Rattle.reply_rewrite.specs.Caused.{IsCausedBy};
ghost use Rattle.reply_rewrite.specs.Stats.{IsPlainContent, IsContentCause};
ghost use Rattle.zk_messages.specs.Short.{IsShort};

use crate::finding::{Cause, NotPlain};
use crate::stat::{length_cause, plain_stat};
use jute_core::Bytes;
use payload_seal::{NotOpened, PayloadKeys, open_data};
use std::alloc::Global;
use zk_path::Path;
use zk_records::Stat;

/// A content and a Stat.
#[derive(Drop)]
pub(crate) struct Node {
    pub(crate) content: Option<Bytes>,
    pub(crate) stat: Stat,
}

// The bytes of a buffer: none of null.
fn bytes_of(buffer: &Option<Bytes>) -> &[u8]
    ensures { result.now ≡ content_of buffer.now }
{
    match buffer {
        Some(bytes) => bytes.as_slice(),
        None => b"",
    }
}

// Whether a Stat has the length of a content.
fn fits(stat: &Stat, content: &Option<Bytes>) -> bool
    ensures { IsTrue result ↔ (stat.now.length ≡ pos (length (content_of content.now))) }
{
    i64::from(stat.length) == bytes_of(content).len() as i64
}

/// The content that a payload has for a path, and the Stat with its length.
pub(crate) fn unveil_content(
    alloc: Global,
    keys: &PayloadKeys,
    path: &Path,
    payload: &Option<Bytes>,
    stored: &Stat,
) -> Result<Node, NotPlain>
    requires { IfSome payload.now IsShort }
    ensures plain { IfOk result (λ node. IsPlainContent keys.now path.now payload.now stored.now node.content node.stat) }
    ensures cause { IfErr result (IsCausedBy (IsContentCause keys.now path.now payload.now stored.now)) }
{
    let content = match open_data(alloc, keys, path, bytes_of(payload)) {
        Ok(content) => content,
        Err(NotOpened::Flawed(flaw)) => return Err(NotPlain::Caused(Cause::Payload(flaw))),
        Err(NotOpened::Memory) => return Err(NotPlain::Memory),
    };
    let Some(stat) = plain_stat(path, stored) else {
        return Err(NotPlain::Caused(length_cause(stored)));
    };
    if !fits(&stat, &content) {
        return Err(NotPlain::Caused(length_cause(stored)));
    }
    Ok(Node { content, stat })
}
