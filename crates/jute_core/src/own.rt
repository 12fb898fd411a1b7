//! Fields of records: buffers, texts and lists of texts that a record owns.

ghost use Rattle.std.specs.Prelude.{◌<◌, ◌^◌, length, Some, IfSome, OnOk, OnErr};
ghost use Rattle.jute_core.specs.Jute.{buffer, ustring, vector};
ghost use Rattle.jute_core.specs.Position.{Adds, Appends, Grows};
ghost use Rattle.jute_core.specs.Records.{ReadsOrMemory};
ghost use Rattle.jute_core.specs.Lists.{AreShort};

use crate::cursor::Cursor;
use crate::held::{Bytes, Memory, Text, Texts};
use crate::not_read::NotRead;
use crate::put::{put_buffer, put_count, put_ustring};
use std::alloc::Global;

/// A buffer, copied. The cursor stands where it stood after an error.
#[tactic(auto, using(crate::proofs::Glue::glue))]
pub fn read_bytes(alloc: Global, cursor: &mut Cursor<'_>) -> Result<Option<Bytes>, NotRead>
    ensures { ReadsOrMemory cursor.old cursor.new buffer (λ b. b) result }
{
    let mut ahead = cursor.copy();
    let Some(bytes) = ahead.buffer()? else {
        *cursor = ahead;
        return Ok(None);
    };
    let bytes = Bytes::copy_of(alloc, bytes)?;
    *cursor = ahead;
    Ok(Some(bytes))
}

/// A text, copied. The cursor stands where it stood after an error.
#[tactic(auto, using(crate::proofs::Glue::glue))]
pub fn read_text(alloc: Global, cursor: &mut Cursor<'_>) -> Result<Text, NotRead>
    ensures { ReadsOrMemory cursor.old cursor.new ustring (λ t. t) result }
{
    let mut ahead = cursor.copy();
    let text = Text::copy_of(alloc, ahead.ustring()?)?;
    *cursor = ahead;
    Ok(text)
}

/// A buffer that a record owns, as `put_buffer`.
pub fn put_bytes(into: &mut Vec<u8>, value: &Option<Bytes>) -> Result<(), Memory>
    requires { IfSome value.now (λ b. length b < 2 ^ 31) }
    ensures { Appends into.old.items into.new.items buffer value.now result }
{
    match value {
        Some(bytes) => put_buffer(into, Some(bytes.as_slice())),
        None => put_buffer(into, None),
    }
}

/// Texts after their count, copied; `None` is null. The cursor stands where it stood after an
/// error. A text is read before memory is taken for it, whatever the count.
#[tactic(auto, using(crate::proofs::Glue::glue, crate::proofs::Many::lists))]
pub fn read_texts(alloc: Global, cursor: &mut Cursor<'_>) -> Result<Option<Texts>, NotRead>
    ensures { ReadsOrMemory cursor.old cursor.new (vector ustring) (λ t. t) result }
{
    let mut ahead = cursor.copy();
    let Some(count) = ahead.count()? else {
        *cursor = ahead;
        return Ok(None);
    };
    let mut texts = Vec::new(alloc);
    for _ in 0..count {
        texts.push(read_text(alloc, &mut ahead)?)?;
    }
    *cursor = ahead;
    Ok(Some(Texts::of(texts)))
}

// The count of the texts, and one text after another. Without memory some of them may be there.
#[tactic(auto, using(crate::proofs::Glue::glue))]
fn put_items(into: &mut Vec<u8>, texts: &[Text]) -> Result<(), Memory>
    requires { AreShort texts.now }
    ensures ok { OnOk result (Adds into.old.items into.new.items (vector ustring) (Some texts.now)) }
    ensures err { OnErr result (Grows into.old.items into.new.items) }
{
    put_count(into, Some(texts.len() as u32))?;
    for text in texts {
        put_ustring(into, text.as_str())?;
    }
    Ok(())
}

/// Texts that a record owns, after their count; -1 and nothing for `None`.
#[tactic(auto, using(crate::proofs::Many::lists))]
pub fn put_texts(into: &mut Vec<u8>, value: &Option<Texts>) -> Result<(), Memory>
    requires { IfSome value.now AreShort }
    ensures { Appends into.old.items into.new.items (vector ustring) value.now result }
{
    let Some(texts) = value else {
        put_count(into, None)?;
        return Ok(());
    };
    let before = into.len();
    let put = put_items(into, texts.as_slice());
    if put.is_err() {
        into.truncate(before);
    }
    put
}
