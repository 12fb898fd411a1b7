//! Lines of a script, their words, and bytes in hex.

ghost use Rattle.std.specs.Prelude.{◌≡◌, ◌≢◌, List, ℕ, [], ◌∷◌, ◌++◌, ◌<◌, ◌≤◌, ◌==◌, IfOk, IfSome, IfNone, IsTrue, false, length, position};
ghost use Rattle.std.specs.Option.{option_copied};
ghost use Rattle.std.specs.Fmt.{decimal};
ghost use Rattle.replay_cli.specs.Lines.{lines, IsSkipped, spaced};
ghost use Rattle.replay_cli.specs.Reading.{HasNoSpace, IsHex, lines_after};

use crate::numbers::number_of;
use hex::FromHexError;
use jute_core::{Bytes, Memory};
use std::alloc::Global;

/// Why a text is no script.
#[derive(Clone, Copy, Debug, Drop, PartialEq, Eq)]
pub enum NotScript {
    /// The first line that fits no event where it stands, counted from 1.
    BadLine { line: u64 },
    /// There was no memory.
    Memory,
}

impl From<Memory> for NotScript {
    ghost use Rattle.replay_cli.specs.declared.lines.NotScript.TheVariants.{Memory as OutOfMemory};

    ghost from_gives = { λ _ e. e ≡ OutOfMemory };

    fn from(_: Memory) -> NotScript {
        NotScript::Memory
    }
}

// Where the first line feed is.
fn place_of_feed(text: &[u8]) -> Option<usize>
    ensures place { result ≡ position (λ b. b == 10) text.now }
    ensures within { IfSome result (λ at. at < length text.now) }
{
    text.iter().position(|b| *b == b'\n')
}

/// The first line, and what follows its line feed.
pub fn first_line(text: &[u8]) -> (&[u8], Option<&[u8]>)
    ensures { lines text.now ≡ result.0.now ∷ lines_after (option_copied result.1) }
{
    match place_of_feed(text) {
        Some(at) => {
            let (line, _) = text.split_at(at);
            let (_, rest) = text.split_at(at + 1);
            (line, Some(rest))
        }
        None => (text, None),
    }
}

/// Whether a line says nothing.
pub fn is_skipped(line: &[u8]) -> bool
    ensures yes { IsTrue result → IsSkipped line.now }
    ensures not_so { result ≡ false → IsSkipped line.now → ⊥ }
{
    line.is_empty() || line[0] == b'#'
}

/// What follows these bytes in front.
pub fn behind<'a>(text: &'a [u8], front: &[u8]) -> Option<&'a [u8]>
    ensures found { IfSome result (λ rest. text.now ≡ front.now ++ rest.now) }
    ensures none { IfNone result ((rest : List ℕ) → text.now ≢ front.now ++ rest) }
{
    let Some(rest) = text.strip_prefix(front) else {
        return None;
    };
    Some(rest)
}

// Where the first space is.
fn place_of_space(text: &[u8]) -> Option<usize>
    ensures place { result ≡ position (λ b. b == 32) text.now }
    ensures within { IfSome result (λ at. at < length text.now) }
{
    text.iter().position(|b| *b == b' ')
}

// What stands before the first space, and what after it.
fn first_word(text: &[u8]) -> Option<(&[u8], &[u8])>
    ensures found { IfSome result (λ parts. (text.now ≡ spaced parts.0.now parts.1.now)
        × HasNoSpace parts.0.now) }
    ensures none { IfNone result (HasNoSpace text.now) }
{
    let at = place_of_space(text)?;
    let (word, _) = text.split_at(at);
    let (_, rest) = text.split_at(at + 1);
    Some((word, rest))
}

/// A number of at most `most` in front of a space, and what follows that.
pub fn number_before(text: &[u8], most: u64) -> Option<(u64, &[u8])>
    ensures found { IfSome result (λ parts. (parts.0 ≤ most)
        × (text.now ≡ spaced (decimal parts.0) parts.1.now)) }
    ensures none { IfNone result ((n : ℕ) (rest : List ℕ) → n ≤ most
        → text.now ≢ spaced (decimal n) rest) }
{
    let Some((word, rest)) = first_word(text) else {
        return None;
    };
    let Some(number) = number_of(word, most) else {
        return None;
    };
    Some((number, rest))
}

/// The bytes that a text of lower-case hex digits spells, of which there are some.
pub fn hex_bytes(alloc: Global, digits: &[u8]) -> Result<Option<Bytes>, Memory>
    ensures found { IfOk result (λ o. IfSome o (λ bytes. IsHex digits.now bytes)) }
    ensures none { IfOk result (λ o. IfNone o ((bytes : List ℕ) → IsHex digits.now bytes → ⊥)) }
{
    let bytes = match hex::decode(alloc, digits) {
        Ok(bytes) => bytes,
        Err(fault) => match fault {
            FromHexError::OutOfMemory => return Err(Memory),
            _ => return Ok(None),
        },
    };
    let bytes = Bytes::of(bytes);
    if bytes.len() == 0 {
        return Ok(None);
    }
    let again = hex::encode(alloc, bytes.as_slice())?;
    if again.as_bytes() == digits {
        Ok(Some(bytes))
    } else {
        Ok(None)
    }
}
