//! A framer takes bytes as they come, and hands out whole frames.

ghost use Rattle.std.specs.Prelude.{◌≡◌, ◌⊎◌, ◌↔◌, ◌<ℤ◌, ℕ, ℤ, pos};
ghost use Rattle.std.specs.Prelude.{◌+◌, ◌-◌, ◌<◌, ◌≤◌, ◌++◌, List, [], length, take, min, false, Ok, Err, IfOk, IfErr, IfSome, IfNone, OnErr, IsTrue};
ghost use Rattle.jute_core.specs.Frames.{IsRest};
ghost use Rattle.jute_core.specs.Jute.{IsInt};
ghost use Rattle.zk_frame.specs.Framing.{IsWhole, Waits, IsOpen, IsTooLong, Feeds, Takes};
ghost use Rattle.zk_frame.specs.Kept.{IsFilled, IsKept};

use jute_core::{Bytes, Memory};
use std::alloc::Global;
use std::marker::Model;
use std::mem;
use thiserror::Error;

/// Why bytes were not taken.
#[derive(Clone, Copy, Debug, Drop, PartialEq, Eq, Error)]
pub enum FrameFault {
    /// The prefix names a length that is negative or above the limit.
    #[error("a frame of length {length}")]
    TooLong {
        /// That length.
        length: i32,
    },
    /// There was no memory for the bytes.
    #[error("no memory")]
    Memory,
}

/// Takes bytes as they come, however they are cut, and keeps those of one frame.
///
/// The bytes of the body are kept apart from its length, so that the body is handed out as it is;
/// it grows with the bytes that come, whatever length was named.
#[derive(Drop)]
pub struct Framer {
    alloc: Global,
    limit: u32,
    prefix: [u8; 4],
    filled: usize,
    body: Vec<u8>,
}

impl Model for Framer {
    ghost use Rattle.zk_frame.specs.Framing.{Framing};
    ghost use Rattle.zk_frame.specs.Kept.{kept, IsKept};

    ghost Value = { Framing };

    ghost view = { λ f. kept f.limit f.filled f.prefix f.body.items };

    ghost invariant = { λ f. IsKept f.limit f.filled f.prefix f.body.items };
}

// The length that the prefix names, or as an error one that is negative or above the limit.
fn body_length(prefix: [u8; 4], limit: u32) -> Result<usize, i32>
    ensures ok { IfOk result (λ size. IsInt (pos size) prefix × (size ≤ limit)) }
    ensures err { IfErr result (λ z. IsInt z prefix × ((z <ℤ pos 0) ⊎ (pos limit <ℤ z))) }
{
    let length = i32::from_be_bytes(prefix);
    if length < 0 {
        return Err(length);
    }
    if length as u32 > limit {
        return Err(length);
    }
    Ok(length as usize)
}

// Takes the bytes that the prefix lacks, and answers how many.
fn fill_prefix(prefix: &mut [u8; 4], filled: usize, piece: &[u8]) -> usize
    requires { filled ≤ 4 }
    ensures { IsFilled filled prefix.old prefix.new piece.now result }
{
    let count = piece.len().min(4 - filled);
    prefix[filled..filled + count].copy_from_slice(&piece[..count]);
    count
}

// Takes the bytes that the body lacks, and answers how many.
fn fill_body(body: &mut Vec<u8>, lacking: usize, piece: &[u8]) -> Result<usize, Memory>
    ensures ok { IfOk result (λ n. (n ≡ min lacking (length piece.now))
        × (body.new.items ≡ body.old.items ++ take n piece.now)) }
    ensures err { OnErr result ((body.new.items ≡ body.old.items) × (0 < min lacking (length piece.now))) }
{
    let count = piece.len().min(lacking);
    if count == 0 {
        return Ok(0);
    }
    body.extend_from_slice(&piece[..count])?;
    Ok(count)
}

// Whether what is kept is a whole frame.
fn is_whole(limit: u32, filled: usize, prefix: [u8; 4], body: &[u8]) -> bool
    requires { IsKept limit filled prefix body.now }
    ensures whole { IsTrue result → IsWhole limit (take filled prefix ++ body.now) body.now }
    ensures rest { result ≡ false → IsRest (take filled prefix ++ body.now) }
{
    if filled < 4 {
        return false;
    }
    let Ok(size) = body_length(prefix, limit) else {
        return false;
    };
    size == body.len()
}

impl Framer {
    /// A framer that holds nothing, for bodies of at most so many bytes. Takes no memory.
    pub fn new(alloc: Global, limit: u32) -> Framer
        ensures { result ≡ record { limit = limit; held = [] } }
    {
        Framer {
            alloc,
            limit,
            prefix: [0; 4],
            filled: 0,
            body: Vec::new(alloc),
        }
    }

    /// How many bytes are kept: at most those of one frame, which are the limit and 4.
    pub fn held(&self) -> usize
        ensures held { result ≡ length self.now.held }
        ensures bounded { result ≤ self.now.limit + 4 }
    {
        self.filled + self.body.len()
    }

    /// Takes bytes up to the end of the present frame, and answers how many. 0 comes exactly where
    /// the piece is empty or a whole frame waits, unless a length was refused before.
    ///
    /// # Errors
    /// `TooLong` exactly where the four bytes of the prefix name a length that is negative or above
    /// the limit. They are held then, and no more, so each later feed answers it again. After
    /// `Memory` the framer is as it was.
    pub fn feed(&mut self, piece: &[u8]) -> Result<usize, FrameFault>
        ensures taken { IfOk result (λ n. Feeds self.old self.new piece.now n) }
        ensures none { (result ≡ Ok 0) ↔ (IsOpen self.old × ((piece.now ≡ []) ⊎ Waits self.old)) }
        ensures too_long { (length : ℤ) → (result ≡ Err (FrameFault.TooLong length))
            ↔ IsTooLong self.old.limit (self.old.held ++ piece.now) length }
        ensures prefix { (length : ℤ) → result ≡ Err (FrameFault.TooLong length)
            → self.new ≡ record self.old { held = take 4 (self.old.held ++ piece.now) } }
        ensures memory { result ≡ Err FrameFault.Memory → self.new ≡ self.old }
    {
        let filled = self.filled;
        let taken = fill_prefix(&mut self.prefix, filled, piece);
        self.filled = filled + taken;
        if self.filled < 4 {
            return Ok(taken);
        }
        let size = match body_length(self.prefix, self.limit) {
            Ok(size) => size,
            Err(length) => return Err(FrameFault::TooLong { length }),
        };
        let (_, rest) = piece.split_at(taken);
        let lacking = size - self.body.len();
        match fill_body(&mut self.body, lacking, rest) {
            Ok(count) => Ok(taken + count),
            Err(_) => {
                self.filled = filled;
                Err(FrameFault::Memory)
            }
        }
    }

    /// Lends the body of the frame that waits. `None` comes exactly where no whole frame waits. Takes no memory.
    pub fn whole(&self) -> Option<&[u8]>
        ensures some { IfSome result (λ body. IsWhole self.now.limit self.now.held body.now) }
        ensures rest { IfNone result (IsRest self.now.held) }
    {
        if !is_whole(self.limit, self.filled, self.prefix, self.body.as_slice()) {
            return None;
        }
        Some(self.body.as_slice())
    }

    /// Drops the frame that waits, and then holds nothing; `true` exactly where one waited. Takes no
    /// memory. What the body took is kept for the next one.
    pub fn end_frame(&mut self) -> bool
        ensures ended { IsTrue result → (body : List ℕ) × Takes self.old self.new body }
        ensures none { result ≡ false → self.new ≡ self.old }
        ensures rest { result ≡ false → IsRest self.old.held }
    {
        if !is_whole(self.limit, self.filled, self.prefix, self.body.as_slice()) {
            return false;
        }
        self.filled = 0;
        self.body.clear();
        true
    }

    /// Hands out the body of the frame that waits, as it is, and then holds nothing. `None` comes
    /// exactly where no whole frame waits. Takes no memory.
    pub fn take(&mut self) -> Option<Bytes>
        ensures some { IfSome result (λ body. Takes self.old self.new body) }
        ensures none { IfNone result (self.new ≡ self.old) }
        ensures rest { IfNone result (IsRest self.old.held) }
    {
        if !is_whole(self.limit, self.filled, self.prefix, self.body.as_slice()) {
            return None;
        }
        self.filled = 0;
        Some(Bytes::of(mem::replace(&mut self.body, Vec::new(self.alloc))))
    }
}
