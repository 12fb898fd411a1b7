//! Bytes that wait for a connection.

ghost use Rattle.std.specs.Prelude.{◌≡◌, ◌++◌, ℕ, List, [], length, take, drop, min, IfOk, OnOk, OnErr};
ghost use Rattle.store_side.specs.Sending.{AddsFrame};

use crate::sending::append_frame;
use jute_core::Memory;
use std::alloc::Global;
use std::marker::Model;
use tree_state::Message;

/// The bytes that wait for a connection, in the order in which they will be pulled.
#[derive(Drop)]
pub struct Waiting {
    // the first bytes were pulled
    bytes: Vec<u8>,
    pulled: usize,
}

impl Model for Waiting {
    ghost use Rattle.std.specs.Prelude.{◌≤◌, ℕ, List, drop, vec_len};

    ghost Value = { List ℕ };

    ghost view = { λ w. drop w.pulled w.bytes.items };

    ghost invariant = { λ w. w.pulled ≤ vec_len w.bytes };
}

impl Waiting {
    /// None. Takes no memory.
    pub fn new(alloc: Global) -> Waiting
        ensures { result ≡ [] }
    {
        Waiting {
            bytes: Vec::new(alloc),
            pulled: 0,
        }
    }

    /// How many there are. Takes no memory.
    pub fn len(&self) -> usize
        ensures { result ≡ length self.now }
    {
        self.bytes.len() - self.pulled
    }

    /// Appends the frame of a message. Without memory all is as it was.
    pub fn push(&mut self, message: &Message) -> Result<(), Memory>
        ensures ok { OnOk result (AddsFrame self.old self.new message.now) }
        ensures err { OnErr result (self.new ≡ self.old) }
    {
        append_frame(message, &mut self.bytes)
    }

    /// Moves the first bytes behind `into`, as many as the lesser of the limit and what waits, and answers how many. The cost is
    /// linear in what is moved, in however many pieces. Without memory all is as it was.
    pub fn pull(&mut self, limit: usize, into: &mut Vec<u8>) -> Result<usize, Memory>
        ensures count { IfOk result (λ n. n ≡ min limit (length self.old)) }
        ensures moved { IfOk result (λ n. into.new.items ≡ into.old.items ++ take n self.old) }
        ensures left { IfOk result (λ n. self.new ≡ drop n self.old) }
        ensures err { OnErr result (self.new ≡ self.old) }
        ensures kept { OnErr result (into.new.items ≡ into.old.items) }
    {
        let count = limit.min(self.len());
        let end = self.pulled + count;
        into.extend_from_slice(&self.bytes[self.pulled..end])?;
        self.pulled = end;
        self.compact();
        Ok(count)
    }

    // Where most of what is kept was pulled, lets that go.
    fn compact(&mut self)
        ensures { self.new ≡ self.old }
    {
        if self.pulled == self.bytes.len() {
            self.bytes.clear();
            self.pulled = 0;
        } else if self.pulled > self.bytes.len() / 2 {
            self.bytes.drain(..self.pulled);
            self.pulled = 0;
        }
    }
}
