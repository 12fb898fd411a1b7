//! A client and a store in memory.

ghost use Rattle.std.specs.Prelude.{◌≡◌, ◌<◌, ◌≤◌, ◌∷◌, [], ◌++◌, length, take, drop, Some, IsTrue, IfOk, OnErr};
ghost use Rattle.jute_core.specs.Faults.{HasCause, Takes};
ghost use Rattle.relay_io.specs.Sides.{IsWithin, told_by, Grew, Counts, WritesNothing, ClientStays, StoreStays};
ghost use Rattle.relay_io.specs.MemoryDuos.{DuoState, told_of, has_bytes, filled, coming, front_of, rest_of, is_of_store, is_listed, one_more, Fails, Hears, Waited, WroteClient, WroteStore};

use crate::duo::{Duo, DuoEvent, Heard};
use audit_board::Failed;
use jute_core::{Bytes, Memory};
use std::alloc::Global;
use std::marker::Model;

/// A client and a store in memory: what they do is given beforehand, and what is heard and written is kept.
///
/// The calls of `next`, `write_client` and `write_store` are numbered together. One whose number is listed fails, and so does one
/// that finds no memory.
#[derive(Drop)]
pub struct MemoryDuo {
    alloc: Global,
    left: Vec<DuoEvent>,
    heard: Vec<DuoEvent>,
    to_client: Vec<u8>,
    to_store: Vec<u8>,
    calls: u64,
    fails: Vec<u64>,
    client_faults: u64,
    store_faults: u64,
    short: u64,
}

impl Model for MemoryDuo {
    ghost use Rattle.std.specs.Prelude.{IsTrue};
    ghost use Rattle.std.specs.List.{list_all};
    ghost use Rattle.relay_io.specs.MemoryDuos.{DuoState, has_bytes};

    ghost Value = { DuoState };

    ghost view = { λ d. record {
      left = d.left.items;
      heard = d.heard.items;
      to_client = d.to_client.items;
      to_store = d.to_store.items;
      calls = d.calls;
      fails = d.fails.items;
      client_faults = d.client_faults;
      store_faults = d.store_faults;
      short = d.short;
    } };

    ghost invariant = { λ d. IsTrue (list_all has_bytes d.left.items) };
}

// Whether an event is not one for bytes that has none.
fn has_bytes(event: &DuoEvent) -> bool
    ensures { result ≡ has_bytes event.now }
{
    match event {
        DuoEvent::Client(bytes) => 0 < bytes.len(),
        DuoEvent::Store(bytes) => 0 < bytes.len(),
        _ => true,
    }
}

// The events but those without bytes.
fn filled(mut events: Vec<DuoEvent>) -> Vec<DuoEvent>
    ensures { result.items ≡ filled events.items }
{
    events.retain(|event| has_bytes(event));
    events
}

// Whether an event is the store's.
fn is_of_store(event: &DuoEvent) -> bool
    ensures { result ≡ is_of_store event.now }
{
    matches!(event, DuoEvent::Store(_) | DuoEvent::StoreEnd)
}

// The first of these bytes, so many at most.
pub(crate) fn first_bytes(alloc: Global, bytes: &[u8], room: usize) -> Result<Bytes, Memory>
    ensures { IfOk result (λ first. first ≡ take room bytes.now) }
{
    let count = bytes.len().min(room);
    Ok(Bytes::of(Vec::from_slice(alloc, &bytes[..count])?))
}

// The bytes behind these.
pub(crate) fn other_bytes(alloc: Global, bytes: &[u8], room: usize) -> Result<Bytes, Memory>
    requires { room ≤ length bytes.now }
    ensures { IfOk result (λ rest. rest ≡ drop room bytes.now) }
{
    Ok(Bytes::of(Vec::from_slice(alloc, &bytes[room..])?))
}

// As much of an event as a buffer of so many bytes takes.
fn front_of(alloc: Global, event: &DuoEvent, room: usize) -> Result<DuoEvent, Memory>
    ensures { IfOk result (λ front. front ≡ front_of room event.now) }
{
    match event {
        DuoEvent::Client(bytes) => {
            let first = first_bytes(alloc, bytes.as_slice(), room)?;
            Ok(DuoEvent::Client(first))
        }
        DuoEvent::Store(bytes) => {
            let first = first_bytes(alloc, bytes.as_slice(), room)?;
            Ok(DuoEvent::Store(first))
        }
        DuoEvent::ClientEnd => Ok(DuoEvent::ClientEnd),
        DuoEvent::StoreEnd => Ok(DuoEvent::StoreEnd),
        DuoEvent::Idle => Ok(DuoEvent::Idle),
    }
}

// What is left of an event then, if anything.
fn rest_of(alloc: Global, event: &DuoEvent, room: usize) -> Result<Option<DuoEvent>, Memory>
    ensures { IfOk result (λ rest. rest ≡ rest_of room event.now) }
{
    match event {
        DuoEvent::Client(bytes) => {
            if bytes.len() <= room {
                return Ok(None);
            }
            Ok(Some(DuoEvent::Client(other_bytes(alloc, bytes.as_slice(), room)?)))
        }
        DuoEvent::Store(bytes) => {
            if bytes.len() <= room {
                return Ok(None);
            }
            Ok(Some(DuoEvent::Store(other_bytes(alloc, bytes.as_slice(), room)?)))
        }
        _ => Ok(None),
    }
}

// Puts bytes into the front of a buffer.
pub(crate) fn put_front(bytes: &[u8], buffer: &mut [u8])
    requires { length bytes.now ≤ length buffer.old }
    ensures { take (length bytes.now) buffer.new ≡ bytes.now }
{
    buffer[..bytes.len()].copy_from_slice(bytes);
}

// Puts the bytes of an event into the front of a buffer, and answers what was heard.
fn told(event: &DuoEvent, buffer: &mut [u8]) -> Heard
    requires full { IsTrue (has_bytes event.now) }
    requires fits { event.now ≡ front_of (length buffer.old) event.now }
    ensures within { IsWithin (length buffer.old) result }
    ensures told { told_by result buffer.new ≡ event.now ∷ [] }
{
    match event {
        DuoEvent::Client(bytes) => {
            put_front(bytes.as_slice(), buffer);
            Heard::Client(bytes.len())
        }
        DuoEvent::Store(bytes) => {
            put_front(bytes.as_slice(), buffer);
            Heard::Store(bytes.len())
        }
        DuoEvent::ClientEnd => Heard::ClientEnd,
        DuoEvent::StoreEnd => Heard::StoreEnd,
        DuoEvent::Idle => Heard::Idle,
    }
}

impl MemoryDuo {
    /// A duo that gives these events in order, but those without bytes, and after them the client's end again and again. Bytes that
    /// do not fit the buffer come in several events. The calls with these numbers, from 0, fail; one that would give an event gives
    /// it at the next call that does not fail.
    pub fn new(alloc: Global, events: Vec<DuoEvent>, fails: Vec<u64>) -> MemoryDuo
        ensures { result ≡ record {
          left = filled events.items;
          heard = [];
          to_client = [];
          to_store = [];
          calls = 0;
          fails = fails.items;
          client_faults = 0;
          store_faults = 0;
          short = 0;
        } }
    {
        MemoryDuo {
            alloc,
            left: filled(events),
            heard: Vec::new(alloc),
            to_client: Vec::new(alloc),
            to_store: Vec::new(alloc),
            calls: 0,
            fails,
            client_faults: 0,
            store_faults: 0,
            short: 0,
        }
    }

    /// The events heard so far, as they were cut.
    pub fn heard(&self) -> &[DuoEvent]
        ensures { result.now ≡ self.now.heard }
    {
        self.heard.as_slice()
    }

    /// The bytes written to the client.
    pub fn client_taken(&self) -> &[u8]
        ensures { result.now ≡ self.now.to_client }
    {
        self.to_client.as_slice()
    }

    /// The bytes written to the store.
    pub fn store_taken(&self) -> &[u8]
        ensures { result.now ≡ self.now.to_store }
    {
        self.to_store.as_slice()
    }

    /// How often there was no memory for what was heard or written.
    pub fn short(&self) -> u64
        ensures { result ≡ self.now.short }
    {
        self.short
    }

    // Counts a call, and answers whether it fails.
    fn fails(&mut self) -> bool
        ensures listed { result ≡ is_listed self.old.fails self.old.calls }
        ensures counted { self.new ≡ record self.old { calls = one_more self.old.calls } }
    {
        let call = self.calls;
        self.calls = call.saturating_add(1);
        self.fails.contains(&call)
    }

    // Counts a fault for want of memory.
    fn count_short(&mut self)
        ensures { self.new ≡ record self.old { short = one_more self.old.short } }
    {
        self.short = self.short.saturating_add(1);
    }

    // Fails on the side of the event that is to come.
    fn fail(&mut self) -> Heard
        ensures fails { Fails self.old self.new result }
        ensures client_later { self.old.client_faults ≤ self.new.client_faults }
        ensures store_later { self.old.store_faults ≤ self.new.store_faults }
    {
        let of_store = match self.left.first() {
            Some(event) => is_of_store(event),
            None => false,
        };
        if of_store {
            self.store_faults = self.store_faults.saturating_add(1);
            return Heard::StoreFailed;
        }
        self.client_faults = self.client_faults.saturating_add(1);
        Heard::ClientFailed
    }

    // Hears the event that is to come, or as much of it as the buffer holds.
    fn hear(&mut self, buffer: &mut [u8]) -> Result<Heard, Memory>
        requires { 0 < length buffer.old }
        ensures within { IfOk result (λ heard. IsWithin (length buffer.old) heard) }
        ensures heard { IfOk result (λ heard. Hears (length buffer.old) self.old self.new buffer.new heard) }
        ensures err { OnErr result (self.new ≡ self.old) }
    {
        let room = buffer.len();
        let Some(event) = self.left.first() else {
            self.heard.push(DuoEvent::ClientEnd)?;
            return Ok(Heard::ClientEnd);
        };
        let front = front_of(self.alloc, event, room)?;
        let rest = rest_of(self.alloc, event, room)?;
        let heard = told(&front, buffer);
        self.heard.push(front)?;
        match rest {
            Some(rest) => self.left[0] = rest,
            None => {
                self.left.remove(0);
            }
        }
        Ok(heard)
    }
}

impl Duo for MemoryDuo {
    ghost use Rattle.relay_io.specs.MemoryDuos.{told_of};

    ghost told = { told_of };

    fn next(&mut self, buffer: &mut [u8]) -> Heard
        requires { 0 < length buffer.old }
        ensures within { IsWithin (length buffer.old) result }
        ensures grew { Grew (told_of self.old).events (told_of self.new).events (told_by result buffer.new) }
        ensures counts { Counts result (told_of self.old) (told_of self.new) }
        ensures unwritten { WritesNothing (told_of self.old) (told_of self.new) }
        ensures state { Waited (length buffer.old) self.old self.new buffer.new result }
    {
        if self.fails() {
            return self.fail();
        }
        match self.hear(buffer) {
            Ok(heard) => heard,
            Err(_) => {
                self.count_short();
                self.fail()
            }
        }
    }

    fn write_client(&mut self, piece: &[u8]) -> Result<(), Failed>
        ensures bytes { Takes (told_of self.old).to_client (told_of self.new).to_client piece.now result }
        ensures cause { HasCause (told_of self.old).client_faults (told_of self.new).client_faults result }
        ensures other { StoreStays (told_of self.old) (told_of self.new) }
        ensures state { WroteClient piece.now self.old self.new result }
    {
        if self.fails() {
            self.client_faults = self.client_faults.saturating_add(1);
            return Err(Failed);
        }
        if self.to_client.extend_from_slice(piece).is_err() {
            self.client_faults = self.client_faults.saturating_add(1);
            self.count_short();
            return Err(Failed);
        }
        Ok(())
    }

    fn write_store(&mut self, piece: &[u8]) -> Result<(), Failed>
        ensures bytes { Takes (told_of self.old).to_store (told_of self.new).to_store piece.now result }
        ensures cause { HasCause (told_of self.old).store_faults (told_of self.new).store_faults result }
        ensures other { ClientStays (told_of self.old) (told_of self.new) }
        ensures state { WroteStore piece.now self.old self.new result }
    {
        if self.fails() {
            self.store_faults = self.store_faults.saturating_add(1);
            return Err(Failed);
        }
        if self.to_store.extend_from_slice(piece).is_err() {
            self.store_faults = self.store_faults.saturating_add(1);
            self.count_short();
            return Err(Failed);
        }
        Ok(())
    }

    fn client_faults(&self) -> u64 {
        self.client_faults
    }

    fn store_faults(&self) -> u64 {
        self.store_faults
    }
}
