//! A client of a store in memory.

ghost use Rattle.std.specs.Prelude.{◌≡◌, ◌<◌, ◌≤◌, ◌∷◌, [], ◌++◌, length, take, drop, pos, IsTrue, IfOk, OnErr, All};
ghost use Rattle.jute_core.specs.Faults.{HasCause, Takes};
ghost use Rattle.store_side.specs.Owed.{IsTime};
ghost use Rattle.relay_io.specs.Lines.{FitsIn, GrewBy, LineCounts, line_events};
ghost use Rattle.relay_io.specs.MemoryDuos.{is_listed, one_more};
ghost use Rattle.relay_io.specs.MemoryLines.{LineState, line_told, time_of, gives_bytes, given, next_of, first_of, others_of, with_others, HearsAt, WaitedAt, WroteLine};
ghost use Rattle.relay_io.specs.Sides.{HasRisen};

use crate::line::{Line, LineEvent, LineHeard, LineWhat};
use crate::memory::{first_bytes, other_bytes, put_front};
use audit_board::Failed;
use jute_core::Memory;
use std::alloc::Global;
use std::marker::Model;

/// A client of a store in memory: what it does is given beforehand, and what is heard and written is kept.
///
/// The calls of `next` and `write` are numbered together. One whose number is listed fails, and so does one that finds no memory.
#[derive(Drop)]
pub struct MemoryLine {
    alloc: Global,
    left: Vec<LineEvent>,
    heard: Vec<LineEvent>,
    written: Vec<u8>,
    last: i64,
    calls: u64,
    fails: Vec<u64>,
    faults: u64,
    short: u64,
}

impl Model for MemoryLine {
    ghost use Rattle.std.specs.Prelude.{IsTrue, All};
    ghost use Rattle.std.specs.List.{list_all};
    ghost use Rattle.store_side.specs.Owed.{IsTime};
    ghost use Rattle.relay_io.specs.MemoryLines.{LineState, gives_bytes, time_of};

    ghost Value = { LineState };

    ghost view = { λ l. record {
      left = l.left.items;
      heard = l.heard.items;
      written = l.written.items;
      last = l.last;
      calls = l.calls;
      fails = l.fails.items;
      faults = l.faults;
      short = l.short;
    } };

    ghost invariant = { λ l. IsTime l.last × IsTrue (list_all gives_bytes l.left.items)
        × All (λ event. IsTime (time_of event)) l.left.items };
}

// Whether an event is not one for bytes that has none.
fn gives_bytes(event: &LineEvent) -> bool
    ensures { result ≡ gives_bytes event.now }
{
    match event {
        LineEvent::Bytes { bytes, .. } => 0 < bytes.len(),
        _ => true,
    }
}

// The events but those without bytes.
fn given(mut events: Vec<LineEvent>) -> Vec<LineEvent>
    ensures { result.items ≡ given events.items }
{
    events.retain(|event| gives_bytes(event));
    events
}

// When an event comes.
fn time_of(event: &LineEvent) -> i64
    ensures { result ≡ time_of event.now }
{
    match event {
        LineEvent::Bytes { at, .. } => *at,
        LineEvent::End { at } => *at,
        LineEvent::Idle { at } => *at,
    }
}

// As much of an event as a buffer of so many bytes takes.
fn first_of(alloc: Global, event: &LineEvent, room: usize) -> Result<LineEvent, Memory>
    ensures { IfOk result (λ first. first ≡ first_of room event.now) }
{
    match event {
        LineEvent::Bytes { at, bytes } => Ok(LineEvent::Bytes {
            at: *at,
            bytes: first_bytes(alloc, bytes.as_slice(), room)?,
        }),
        LineEvent::End { at } => Ok(LineEvent::End { at: *at }),
        LineEvent::Idle { at } => Ok(LineEvent::Idle { at: *at }),
    }
}

// What is left of an event then, if anything.
fn others_of(alloc: Global, event: &LineEvent, room: usize) -> Result<Option<LineEvent>, Memory>
    ensures { IfOk result (λ others. others ≡ others_of room event.now) }
{
    match event {
        LineEvent::Bytes { at, bytes } => {
            if bytes.len() <= room {
                return Ok(None);
            }
            Ok(Some(LineEvent::Bytes {
                at: *at,
                bytes: other_bytes(alloc, bytes.as_slice(), room)?,
            }))
        }
        _ => Ok(None),
    }
}

// Puts what is left of the first event in its place, or takes the event away.
fn leave(left: &mut Vec<LineEvent>, others: Option<LineEvent>)
    requires { 0 < length left.old.items }
    ensures { left.new.items ≡ with_others others (drop 1 left.old.items) }
{
    match others {
        Some(others) => left[0] = others,
        None => {
            left.remove(0);
        }
    }
}

// Puts the bytes of an event into the front of a buffer, and answers what was heard.
fn what_of(event: &LineEvent, buffer: &mut [u8]) -> LineWhat
    requires full { IsTrue (gives_bytes event.now) }
    requires fits { event.now ≡ first_of (length buffer.old) event.now }
    ensures within { FitsIn (length buffer.old) result }
    ensures told { line_events (time_of event.now) result buffer.new ≡ event.now ∷ [] }
{
    match event {
        LineEvent::Bytes { bytes, .. } => {
            put_front(bytes.as_slice(), buffer);
            LineWhat::Bytes(bytes.len())
        }
        LineEvent::End { .. } => LineWhat::End,
        LineEvent::Idle { .. } => LineWhat::Idle,
    }
}

impl MemoryLine {
    /// A line that gives these events in order, but those without bytes, and behind them an end again and again, at the time of the
    /// event before it. Bytes that do not fit the buffer come in several events. The calls with these numbers, from 0, fail; one that
    /// would give an event gives it at the next call that does not fail.
    pub fn new(alloc: Global, events: Vec<LineEvent>, fails: Vec<u64>) -> MemoryLine
        requires { All (λ event. IsTime (time_of event)) events.items }
        ensures { result ≡ record {
          left = given events.items;
          heard = [];
          written = [];
          last = pos 0;
          calls = 0;
          fails = fails.items;
          faults = 0;
          short = 0;
        } }
    {
        MemoryLine {
            alloc,
            left: given(events),
            heard: Vec::new(alloc),
            written: Vec::new(alloc),
            last: 0,
            calls: 0,
            fails,
            faults: 0,
            short: 0,
        }
    }

    /// The events heard so far, as they were cut.
    pub fn heard(&self) -> &[LineEvent]
        ensures { result.now ≡ self.now.heard }
    {
        self.heard.as_slice()
    }

    /// The bytes written to the client.
    pub fn taken(&self) -> &[u8]
        ensures { result.now ≡ self.now.written }
    {
        self.written.as_slice()
    }

    /// How often there was no memory for what was heard or written.
    pub fn short(&self) -> u64
        ensures { result ≡ self.now.short }
    {
        self.short
    }

    // Counts a call, and answers whether it fails.
    fn fails(&mut self) -> bool
        ensures listed { result ≡ is_listed self.old.fails self.old.calls }
        ensures counted { self.new ≡ record self.old { calls = one_more self.old.calls } }
    {
        let call = self.calls;
        self.calls = call.saturating_add(1);
        self.fails.contains(&call)
    }

    // Counts a fault.
    fn count_fault(&mut self)
        ensures risen { HasRisen self.old.faults self.new.faults }
        ensures counted { self.new ≡ record self.old { faults = one_more self.old.faults } }
    {
        self.faults = self.faults.saturating_add(1);
    }

    // Counts a fault for want of memory.
    fn count_short(&mut self)
        ensures { self.new ≡ record self.old { short = one_more self.old.short } }
    {
        self.short = self.short.saturating_add(1);
    }

    // The failure of a call.
    fn fail(&mut self) -> LineHeard
        ensures time { result.at ≡ self.old.last }
        ensures timely { IsTime result.at }
        ensures what { result.what ≡ LineWhat.Failed }
        ensures risen { HasRisen self.old.faults self.new.faults }
        ensures counted { self.new ≡ record self.old { faults = one_more self.old.faults } }
    {
        self.count_fault();
        LineHeard {
            at: self.last,
            what: LineWhat::Failed,
        }
    }

    // Hears the event that is to come, or as much of it as the buffer holds.
    fn hear(&mut self, buffer: &mut [u8]) -> Result<LineHeard, Memory>
        requires { 0 < length buffer.old }
        ensures time { IfOk result (λ heard. IsTime heard.at) }
        ensures within { IfOk result (λ heard. FitsIn (length buffer.old) heard.what) }
        ensures heard { IfOk result (λ heard. HearsAt (length buffer.old) self.old self.new buffer.new heard.at heard.what) }
        ensures err { OnErr result (self.new ≡ self.old) }
    {
        let room = buffer.len();
        let Some(event) = self.left.first() else {
            let at = self.last;
            self.heard.push(LineEvent::End { at })?;
            return Ok(LineHeard {
                at,
                what: LineWhat::End,
            });
        };
        let at = time_of(event);
        let first = first_of(self.alloc, event, room)?;
        let others = others_of(self.alloc, event, room)?;
        let what = what_of(&first, buffer);
        self.heard.push(first)?;
        leave(&mut self.left, others);
        self.last = at;
        Ok(LineHeard { at, what })
    }
}

impl Line for MemoryLine {
    ghost use Rattle.relay_io.specs.MemoryLines.{line_told};

    ghost told = { line_told };

    fn next(&mut self, buffer: &mut [u8]) -> LineHeard
        requires { 0 < length buffer.old }
        ensures time { IsTime result.at }
        ensures within { FitsIn (length buffer.old) result.what }
        ensures grew { GrewBy (line_told self.old).events (line_told self.new).events (line_events result.at result.what buffer.new) }
        ensures counts { LineCounts result.what (line_told self.old) (line_told self.new) }
        ensures unwritten { (line_told self.new).written ≡ (line_told self.old).written }
        ensures state { WaitedAt (length buffer.old) self.old self.new buffer.new result.at result.what }
    {
        if self.fails() {
            return self.fail();
        }
        match self.hear(buffer) {
            Ok(heard) => heard,
            Err(_) => {
                self.count_short();
                self.fail()
            }
        }
    }

    fn write(&mut self, piece: &[u8]) -> Result<(), Failed>
        ensures bytes { Takes (line_told self.old).written (line_told self.new).written piece.now result }
        ensures cause { HasCause (line_told self.old).faults (line_told self.new).faults result }
        ensures unheard { (line_told self.new).events ≡ (line_told self.old).events }
        ensures state { WroteLine piece.now self.old self.new result }
    {
        if self.fails() {
            self.count_fault();
            return Err(Failed);
        }
        if self.written.extend_from_slice(piece).is_err() {
            self.count_fault();
            self.count_short();
            return Err(Failed);
        }
        Ok(())
    }

    fn named(&mut self, _connection: u32)
        ensures { self.new ≡ self.old }
    {}

    fn faults(&self) -> u64 {
        self.faults
    }
}
