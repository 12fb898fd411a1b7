//! The connections of a store: the bytes that wait for each, those of a frame that has not come whole, and why it is over.

ghost use Rattle.std.specs.Prelude.{◌≡◌, ◌⊎◌, ◌+◌, ◌-◌, ◌≤◌, ◌^◌, ◌++◌, ◌∷◌, ℕ, List, [], true, false, length, take, drop, min, Err, Some, None, IfOk, IfErr, OnOk, OnErr, is_ok};
ghost use Rattle.tree_state.specs.Changes.{Naming};
ghost use Rattle.store_side.specs.Fitting.{AllCanBeSent, CanBeSent, frame_limit};
ghost use Rattle.store_side.specs.Past.{Past as Went};
ghost use Rattle.store_side.specs.Follows.{IsAdmitted};
ghost use Rattle.store_side.specs.Calls.{admitted_one, after_pull};
ghost use Rattle.store_side.specs.Out.{to_connection};
ghost use Rattle.store_side.specs.declared.ending.StoreEnding.{StoreEnding as PlainEnding};
ghost use Rattle.tree_server.specs.Connections.{AreLines, IsPart, SpellEach, told_more, with_ending, with_rest};
ghost use Rattle.tree_server.specs.Connections.{IsPlace, ending_of, unwritten_in, TakesOut, put_back, over_by, AddsTold, Writes, WritesFirst, Holds, HoldsRest};
ghost use Rattle.tree_server.specs.Machines.{fresh};

use crate::sending::frame_length;
use crate::waiting::Waiting;
use jute_core::Memory;
use std::alloc::Global;
use std::mem;
use store_side::StoreEnding;
use tree_state::{Message, Output, Outputs};
use zk_frame::Framer;

/// How a connection stands: its frames are taken, or it is over.
#[derive(Drop)]
pub enum Standing {
    Open(Framer),
    Over(StoreEnding),
}

/// What is kept of a connection.
#[derive(Drop)]
pub struct Line {
    pub waiting: Waiting,
    /// How many bytes, at most, were told and could not be written yet.
    pub held: usize,
    /// Whether it is among those called.
    pub noted: bool,
    pub standing: Standing,
}

const FRAME_LIMIT: u32 = 134_217_728;

// Where the line of a connection stands; they are numbered from 1. For 0 it is past every end.
fn place(connection: u32) -> usize
    ensures { IsPlace connection result }
{
    (connection as usize).wrapping_sub(1)
}

impl Line {
    // The line of a connection that comes. Takes no memory.
    fn new(alloc: Global) -> Line
        ensures { result ≡ record { waiting = []; held = 0; noted = false; standing = Standing.Open (record { limit = frame_limit; held = [] }) } }
    {
        Line {
            waiting: Waiting::new(alloc),
            held: 0,
            noted: false,
            standing: Standing::Open(Framer::new(alloc, FRAME_LIMIT)),
        }
    }

    fn take_framer(&mut self, alloc: Global) -> Result<Framer, StoreEnding>
        ensures taken { TakesOut self.old.standing self.new.standing result }
        ensures kept { self.new ≡ record self.old { standing = self.new.standing } }
    {
        match &mut self.standing {
            Standing::Open(framer) => Ok(mem::replace(framer, Framer::new(alloc, FRAME_LIMIT))),
            Standing::Over(ending) => Err(*ending),
        }
    }

    fn put_framer(&mut self, framer: Framer)
        ensures { self.new ≡ record self.old { standing = put_back framer self.old.standing } }
    {
        match self.standing {
            Standing::Open(_) => self.standing = Standing::Open(framer),
            Standing::Over(_) => {}
        }
    }

    fn end(&mut self, ending: StoreEnding)
        ensures { self.new ≡ record self.old { standing = over_by ending self.old.standing } }
    {
        match self.standing {
            Standing::Open(_) => self.standing = Standing::Over(ending),
            Standing::Over(_) => {}
        }
    }

    fn ending(&self) -> Option<StoreEnding>
        ensures { result ≡ ending_of self.now.standing }
    {
        match &self.standing {
            Standing::Open(_) => None,
            Standing::Over(ending) => Some(*ending),
        }
    }

    fn pull(&mut self, limit: usize, into: &mut Vec<u8>) -> Result<usize, Memory>
        ensures count { IfOk result (λ n. n ≡ min limit (length self.old.waiting)) }
        ensures moved { IfOk result (λ n. into.new.items ≡ into.old.items ++ take n self.old.waiting) }
        ensures left { IfOk result (λ n. self.new ≡ record self.old { waiting = drop n self.old.waiting }) }
        ensures err { OnErr result (self.new ≡ self.old) }
        ensures kept { OnErr result (into.new.items ≡ into.old.items) }
    {
        self.waiting.pull(limit, into)
    }

    // Writes a message behind what waits. Without memory all is as it was.
    fn tell(&mut self, message: &Message) -> Result<(), Memory>
        ensures ok { OnOk result (AddsTold self.old self.new message.now) }
        ensures err { OnErr result (self.new ≡ self.old) }
    {
        let before = self.waiting.len();
        self.waiting.push(message)?;
        let written = self.waiting.len() - before;
        self.held = self.held.saturating_sub(written);
        Ok(())
    }

    // Notes the connection among those called, if it is not.
    fn note(&mut self, connection: u32, called: &mut Vec<u32>)
        ensures { self.new ≡ record self.old { noted = self.new.noted } }
    {
        if !self.noted {
            self.noted = called.push(connection).is_ok();
        }
    }

    fn hold(&mut self, bytes: usize)
        ensures { self.new ≡ record self.old { held = min (self.old.held + bytes) (2 ^ 64 - 1) } }
    {
        self.held = self.held.saturating_add(bytes);
    }

    fn forget_note(&mut self)
        ensures { self.new ≡ record self.old { noted = false } }
    {
        self.noted = false;
    }
}

// Writes a message behind what waits for its connection; one to a number that is no connection's is passed over. Without memory all
// is as it was.
fn tell(lines: &mut Vec<Line>, called: &mut Vec<u32>, output: &Output) -> Result<(), Memory>
    ensures ok { OnOk result (Writes lines.old.items lines.new.items (output.now ∷ [])) }
    ensures err { OnErr result (lines.new.items ≡ lines.old.items) }
{
    if let Some(line) = lines.get_mut(place(output.connection)) {
        line.tell(&output.message)?;
        line.note(output.connection, called);
    }
    Ok(())
}

// Counts the bytes of a message as held back for its connection, for which they wait as well.
fn hold(lines: &mut Vec<Line>, called: &mut Vec<u32>, output: &Output)
    ensures { CanBeSent output.now.message → Holds lines.old.items lines.new.items (output.now ∷ []) }
{
    let bytes = frame_length(&output.message);
    if let Some(line) = lines.get_mut(place(output.connection)) {
        line.hold(bytes);
        line.note(output.connection, called);
    }
}

/// What is kept of the connections, in the order of their numbers; and what was told and is not written for them yet, of which the
/// first ones are.
#[derive(Drop)]
pub struct Lines {
    pub alloc: Global,
    pub lines: Vec<Line>,
    pub unwritten: Outputs,
    pub written: usize,
    // connections to which bytes have come, each once
    pub called: Vec<u32>,
}

impl Lines {
    /// No connection. Takes no memory.
    pub(crate) fn new(alloc: Global) -> Lines
        ensures { (naming : Naming) (key : List ℕ) (limit : ℕ) → AreLines result (fresh naming key limit) }
    {
        Lines {
            alloc,
            lines: Vec::new(alloc),
            unwritten: Outputs::of(Vec::new(alloc)),
            written: 0,
            called: Vec::new(alloc),
        }
    }

    /// Admits a connection, and answers its number.
    ///
    /// # Errors
    /// `NumbersUsed` exactly where 4,294,967,295 were admitted; or `Memory`.
    pub(crate) fn admit(&mut self) -> Result<u32, StoreEnding>
        ensures number { IfOk result (λ c. (past : Went) → AreLines self.old past → (c ≡ past.admitted + 1) × AreLines self.new (admitted_one past)) }
        ensures same { OnErr result ((past : Went) → AreLines self.old past → AreLines self.new past) }
        ensures used { (past : Went) → AreLines self.old past → result ≡ Err StoreEnding.NumbersUsed → past.admitted ≡ 2 ^ 32 - 1 }
        ensures why { IfErr result (λ e. (e ≡ StoreEnding.NumbersUsed) ⊎ (e ≡ StoreEnding.Memory)) }
    {
        let Ok(number) = u32::try_from(self.lines.len() + 1) else {
            return Err(StoreEnding::NumbersUsed);
        };
        if self.lines.push(Line::new(self.alloc)).is_err() {
            return Err(StoreEnding::Memory);
        }
        Ok(number)
    }

    /// Takes the framer of a connection out, in whose place an empty one stands; or answers why the connection is over.
    pub(crate) fn take_framer(&mut self, connection: u32) -> Result<Framer, StoreEnding>
        ensures open { IfOk result (λ f. (past : Went) → AreLines self.old past → IsAdmitted past connection
            → (past.endings connection ≡ None) × (f.held ≡ past.rests connection) × (f.limit ≡ frame_limit) × IsPart f.held
            × AreLines self.new (with_rest connection [] past)) }
        ensures over { IfErr result (λ e. (past : Went) → AreLines self.old past → IsAdmitted past connection
            → (past.endings connection ≡ Some e) × AreLines self.new past) }
    {
        let Some(line) = self.lines.get_mut(place(connection)) else {
            return Err(StoreEnding::Lost);
        };
        line.take_framer(self.alloc)
    }

    /// Puts the framer of a connection back, which holds a part of a frame.
    pub(crate) fn put_framer(&mut self, connection: u32, framer: Framer)
        ensures { (past : Went) → AreLines self.old past → IsAdmitted past connection → past.endings connection ≡ None → framer.limit ≡ frame_limit
            → IsPart framer.held → AreLines self.new (with_rest connection framer.held past) }
    {
        if let Some(line) = self.lines.get_mut(place(connection)) {
            line.put_framer(framer);
        }
    }

    /// A connection is over; one that is over already stays so.
    pub(crate) fn end(&mut self, connection: u32, ending: StoreEnding)
        ensures ends { (past : Went) → AreLines self.old past → IsAdmitted past connection → past.endings connection ≡ None → AreLines self.new (with_ending connection ending past) }
        ensures over { (past : Went) (e : PlainEnding) → AreLines self.old past → past.endings connection ≡ Some e → AreLines self.new past }
    {
        if let Some(line) = self.lines.get_mut(place(connection)) {
            line.end(ending);
        }
    }

    // Writes what is not written yet, the first first, and then lets it go. Without memory what was written so far is.
    fn write(&mut self) -> Result<(), Memory>
        ensures writes { WritesFirst self.old self.new }
        ensures ok { OnOk result (unwritten_in self.new ≡ []) }
        ensures err { OnErr result (unwritten_in self.new ≡ [] → ⊥) }
    {
        while self.written < self.unwritten.len() {
            let output = &self.unwritten.as_slice()[self.written];
            tell(&mut self.lines, &mut self.called, output)?;
            self.written += 1;
        }
        self.unwritten = Outputs::of(Vec::new(self.alloc));
        self.written = 0;
        Ok(())
    }

    // Counts what is not written yet as held back.
    fn hold_rest(&mut self)
        ensures { AllCanBeSent (unwritten_in self.old) → HoldsRest self.old self.new }
    {
        for place in self.written..self.unwritten.len() {
            let output = &self.unwritten.as_slice()[place];
            hold(&mut self.lines, &mut self.called, output);
        }
    }

    /// Writes what was told and is not written yet.
    pub(crate) fn flush(&mut self) -> Result<(), Memory>
        ensures ok { OnOk result ((past : Went) → AreLines self.old past → AreLines self.new (record past { written = true })) }
        ensures err { OnErr result ((past : Went) → AreLines self.old past → (past.written ≡ false) × AreLines self.new past) }
    {
        self.write()
    }

    /// Tells these messages, in their order: they are written behind what waits for their connections. What can't be written for want of
    /// memory is kept, and written later.
    pub(crate) fn send(&mut self, outputs: Outputs) -> Result<(), Memory>
        ensures { (past : Went) → AreLines self.old past → past.written ≡ true → AllCanBeSent outputs
            → ((c : ℕ) → (IsAdmitted past c → ⊥) → to_connection c outputs ≡ [])
            → (bytes : ℕ → List ℕ) × SpellEach outputs bytes × AreLines self.new (told_more outputs bytes (is_ok result) past) }
    {
        self.unwritten = outputs;
        self.written = 0;
        if let Err(memory) = self.write() {
            self.hold_rest();
            return Err(memory);
        }
        Ok(())
    }

    /// Moves the first bytes that wait for a connection behind `into`, and answers how many: the lesser of the limit and what waits.
    pub(crate) fn pull(
        &mut self,
        connection: u32,
        limit: usize,
        into: &mut Vec<u8>,
    ) -> Result<usize, Memory>
        ensures count { IfOk result (λ n. (past : Went) → AreLines self.old past → IsAdmitted past connection → n ≡ min limit (length (past.waiting connection))) }
        ensures moved { IfOk result (λ n. (past : Went) → AreLines self.old past → IsAdmitted past connection → into.new.items ≡ into.old.items ++ take n (past.waiting connection)) }
        ensures left { IfOk result (λ n. (past : Went) → AreLines self.old past → IsAdmitted past connection → AreLines self.new (after_pull connection n past)) }
        ensures same { OnErr result ((past : Went) → AreLines self.old past → AreLines self.new past) }
        ensures kept { OnErr result (into.new.items ≡ into.old.items) }
    {
        self.flush()?;
        let Some(line) = self.lines.get_mut(place(connection)) else {
            return Ok(0);
        };
        line.pull(limit, into)
    }

    /// Why a connection is over, if it is. Takes no memory.
    pub(crate) fn ending(&self, connection: u32) -> Option<StoreEnding>
        ensures { (past : Went) → AreLines self.now past → IsAdmitted past connection → result ≡ past.endings connection }
    {
        match self.lines.get(place(connection)) {
            Some(line) => line.ending(),
            None => None,
        }
    }

    /// How many bytes wait for a connection. Takes no memory.
    pub(crate) fn waiting(&self, connection: u32) -> usize
        ensures all { (past : Went) → AreLines self.now past → IsAdmitted past connection → past.written ≡ true → result ≡ length (past.waiting connection) }
        ensures most { (past : Went) → AreLines self.now past → IsAdmitted past connection → result ≤ length (past.waiting connection) }
    {
        match self.lines.get(place(connection)) {
            Some(line) => line.waiting.len().saturating_add(line.held),
            None => 0,
        }
    }

    /// A connection to which bytes have come to wait since it was last named here. Takes no memory.
    pub(crate) fn told(&mut self) -> Option<u32>
        ensures { (past : Went) → AreLines self.old past → AreLines self.new past }
    {
        let connection = self.called.pop()?;
        if let Some(line) = self.lines.get_mut(place(connection)) {
            line.forget_note();
        }
        Some(connection)
    }
}
