//! Replay scripts: their events, and the reader of their grammar.

ghost use Rattle.std.specs.Prelude.{◌≡◌, ◌≢◌, List, ℕ, ℤ, [], ◌∷◌, ◌++◌, ◌-◌, ◌^◌, ◌<◌, ◌≤◌, IfOk, IfErr, IfSome, IfNone, IsTrue, false, vec_len};
ghost use Rattle.std.specs.Fmt.{decimal};
ghost use Rattle.replay_cli.specs.declared.script.Event.{Event};
ghost use Rattle.replay_cli.specs.Lines.{spaced};
ghost use Rattle.replay_cli.specs.Script.{event_text, IsOpen, IsCount, MayStand, opened_by, IsScript, IsFirstBadLine};
ghost use Rattle.replay_cli.specs.Reading.{TakesBy, RefusesBy, IsFaultOf, IsCounted, IsEvent};

use crate::lines::{NotScript, behind, first_line, hex_bytes, is_skipped, number_before};
use crate::numbers::number_of;
use jute_core::{Bytes, Memory};
use std::alloc::Global;
use std::marker::Model;

/// The most connections that a script may open.
const CONNECTIONS: u32 = 4096;

/// What a line of a script asks for. Connections are numbered from 1 as they are opened.
#[derive(Debug, Drop)]
pub enum Event {
    /// A further connection is opened.
    Open,
    /// The client of a connection sends bytes.
    Send {
        connection: u32,
        bytes: Bytes,
    },
    /// Up to `first` bytes of the client go into its session, and then up to `second` of the bytes handed up to the store.
    Up {
        connection: u32,
        first: u32,
        second: u32,
    },
    /// Up to `limit` bytes of the store go through the session to the client.
    Down {
        connection: u32,
        limit: u32,
    },
    /// The client's end is cut off.
    Cut {
        connection: u32,
    },
    /// It is so many milliseconds now.
    Time {
        now: i64,
    },
    /// The store ends the sessions whose time is up.
    Tick,
    /// All that is under way is delivered.
    Drain,
}

/// A list of events.
#[derive(Debug, Drop)]
pub struct Events {
    held: Vec<Event>,
}

impl Model for Events {
    ghost use Rattle.std.specs.Prelude.{List};
    ghost use Rattle.replay_cli.specs.declared.script.Event.{Event};

    ghost Value = { List Event };

    ghost view = { λ e. e.held.items };
}

impl Events {
    /// The list of these items.
    pub fn of(items: Vec<Event>) -> Events
        ensures { result ≡ items.items }
    {
        Events { held: items }
    }

    /// The items, lent.
    pub fn as_slice(&self) -> &[Event]
        ensures { result.now ≡ self.now }
    {
        self.held.as_slice()
    }
}

/// The first text that is no time.
const TIME_END: u64 = 4_611_686_018_427_387_904;

// The connection that stands before a space, and what follows that.
fn connection_before(text: &[u8], opened: u32) -> Option<(u32, &[u8])>
    ensures found { IfSome result (λ parts. IsOpen opened parts.0
        × (text.now ≡ spaced (decimal parts.0) parts.1.now)) }
    ensures none { IfNone result ((c : ℕ) (rest : List ℕ) → IsOpen opened c
        → text.now ≢ spaced (decimal c) rest) }
{
    let Some((number, rest)) = number_before(text, opened as u64) else {
        return None;
    };
    if number == 0 {
        return None;
    }
    Some((number as u32, rest))
}

// The count that a text says.
fn count_of(text: &[u8]) -> Option<u32>
    ensures found { IfSome result (λ n. text.now ≡ decimal n) }
    ensures none { IfNone result ((n : ℕ) → IsCount n → text.now ≢ decimal n) }
{
    match number_of(text, u32::MAX as u64) {
        Some(number) => Some(number as u32),
        None => None,
    }
}

// The event of a line that is one word.
#[tactic(auto, unfolding(crate::specs::Script::event_text))]
fn word_of(line: &[u8], opened: u32) -> Option<Event>
    ensures found { IfSome result (λ event. IsEvent line.now opened event) }
    ensures none { IfNone result ((IsEvent line.now opened Event.Open → ⊥)
        × (IsEvent line.now opened Event.Tick → ⊥) × (IsEvent line.now opened Event.Drain → ⊥)) }
{
    if line == b"open".as_slice() {
        return if opened < CONNECTIONS {
            Some(Event::Open)
        } else {
            None
        };
    }
    if line == b"tick".as_slice() {
        return Some(Event::Tick);
    }
    if line == b"drain".as_slice() {
        return Some(Event::Drain);
    }
    None
}

// The event of a line `send`.
#[tactic(auto, unfolding(crate::specs::Script::event_text))]
fn send_of(alloc: Global, line: &[u8], opened: u32) -> Result<Option<Event>, Memory>
    ensures found { IfOk result (λ o. IfSome o (λ event. IsEvent line.now opened event)) }
    ensures none { IfOk result (λ o. IfNone o ((c : ℕ) (bytes : List ℕ)
        → IsEvent line.now opened (Event.Send c bytes) → ⊥)) }
{
    let Some(text) = behind(line, b"send ") else {
        return Ok(None);
    };
    let Some((connection, digits)) = connection_before(text, opened) else {
        return Ok(None);
    };
    let Some(bytes) = hex_bytes(alloc, digits)? else {
        return Ok(None);
    };
    Ok(Some(Event::Send { connection, bytes }))
}

// The event of a line `up`.
#[tactic(auto, unfolding(crate::specs::Script::event_text))]
fn up_of(line: &[u8], opened: u32) -> Option<Event>
    ensures found { IfSome result (λ event. IsEvent line.now opened event) }
    ensures none { IfNone result ((c first second : ℕ)
        → IsEvent line.now opened (Event.Up c first second) → ⊥) }
{
    let Some(text) = behind(line, b"up ") else {
        return None;
    };
    let Some((connection, counts)) = connection_before(text, opened) else {
        return None;
    };
    let Some((first, rest)) = number_before(counts, u32::MAX as u64) else {
        return None;
    };
    let Some(second) = count_of(rest) else {
        return None;
    };
    Some(Event::Up {
        connection,
        first: first as u32,
        second,
    })
}

// The event of a line `down`.
#[tactic(auto, unfolding(crate::specs::Script::event_text))]
fn down_of(line: &[u8], opened: u32) -> Option<Event>
    ensures found { IfSome result (λ event. IsEvent line.now opened event) }
    ensures none { IfNone result ((c limit : ℕ) → IsEvent line.now opened (Event.Down c limit)
        → ⊥) }
{
    let Some(text) = behind(line, b"down ") else {
        return None;
    };
    let Some((connection, count)) = connection_before(text, opened) else {
        return None;
    };
    let Some(limit) = count_of(count) else {
        return None;
    };
    Some(Event::Down { connection, limit })
}

// The event of a line `cut`.
#[tactic(auto, unfolding(crate::specs::Script::event_text))]
fn cut_of(line: &[u8], opened: u32) -> Option<Event>
    ensures found { IfSome result (λ event. IsEvent line.now opened event) }
    ensures none { IfNone result ((c : ℕ) → IsEvent line.now opened (Event.Cut c) → ⊥) }
{
    let Some(text) = behind(line, b"cut ") else {
        return None;
    };
    let Some(connection) = number_of(text, opened as u64) else {
        return None;
    };
    if connection == 0 {
        return None;
    }
    Some(Event::Cut {
        connection: connection as u32,
    })
}

// The event of a line `time`.
#[tactic(auto, unfolding(crate::specs::Script::event_text))]
fn time_of(line: &[u8], opened: u32) -> Option<Event>
    ensures found { IfSome result (λ event. IsEvent line.now opened event) }
    ensures none { IfNone result ((now : ℤ) → IsEvent line.now opened (Event.Time now) → ⊥) }
{
    let Some(text) = behind(line, b"time ") else {
        return None;
    };
    let Some(now) = number_of(text, TIME_END - 1) else {
        return None;
    };
    Some(Event::Time { now: now as i64 })
}

// The event that a line asks for, where so many connections were opened above.
fn event_of(alloc: Global, line: &[u8], opened: u32) -> Result<Option<Event>, Memory>
    ensures found { IfOk result (λ o. IfSome o (λ event. IsEvent line.now opened event)) }
    ensures none { IfOk result (λ o. IfNone o ((event : Event) → IsEvent line.now opened event
        → ⊥)) }
{
    if let Some(event) = send_of(alloc, line, opened)? {
        return Ok(Some(event));
    }
    if let Some(event) = word_of(line, opened) {
        return Ok(Some(event));
    }
    if let Some(event) = up_of(line, opened) {
        return Ok(Some(event));
    }
    if let Some(event) = down_of(line, opened) {
        return Ok(Some(event));
    }
    if let Some(event) = cut_of(line, opened) {
        return Ok(Some(event));
    }
    Ok(time_of(line, opened))
}

// How many connections an event opens.
fn opened_by(event: &Event) -> u32
    ensures { result ≡ opened_by event.now }
{
    match event {
        Event::Open => 1,
        Event::Send { .. } => 0,
        Event::Up { .. } => 0,
        Event::Down { .. } => 0,
        Event::Cut { .. } => 0,
        Event::Time { .. } => 0,
        Event::Tick => 0,
        Event::Drain => 0,
    }
}

// What was read so far: the events, and how many connections they open.
#[derive(Drop)]
struct Reader {
    events: Vec<Event>,
    opened: u32,
}

impl Reader {
    fn push(&mut self, event: Event) -> Result<(), Memory>
        requires counted { IsCounted self.old }
        requires may { MayStand self.old.opened event }
        ensures { IfOk result (λ _.
            (self.new.events.items ≡ self.old.events.items ++ event ∷ []) × IsCounted self.new) }
    {
        self.opened += opened_by(&event);
        self.events.push(event)?;
        Ok(())
    }

    // Takes a line, or answers that it does not fit there.
    fn take(&mut self, alloc: Global, line: &[u8]) -> Result<bool, Memory>
        requires { IsCounted self.old }
        ensures counted { IfOk result (λ _. IsCounted self.new) }
        ensures taken { IfOk result (λ fits. IsTrue fits → TakesBy event_text MayStand opened_by
            self.old.events.items line.now self.new.events.items) }
        ensures refused { IfOk result (λ fits. fits ≡ false → RefusesBy event_text MayStand
            opened_by self.old.events.items line.now) }
    {
        if is_skipped(line) {
            return Ok(true);
        }
        let Some(event) = event_of(alloc, line, self.opened)? else {
            return Ok(false);
        };
        self.push(event)?;
        Ok(true)
    }
}

/// The events of a script. One pass over the text.
///
/// # Errors
/// `BadLine` exactly where the text is outside the grammar, with the first line that fits no event where it stands; or
/// want of memory.
pub fn read_script(alloc: Global, text: &[u8]) -> Result<Events, NotScript>
    ensures ok { IfOk result (λ events. IsScript text.now events) }
    ensures only { IfOk result (λ events. (other : List Event) → IsScript text.now other
        → other ≡ events) }
    ensures bad { IfErr result (IsFaultOf (IsFirstBadLine text.now)) }
    ensures outside { IfErr result (IsFaultOf (λ _. (events : List Event)
        → IsScript text.now events → ⊥)) }
{
    let mut reader = Reader {
        events: Vec::new(alloc),
        opened: 0,
    };
    let mut rest = Some(text);
    let mut above = 0;
    while let Some(lines) = rest {
        let (line, more) = first_line(lines);
        if !reader.take(alloc, line)? {
            return Err(NotScript::BadLine { line: above + 1 });
        }
        rest = more;
        above += 1;
    }
    Ok(Events::of(reader.events))
}
