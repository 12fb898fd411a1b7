//! Hostile scripts: their events, and the reader of their grammar.

ghost use Rattle.std.specs.Prelude.{◌≡◌, List, ℕ, IfOk, IfErr, IfSome, IfNone, IsTrue, false};
ghost use Rattle.replay_cli.specs.declared.hostile_script.HostileEvent.{HostileEvent};
ghost use Rattle.replay_cli.specs.HostileScript.{hostile_event_text, MayStandAnywhere, nothing, IsLineOf, IsHostileEvent, IsHostileScript, IsFirstBadHostileLine};
ghost use Rattle.replay_cli.specs.Reading.{TakesBy, RefusesBy, IsFaultOf};

use crate::lines::{NotScript, behind, first_line, hex_bytes, is_skipped};
use jute_core::{Bytes, Memory};
use std::alloc::Global;
use std::marker::Model;

/// What a session hears next.
#[derive(Debug, Drop)]
pub enum HostileEvent {
    /// These bytes of its client.
    Client(Bytes),
    /// These bytes of the store.
    Store(Bytes),
    /// That its client ended the connection.
    ClientEnd,
    /// That the store ended the connection.
    StoreEnd,
}

/// A list of events.
#[derive(Debug, Drop)]
pub struct HostileEvents {
    held: Vec<HostileEvent>,
}

impl Model for HostileEvents {
    ghost use Rattle.std.specs.Prelude.{List};
    ghost use Rattle.replay_cli.specs.declared.hostile_script.HostileEvent.{HostileEvent};

    ghost Value = { List HostileEvent };

    ghost view = { λ e. e.held.items };
}

impl HostileEvents {
    /// The list of these items.
    pub fn of(items: Vec<HostileEvent>) -> HostileEvents
        ensures { result ≡ items.items }
    {
        HostileEvents { held: items }
    }

    /// The items, lent.
    pub fn as_slice(&self) -> &[HostileEvent]
        ensures { result.now ≡ self.now }
    {
        self.held.as_slice()
    }
}

// The event of a line that is one word.
#[tactic(auto, unfolding(crate::specs::HostileScript::hostile_event_text))]
fn end_of(line: &[u8]) -> Option<HostileEvent>
    ensures found { IfSome result (λ event. IsHostileEvent line.now event) }
    ensures none { IfNone result ((IsHostileEvent line.now HostileEvent.ClientEnd → ⊥)
        × (IsHostileEvent line.now HostileEvent.StoreEnd → ⊥)) }
{
    if line == b"client-end".as_slice() {
        return Some(HostileEvent::ClientEnd);
    }
    if line == b"store-end".as_slice() {
        return Some(HostileEvent::StoreEnd);
    }
    None
}

// The bytes behind a word.
fn piece_of(alloc: Global, line: &[u8], word: &[u8]) -> Result<Option<Bytes>, Memory>
    ensures found { IfOk result (λ o. IfSome o (λ bytes. IsLineOf word.now line.now bytes)) }
    ensures none { IfOk result (λ o. IfNone o ((bytes : List ℕ)
        → IsLineOf word.now line.now bytes → ⊥)) }
{
    match behind(line, word) {
        Some(digits) => hex_bytes(alloc, digits),
        None => Ok(None),
    }
}

// The event that a line asks for.
fn event_of(alloc: Global, line: &[u8]) -> Result<Option<HostileEvent>, Memory>
    ensures found { IfOk result (λ o. IfSome o (λ event. IsHostileEvent line.now event)) }
    ensures none { IfOk result (λ o. IfNone o ((event : HostileEvent)
        → IsHostileEvent line.now event → ⊥)) }
{
    if let Some(event) = end_of(line) {
        return Ok(Some(event));
    }
    if let Some(bytes) = piece_of(alloc, line, b"client ")? {
        return Ok(Some(HostileEvent::Client(bytes)));
    }
    if let Some(bytes) = piece_of(alloc, line, b"store ")? {
        return Ok(Some(HostileEvent::Store(bytes)));
    }
    Ok(None)
}

// Takes a line, or answers that no event fits it.
fn take(alloc: Global, events: &mut Vec<HostileEvent>, line: &[u8]) -> Result<bool, Memory>
    ensures taken { IfOk result (λ fits. IsTrue fits → TakesBy hostile_event_text
        MayStandAnywhere nothing events.old.items line.now events.new.items) }
    ensures refused { IfOk result (λ fits. fits ≡ false → RefusesBy hostile_event_text
        MayStandAnywhere nothing events.old.items line.now) }
{
    if is_skipped(line) {
        return Ok(true);
    }
    let Some(event) = event_of(alloc, line)? else {
        return Ok(false);
    };
    events.push(event)?;
    Ok(true)
}

/// The events of a hostile script. One pass over the text.
///
/// # Errors
/// `BadLine` exactly where the text is outside the grammar, with the first line that fits no event; or want of memory.
pub fn read_hostile_script(alloc: Global, text: &[u8]) -> Result<HostileEvents, NotScript>
    ensures ok { IfOk result (λ events. IsHostileScript text.now events) }
    ensures only { IfOk result (λ events. (other : List HostileEvent) → IsHostileScript text.now other
        → other ≡ events) }
    ensures bad { IfErr result (IsFaultOf (IsFirstBadHostileLine text.now)) }
    ensures outside { IfErr result (IsFaultOf (λ _. (events : List HostileEvent)
        → IsHostileScript text.now events → ⊥)) }
{
    let mut events = Vec::new(alloc);
    let mut rest = Some(text);
    let mut above = 0;
    while let Some(lines) = rest {
        let (line, more) = first_line(lines);
        if !take(alloc, &mut events, line)? {
            return Err(NotScript::BadLine { line: above + 1 });
        }
        rest = more;
        above += 1;
    }
    Ok(HostileEvents::of(events))
}
