//! One session over the bytes of both sides that a script gives.

ghost use Rattle.std.specs.Prelude.{◌≡◌, ℕ, ◌≤◌, List, Some, Err, IfOk, IfErr, string_bytes};
ghost use Rattle.jute_core.specs.Faults.{Rose};
ghost use Rattle.payload_seal.specs.declared.keys.EntryKeys.{EntryKeys};
ghost use Rattle.replay_cli.specs.declared.hostile_script.HostileEvent.{HostileEvent};
ghost use Rattle.replay_cli.specs.Hostile.{Scene, opening, Plays, outcome_text, PrintsHostile};
ghost use Rattle.replay_cli.specs.HostileScript.{IsHostileScript, IsFirstBadHostileLine};
ghost use Rattle.replay_cli.specs.Playing.{IsAt, Goes};
ghost use Rattle.replay_cli.specs.Run.{IsHostileText, IsLongOf, IsBadKey, IsBadScript};
ghost use Rattle.replay_cli.specs.Stops.{Because, BecauseOfScript, IsUnreadOf};

use crate::endings::push_session;
use crate::files::Files;
use crate::hostile_script::{HostileEvent, read_hostile_script};
use crate::lines::NotScript;
use crate::loading::load_keyed;
use crate::printed::{bytes_text, end_line, push_field, push_findings, push_line};
use crate::stops::Stop;
use entry_session::{Ending, Session};
use jute_core::Memory;
use payload_seal::EntryKeys;
use reply_rewrite::Finding;
use std::alloc::Global;

// A session, and what it gave so far.
#[derive(Drop)]
struct Play {
    session: Session,
    up: Vec<u8>,
    down: Vec<u8>,
    findings: Vec<Finding>,
}

// Whether a session goes on or has ended, but for want of memory.
fn answered(answer: Result<(), Ending>) -> Result<(), Memory>
    ensures { IfOk result (λ _. answer ≡ Err Ending.Memory → ⊥) }
{
    match answer {
        Ok(()) => Ok(()),
        Err(ending) => match ending {
            Ending::Memory => Err(Memory),
            _ => Ok(()),
        },
    }
}

impl Play {
    // The session of connection 1 in boot 0, before anything is heard.
    fn new(alloc: Global, keys: EntryKeys) -> Play
        ensures { IsAt keys opening result }
    {
        Play {
            session: Session::new(alloc, keys, 0, 1),
            up: Vec::new(alloc),
            down: Vec::new(alloc),
            findings: Vec::new(alloc),
        }
    }

    // Hears bytes of the client.
    fn hear_client(&mut self, piece: &[u8]) -> Result<(), Memory>
        ensures { IfOk result (λ _. Goes self.old (HostileEvent.Client piece.now) self.new) }
    {
        answered(self.session.from_client(piece, &mut self.up))
    }

    // Hears bytes of the store.
    fn hear_store(&mut self, piece: &[u8]) -> Result<(), Memory>
        ensures { IfOk result (λ _. Goes self.old (HostileEvent.Store piece.now) self.new) }
    {
        answered(
            self.session
                .from_store(piece, &mut self.down, &mut self.findings),
        )
    }

    // Hears an event.
    fn hear(&mut self, event: &HostileEvent) -> Result<(), Memory>
        ensures { IfOk result (λ _. Goes self.old event.now self.new) }
    {
        match event {
            HostileEvent::Client(bytes) => self.hear_client(bytes.as_slice()),
            HostileEvent::Store(bytes) => self.hear_store(bytes.as_slice()),
            HostileEvent::ClientEnd => {
                self.session.end(Ending::ClientEnd);
                Ok(())
            }
            HostileEvent::StoreEnd => {
                self.session.end(Ending::StoreEnd);
                Ok(())
            }
        }
    }
}

// The session after these events.
fn play_all(alloc: Global, keys: EntryKeys, events: &[HostileEvent]) -> Result<Play, Memory>
    ensures { IfOk result (λ played. (scene : Scene) × Plays keys opening events.now scene
        × IsAt keys scene played) }
{
    let mut play = Play::new(alloc, keys);
    for event in events {
        play.hear(event)?;
    }
    Ok(play)
}

// What is printed of a session.
fn text_of_session(
    alloc: Global,
    ending: Option<Ending>,
    received: &[u8],
    handed: &[u8],
    findings: &[Finding],
) -> Result<String, Memory>
    ensures { IfOk result (λ text. string_bytes text
        ≡ outcome_text ending received.now handed.now findings.now) }
{
    let received = bytes_text(alloc, received)?;
    let handed = bytes_text(alloc, handed)?;
    let count = findings.len().to_string(alloc)?;
    let mut text = String::new(alloc);
    push_field(&mut text, "ending ", "")?;
    push_session(alloc, &mut text, ending)?;
    end_line(&mut text)?;
    push_line(&mut text, "received ", received.as_str())?;
    push_line(&mut text, "handed ", handed.as_str())?;
    push_line(&mut text, "findings ", count.as_str())?;
    push_findings(&mut text, findings)?;
    Ok(text)
}

// The text that events print.
fn printed(alloc: Global, keys: EntryKeys, events: &[HostileEvent]) -> Result<String, Memory>
    ensures { IfOk result (λ text. PrintsHostile keys events.now (string_bytes text)) }
{
    let played = play_all(alloc, keys, events)?;
    let text = text_of_session(
        alloc,
        played.session.ending(),
        played.down.as_slice(),
        played.up.as_slice(),
        played.findings.as_slice(),
    )?;
    Ok(text)
}
// The text that a script prints, or why there is none.
fn text_of<'a>(alloc: Global, keys: EntryKeys, script: &[u8]) -> Result<String, Stop<'a>>
    ensures ok { IfOk result (λ text. (events : List HostileEvent)
        × IsHostileScript script.now events × PrintsHostile keys events (string_bytes text)) }
    ensures err { IfErr result (λ stop. BecauseOfScript stop (IsFirstBadHostileLine script.now)) }
{
    let events = match read_hostile_script(alloc, script) {
        Ok(events) => events,
        Err(fault) => match fault {
            NotScript::BadLine { line } => return Err(Stop::ScriptMalformed(line)),
            NotScript::Memory => return Err(Stop::Memory),
        },
    };
    match printed(alloc, keys, events.as_slice()) {
        Ok(text) => Ok(text),
        Err(_) => Err(Stop::Memory),
    }
}

/// The text that a hostile script prints, or why there is none.
pub fn hostile<'a, F: Files>(
    alloc: Global,
    key: &'a str,
    script: &'a str,
    files: &mut F,
) -> Result<String, Stop<'a>>
    ensures ok { IfOk result (λ text. IsHostileText (F.told files.old key.now)
        (F.told files.old script.now) (string_bytes text)) }
    ensures err { IfErr result (λ stop. Because stop ⊥ (λ name.
        IsUnreadOf key.now script.now (F.reads files.old) (F.failed files.new) name
        × Rose (F.faults files.old) (F.faults files.new)) (IsLongOf (F.told files.old) key.now
        script.now) (IsBadKey (F.told files.old key.now)) (IsBadScript IsFirstBadHostileLine
        (F.told files.old key.now) (F.told files.old script.now))) }
    ensures later { F.faults files.old ≤ F.faults files.new }
{
    match load_keyed(alloc, key, script, files) {
        Ok(loaded) => text_of(alloc, loaded.keys, loaded.script.as_slice()),
        Err(stop) => Err(stop),
    }
}
