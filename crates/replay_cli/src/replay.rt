//! The replay of a script: a world of clients, sessions and one store, to which its events happen.

ghost use Rattle.std.specs.Prelude.{◌≡◌, ℕ, ◌≤◌, ◌++◌, List, Some, IfOk, IfErr, OnOk, string_bytes, true};
ghost use Rattle.jute_core.specs.Faults.{Rose};
ghost use Rattle.payload_seal.specs.declared.keys.EntryKeys.{EntryKeys as PlainKeys};
ghost use Rattle.store_side.specs.Past.{Past};
ghost use Rattle.store_side.specs.Follows.{IsAdmitted};
ghost use Rattle.world_core.specs.Moments.{Moment, opening};
ghost use Rattle.world_core.specs.Standing.{Stands};
ghost use Rattle.world_core.specs.Steps.{IsAllDrained};
ghost use Rattle.replay_cli.specs.declared.script.Event.{Event as PlainEvent};
ghost use Rattle.replay_cli.specs.Script.{IsScript, IsFirstBadLine};
ghost use Rattle.replay_cli.specs.Worlds.{AllHappen, Happens, IsFirstPast, MayFollow, MayHappen, PrintsReplay, Replayed, connection_text, ends_in_drain, link_text, links_text, world_text};
ghost use Rattle.replay_cli.specs.Run.{IsReplayText, IsLongOf, IsBadKey, IsBadScript};
ghost use Rattle.replay_cli.specs.Stops.{Because, BecauseOfScript, IsUnreadOf};

use crate::endings::{push_session, push_store};
use crate::files::Files;
use crate::lines::NotScript;
use crate::loading::load_keyed;
use crate::printed::{bytes_text, end_line, push_field, push_line, push_order};
use crate::script::{Event, read_script};
use crate::stops::Stop;
use aes_block::Key;
use counter_enclave::CounterEnclave;
use entry_session::Ending;
use jute_core::Memory;
use payload_seal::EntryKeys;
use std::alloc::Global;
use store_side::{Recorded, StoreEnding, StoreSide};
use tree_server::{Journal, TreeServer};
use world_core::World;

/// The store of a replay.
pub type Store = TreeServer<CounterEnclave, Journal>;

// The most entries of a store, with those that it owes its sessions.
const JOURNAL_LIMIT: u32 = 1_000_000;

// A world in boot 0, over a store whose nodes a counter enclave names under the same keys.
fn new_world(alloc: Global, keys: EntryKeys) -> Result<World<Store>, Memory>
    ensures { IfOk result (λ w. (first : Past) × IsFirstPast keys first × Stands (⟦<Store as StoreSide>⟧.stands w.store) keys 0 w.clients (opening first)) }
{
    keys.names.are_keys();
    let enclave = CounterEnclave::new(keys.names);
    let store = TreeServer::new(alloc, enclave, Key::new([0; 16]), JOURNAL_LIMIT)?;
    Ok(World::new(alloc, keys, 0, store))
}

// An event happens to a world.
fn play<S: StoreSide + Drop>(world: &mut World<S>, event: &Event) -> Result<(), Memory>
    requires { (opened : ℕ) × MayHappen opened event.now }
    ensures { OnOk result ((keys : PlainKeys) (m : Moment) → Stands (S.stands world.old.store) keys 0 world.old.clients m → MayHappen m.past.admitted event.now
        → (n : Moment) × Happens keys event.now m n × Stands (S.stands world.new.store) keys 0 world.new.clients n) }
{
    match event {
        Event::Open => {
            world.add()?;
        }
        Event::Send { connection, bytes } => world.send(*connection, bytes.as_slice())?,
        Event::Up {
            connection,
            first,
            second,
        } => world.up(*connection, *first, *second)?,
        Event::Down { connection, limit } => world.down(*connection, *limit)?,
        Event::Cut { connection } => world.cut(*connection),
        Event::Time { now } => world.time(*now),
        Event::Tick => world.tick()?,
        Event::Drain => world.drain()?,
    }
    Ok(())
}

// All events happen, in order.
fn play_all<S: StoreSide + Drop>(world: &mut World<S>, events: &[Event]) -> Result<(), Memory>
    requires { MayFollow 0 events.now }
    ensures { OnOk result ((keys : PlainKeys) (m : Moment) → Stands (S.stands world.old.store) keys 0 world.old.clients m → m.past.admitted ≡ 0
        → (n : Moment) × AllHappen keys events.now m n × Stands (S.stands world.new.store) keys 0 world.new.clients n
        × (ends_in_drain events.now ≡ true → IsAllDrained n)) }
{
    for event in events {
        play(world, event)?;
    }
    Ok(())
}

// Appends what is printed of a connection.
#[tactic(auto, unfolding(crate::specs::Worlds::connection_text))]
fn push_connection(
    alloc: Global,
    into: &mut String,
    number: u32,
    ending: Option<Ending>,
    over: Option<StoreEnding>,
    received: &[u8],
    handed: &[u8],
) -> Result<(), Memory>
    ensures { OnOk result
        (string_bytes into.new ≡ string_bytes into.old ++ connection_text number ending over received.now handed.now) }
{
    let number = number.to_string(alloc)?;
    let received = bytes_text(alloc, received)?;
    let handed = bytes_text(alloc, handed)?;
    push_line(into, "connection ", number.as_str())?;
    push_field(into, "ending ", "")?;
    push_session(alloc, into, ending)?;
    end_line(into)?;
    push_field(into, "store ", "")?;
    push_store(alloc, into, over)?;
    end_line(into)?;
    push_line(into, "received ", received.as_str())?;
    push_line(into, "handed ", handed.as_str())?;
    Ok(())
}

// Appends what is printed of a world's connection.
fn push_link<S: StoreSide + Drop>(
    alloc: Global,
    into: &mut String,
    world: &World<S>,
    number: u32,
) -> Result<(), Memory>
    ensures { OnOk result ((keys : PlainKeys) (m : Moment) → Stands (S.stands world.now.store) keys 0 world.now.clients m → IsAdmitted m.past number
        → string_bytes into.new ≡ string_bytes into.old ++ link_text m number) }
{
    push_connection(
        alloc,
        into,
        number,
        world.ending(number),
        world.store_ending(number),
        world.received(number),
        world.handed_up(number),
    )?;
    Ok(())
}

// Appends what is printed of all connections of a world.
fn push_links<S: StoreSide + Drop>(
    alloc: Global,
    into: &mut String,
    world: &World<S>,
) -> Result<(), Memory>
    ensures { OnOk result ((keys : PlainKeys) (m : Moment) → Stands (S.stands world.now.store) keys 0 world.now.clients m
        → string_bytes into.new ≡ string_bytes into.old ++ links_text m 1 m.past.admitted) }
{
    let count = world.count();
    let mut number = 0;
    while number < count {
        number += 1;
        push_link(alloc, into, world, number)?;
    }
    Ok(())
}

// What is printed of a world.
fn printed<S: Recorded + Drop>(alloc: Global, world: &World<S>) -> Result<String, Memory>
    ensures { IfOk result (λ text. (keys : PlainKeys) (m : Moment) → Stands (S.stands world.now.store) keys 0 world.now.clients m
        → string_bytes text ≡ world_text m) }
{
    let mut text = String::new(alloc);
    push_order(alloc, &mut text, world.order())?;
    push_links(alloc, &mut text, world)?;
    Ok(text)
}

/// A world to which these events happened, over a store of its own.
pub fn replayed(alloc: Global, keys: EntryKeys, events: &[Event]) -> Result<World<Store>, Memory>
    requires { MayFollow 0 events.now }
    ensures { IfOk result (λ w. (m : Moment) × Replayed keys events.now m × Stands (⟦<Store as StoreSide>⟧.stands w.store) keys 0 w.clients m) }
{
    let mut world = new_world(alloc, keys)?;
    play_all(&mut world, events)?;
    Ok(world)
}

// The text that events print.
fn text_of_events(alloc: Global, keys: EntryKeys, events: &[Event]) -> Result<String, Memory>
    requires { MayFollow 0 events.now }
    ensures { IfOk result (λ text. PrintsReplay keys events.now (string_bytes text)) }
{
    let world = replayed(alloc, keys, events)?;
    let text = printed(alloc, &world)?;
    Ok(text)
}

// The text that a script prints, or why there is none.
fn text_of<'a>(alloc: Global, keys: EntryKeys, script: &[u8]) -> Result<String, Stop<'a>>
    ensures ok { IfOk result (λ text. (events : List PlainEvent) × IsScript script.now events × PrintsReplay keys events (string_bytes text)) }
    ensures err { IfErr result (λ stop. BecauseOfScript stop (IsFirstBadLine script.now)) }
{
    let events = match read_script(alloc, script) {
        Ok(events) => events,
        Err(fault) => match fault {
            NotScript::BadLine { line } => return Err(Stop::ScriptMalformed(line)),
            NotScript::Memory => return Err(Stop::Memory),
        },
    };
    match text_of_events(alloc, keys, events.as_slice()) {
        Ok(text) => Ok(text),
        Err(_) => Err(Stop::Memory),
    }
}

/// The text that a replay prints, or why there is none.
pub fn replay<'a, F: Files>(
    alloc: Global,
    key: &'a str,
    script: &'a str,
    files: &mut F,
) -> Result<String, Stop<'a>>
    ensures ok { IfOk result (λ text. IsReplayText (F.told files.old key.now)
        (F.told files.old script.now) (string_bytes text)) }
    ensures err { IfErr result (λ stop. Because stop ⊥ (λ name.
        IsUnreadOf key.now script.now (F.reads files.old) (F.failed files.new) name
        × Rose (F.faults files.old) (F.faults files.new)) (IsLongOf (F.told files.old) key.now
        script.now) (IsBadKey (F.told files.old key.now)) (IsBadScript IsFirstBadLine
        (F.told files.old key.now) (F.told files.old script.now))) }
    ensures later { F.faults files.old ≤ F.faults files.new }
{
    match load_keyed(alloc, key, script, files) {
        Ok(loaded) => text_of(alloc, loaded.keys, loaded.script.as_slice()),
        Err(stop) => Err(stop),
    }
}
