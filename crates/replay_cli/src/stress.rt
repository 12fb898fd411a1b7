//! `stress`: a workload that a generator chooses, replayed, and what its clients received.

ghost use Rattle.std.specs.Prelude.{◌≡◌, ◌<◌, ◌≤◌, ℕ, IfOk, string_bytes};
ghost use Rattle.payload_seal.specs.declared.keys.EntryKeys.{EntryKeys as PlainKeys};
ghost use Rattle.world_core.specs.Moments.{Moment};
ghost use Rattle.world_core.specs.Standing.{Stands};
ghost use Rattle.sha2.specs.Sha256.{sha256};
ghost use Rattle.replay_cli.specs.Hostile.{IsKeysOf};
ghost use Rattle.replay_cli.specs.Summary.{AreTallied, PrintsStress, received_by, stress_key, summary_text};

use crate::printed::push_line;
use crate::replay::replayed;
use crate::tally::Tally;
use crate::workload::workload;
use jute_core::Memory;
use payload_seal::{EntryKeys, read_keys};
use sha2::{Digest, Sha256};
use std::alloc::Global;
use store_side::{Recorded, StoreSide};
use world_core::World;

// The key file: 64 bytes, counted up from 0.
const KEY: [u8; 64] = [
    0, 1, 2, 3, 4, 5, 6, 7, 8, 9, 10, 11, 12, 13, 14, 15, 16, 17, 18, 19, 20, 21, 22, 23, 24, 25,
    26, 27, 28, 29, 30, 31, 32, 33, 34, 35, 36, 37, 38, 39, 40, 41, 42, 43, 44, 45, 46, 47, 48, 49,
    50, 51, 52, 53, 54, 55, 56, 57, 58, 59, 60, 61, 62, 63,
];

fn stress_keys() -> EntryKeys
    ensures { IsKeysOf stress_key result }
{
    match read_keys(&KEY) {
        Ok(keys) => keys,
        Err(_) => unreachable!(),
    }
}

// What the clients of a world received, counted.
fn tallied<S: StoreSide + Drop>(world: &World<S>) -> Tally
    ensures { (keys : PlainKeys) (m : Moment) → Stands (S.stands world.now.store) keys 0 world.now.clients m → AreTallied m m.past.admitted result }
{
    let count = world.count();
    let mut tally = Tally::new();
    let mut number = 0;
    while number < count {
        number += 1;
        tally = tally.count_received(world.received(number));
    }
    tally
}

// The digest of all that the clients of a world received.
fn digest<S: StoreSide + Drop>(world: &World<S>) -> [u8; 32]
    ensures { (keys : PlainKeys) (m : Moment) → Stands (S.stands world.now.store) keys 0 world.now.clients m → result ≡ sha256 (received_by m m.past.admitted) }
{
    let count = world.count();
    let mut hasher = Sha256::new();
    let mut number = 0;
    while number < count {
        number += 1;
        hasher.update(world.received(number));
    }
    hasher.finalize()
}

// What is printed of a run.
fn summary(
    alloc: Global,
    sessions: u32,
    steps: u32,
    entries: usize,
    tally: Tally,
    digest: [u8; 32],
) -> Result<String, Memory>
    ensures { IfOk result (λ text. string_bytes text ≡ summary_text sessions steps entries tally digest) }
{
    let mut text = String::new(alloc);
    push_line(&mut text, "sessions ", sessions.to_string(alloc)?.as_str())?;
    push_line(&mut text, "steps ", steps.to_string(alloc)?.as_str())?;
    push_line(&mut text, "entries ", entries.to_string(alloc)?.as_str())?;
    push_line(
        &mut text,
        "events ",
        tally.events.to_string(alloc)?.as_str(),
    )?;
    push_line(
        &mut text,
        "replies ",
        tally.replies.to_string(alloc)?.as_str(),
    )?;
    push_line(
        &mut text,
        "errors ",
        tally.errors.to_string(alloc)?.as_str(),
    )?;
    push_line(&mut text, "digest ", hex::encode(alloc, digest)?.as_str())?;
    Ok(text)
}

/// The text that a workload of so many sessions and steps prints.
pub fn stress(alloc: Global, seed: u64, sessions: u32, steps: u32) -> Result<String, Memory>
    requires some { 0 < sessions }
    requires fits { sessions ≤ 64 }
    requires few { steps ≤ 100000 }
    ensures { IfOk result (λ text. PrintsStress seed sessions steps (string_bytes text)) }
{
    let events = workload(alloc, seed, sessions, steps)?;
    let world = replayed(alloc, stress_keys(), events.as_slice())?;
    let entries = world.order().len();
    let text = summary(
        alloc,
        sessions,
        steps,
        entries,
        tallied(&world),
        digest(&world),
    )?;
    Ok(text)
}
