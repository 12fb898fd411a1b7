//! A store over a tree: what memory many pings take, how many requests of one connection it answers a second, and what a tick costs where
//! no session's time is up.

use crate::asks::{Ask, Asks, spell};
use crate::times::{RUNS, Times};
use aes_block::Key;
use jute_core::Memory;
use std::alloc::Global;
use std::time::Instant;
use std::{fs, io};
use store_side::{StoreEnding, StoreSide};
use tree_server::{Count, TreeServer};
use zk_path::PlainNumberer;

type Store = TreeServer<PlainNumberer, Count>;

const CONNECT: &[u8] =
    b"\0\0\0\x2d\0\0\0\0\0\0\0\0\0\0\0\0\0\0\x75\x30\0\0\0\0\0\0\0\0\0\0\0\x10\0\0\0\0\0\0\0\0\0\0\0\0\0\0\0\0\0";

// How many bytes are pulled at a time.
const LIMIT: usize = 65_536;

const GETS: u32 = 100_000;

const PINGS: u32 = 200_000;

const TICKS: u32 = 1_000_000;

/// Prints memory, requests a second and nanoseconds a tick. It is called first, since memory that others let go would hide what a store
/// takes.
pub(crate) fn print_figures(rt: &HostRuntime) -> io::Result<()> {
    let alloc = rt.alloc();
    let key = Key::new([0; 16]);
    let forgetting = TreeServer::forgetting(alloc, PlainNumberer, key);
    print_memory(rt, "forgets", forgetting)?;
    let keeping = TreeServer::new(alloc, PlainNumberer, key, u32::MAX);
    print_memory(rt, "keeps", keeping)?;
    print_same(rt, "getData of 1 KiB", Ask::Get, GETS)?;
    print_same(rt, "ping", Ask::Ping, PINGS)?;
    print_changes(rt, 1_000)?;
    print_changes(rt, 100_000)?;
    print_tick(rt, 10)?;
    print_tick(rt, 10_000)
}

// Admits so many connections, each of which is given a session.
fn connect<S: StoreSide>(alloc: Global, store: &mut S, count: u32) -> Result<(), StoreEnding> {
    let mut into = Vec::new(alloc);
    for _ in 0..count {
        let connection = store.admit()?;
        store.feed(connection, 0, CONNECT)?;
        into.clear();
        store.pull(connection, LIMIT, &mut into)?;
    }
    Ok(())
}

// A store that forgets its entries, with so many sessions.
fn with_sessions(alloc: Global, count: u32) -> Result<Store, StoreEnding> {
    let mut store = TreeServer::forgetting(alloc, PlainNumberer, Key::new([0; 16]))?;
    connect(alloc, &mut store, count)?;
    Ok(store)
}

// The same with one session, and a node "/w" of 1 KiB.
fn with_parent(alloc: Global) -> Result<Store, StoreEnding> {
    let mut store = with_sessions(alloc, 1)?;
    let parent = spell(alloc, Ask::Parent, 1)?;
    answer(&mut store, &parent, &mut Vec::new(alloc))?;
    Ok(store)
}

// Sends requests and receives the answers, a piece each millisecond, and tells whether they have the bytes that are wanted.
fn answer<S: StoreSide>(
    store: &mut S,
    asks: &Asks,
    into: &mut Vec<u8>,
) -> Result<bool, StoreEnding> {
    let mut received = 0_usize;
    for (now, piece) in (0..u32::MAX).zip(&asks.pieces) {
        store.feed(1, i64::from(now), piece.as_slice())?;
        for _ in 0..=store.waiting(1) / LIMIT {
            into.clear();
            received = received.saturating_add(store.pull(1, LIMIT, into)?);
        }
    }
    Ok(received == asks.answers)
}

// Takes the time of these requests.
fn time<S: StoreSide>(
    rt: &HostRuntime,
    store: &mut S,
    asks: &Asks,
    times: &mut Times,
) -> io::Result<()> {
    let mut into = Vec::new(rt.alloc());
    let start = Instant::now(rt)?;
    let whole = answer(store, asks, &mut into);
    times.add(start.elapsed(rt)?.as_micros())?;
    if whole != Ok(true) {
        println!(rt; "not answered")?;
    }
    Ok(())
}

fn print_rate(rt: &HostRuntime, what: &str, count: u32, micros: u128) -> io::Result<()> {
    let rate = u128::from(count) * 1_000 / micros.max(1);
    println!(rt; "{what}: {rate} thousand a second")
}

// Prints how many requests that change nothing are answered a second.
fn print_same(rt: &HostRuntime, what: &str, ask: Ask, count: u32) -> io::Result<()> {
    let (Ok(mut store), Ok(asks)) = (with_parent(rt.alloc()), spell(rt.alloc(), ask, count)) else {
        return println!(rt; "no store");
    };
    let mut times = Times::new(rt.alloc());
    for _ in 0..RUNS {
        time(rt, &mut store, &asks, &mut times)?;
    }
    print_rate(rt, what, count, times.middle()?)
}

// Prints how many nodes are made and deleted a second, where so many are made and then deleted.
fn print_changes(rt: &HostRuntime, count: u32) -> io::Result<()> {
    let alloc = rt.alloc();
    let (Ok(creates), Ok(deletes)) = (
        spell(alloc, Ask::Create, count),
        spell(alloc, Ask::Delete, count),
    ) else {
        return println!(rt; "no requests");
    };
    let mut creating = Times::new(alloc);
    let mut deleting = Times::new(alloc);
    for _ in 0..RUNS {
        let Ok(mut store) = with_parent(alloc) else {
            return println!(rt; "no store");
        };
        time(rt, &mut store, &creates, &mut creating)?;
        time(rt, &mut store, &deletes, &mut deleting)?;
    }
    println!(rt; "{count} nodes:")?;
    print_rate(rt, "create", count, creating.middle()?)?;
    print_rate(rt, "delete", count, deleting.middle()?)
}

// Ticks so often, while no session's time is up.
fn tick_often(store: &mut Store) -> bool {
    let mut whole = true;
    for number in 0..TICKS {
        if store.tick(i64::from(number % 30_000)).is_err() {
            whole = false;
        }
    }
    whole
}

// Prints what a tick costs beside so many sessions.
fn print_tick(rt: &HostRuntime, sessions: u32) -> io::Result<()> {
    let Ok(mut store) = with_sessions(rt.alloc(), sessions) else {
        return println!(rt; "no store");
    };
    let mut times = Times::new(rt.alloc());
    for _ in 0..RUNS {
        let start = Instant::now(rt)?;
        let whole = tick_often(&mut store);
        times.add(start.elapsed(rt)?.as_micros())?;
        if !whole || store.ending(1).is_some() {
            println!(rt; "a session ended")?;
        }
    }
    let tenths = times.middle()?.saturating_mul(10_000) / u128::from(TICKS);
    println!(rt;
        "tick beside {sessions} sessions: {}.{} ns",
        tenths / 10,
        tenths % 10
    )
}

// How many KiB of the program's memory are resident, as Linux tells it in pages of 4 KiB.
fn resident(rt: &HostRuntime) -> io::Result<u64> {
    let text = fs::read_to_string(rt, "/proc/self/statm")?;
    let pages = text.as_str().split_ascii_whitespace().nth(1);
    let Some(Ok(pages)) = pages.map(|word| word.parse::<u64>()) else {
        return Ok(0);
    };
    Ok(pages.saturating_mul(4))
}

// Prints the memory that is resident before and after 1,000,000 pings of a store that forgets its entries or keeps them.
fn print_memory<S: StoreSide + Drop>(
    rt: &HostRuntime,
    does: &str,
    store: Result<S, Memory>,
) -> io::Result<()> {
    let (Ok(mut store), Ok(pings)) = (store, spell(rt.alloc(), Ask::Ping, PINGS)) else {
        return println!(rt; "no store");
    };
    if connect(rt.alloc(), &mut store, 1).is_err() {
        return println!(rt; "no session");
    }
    let mut times = Times::new(rt.alloc());
    time(rt, &mut store, &pings, &mut times)?;
    let before = resident(rt)?;
    for _ in 0..RUNS {
        time(rt, &mut store, &pings, &mut times)?;
    }
    let after = resident(rt)?;
    println!(rt;
        "1,000,000 pings to a store that {does} its entries: {before} KiB resident before, {after} KiB after"
    )
}
