//! Worked rows on the server's own calls, with the bytes and the order that another program gave for them. The bytes of a row come and
//! go in one piece, in pieces of three bytes, and in pieces of one.

ghost use Rattle.store_side.specs.Owed.{IsTime};

use super::*;
use aes_block::Key;
use std::alloc::Global;
use std::process::Abort;
use std::test::Fail;
use store_side::{Entry, Recorded, StoreEnding, StoreSide};
use zk_path::PlainNumberer;

type Recording = TreeServer<PlainNumberer, Journal>;

type Answer = Result<(), StoreEnding>;

const SIZES: [usize; 3] = [65_536, 3, 1];

const CONNECT: &str =
    "0000002d000000000000000000000000000075300000000000000000000000100000000000000000000000000000000000";

// The answer to the first connect: session 1, with its password under a key of zeros.
const CONNECTED: &str =
    "00000025000000000000753000000000000000010000001058e2fccefa7e3061367f1d57a4e7455a00";

// A connect that has seen zxid 2 and asks for session 1 by its password.
const AGAIN: &str =
    "0000002d0000000000000000000000020000753000000000000000010000001058e2fccefa7e3061367f1d57a4e7455a00";

const EXISTS: &str = "0000000e0000000100000003000000012f00";

// A create of "/a" without content, and its answer where it is the first change.
const CREATE: &str =
    "000000310000000100000001000000022f61ffffffff000000010000001f00000005776f726c6400000006616e796f6e6500000000";

const CREATED: &str = "0000001600000001000000000000000200000000000000022f61";

// A store, and how many bytes at a time its connections send and receive.
#[derive(Drop)]
struct Row<S> {
    alloc: Global,
    store: S,
    size: usize,
}

// A row over a store that keeps at most so many entries, and has the connections 1 to 3.
fn recorded(alloc: Global, limit: u32, size: usize) -> Result<Row<Recording>, Fail> {
    let mut store = TreeServer::new(alloc, PlainNumberer, Key::new([0; 16]), limit)?;
    for _ in 0..3 {
        store.admit()?;
    }
    Ok(Row { alloc, store, size })
}

impl<S: StoreSide> Row<S> {
    // Sends bytes, in hex, until the connection is over.
    fn send(&mut self, connection: u32, now: i64, parts: &[&str]) -> Result<Answer, Fail>
        requires { IsTime now }
    {
        let bytes = hex::decode(self.alloc, joined(self.alloc, parts)?.as_str())?;
        for piece in bytes.chunks(self.size.max(1)) {
            if let Err(ending) = self.store.feed(connection, now, piece) {
                return Ok(Err(ending));
            }
        }
        Ok(Ok(()))
    }

    // Receives all that waits for a connection, which has to be these bytes, in hex.
    fn receive(&mut self, rt: &impl Abort, connection: u32, parts: &[&str]) -> Result<(), Fail> {
        let mut bytes = Vec::new(self.alloc);
        let mut left = self.store.waiting(connection);
        for _ in 0..left {
            let count = self.store.pull(connection, self.size, &mut bytes)?;
            assert_eq!(rt; count, left.min(self.size));
            left -= count;
        }
        let received = hex::encode(self.alloc, bytes.as_slice())?;
        let wanted = joined(self.alloc, parts)?;
        assert_eq!(rt; received.as_str(), wanted.as_str());
        Ok(())
    }
}

fn joined(alloc: Global, parts: &[&str]) -> Result<String, Fail> {
    let mut text = String::new(alloc);
    for part in parts {
        text.push_str(part)?;
    }
    Ok(text)
}

// The entries that a store has kept, each a line.
fn order_of(alloc: Global, store: &Recording) -> Result<String, Fail> {
    let mut text = String::new(alloc);
    for entry in store.entries() {
        let line = match entry {
            Entry::Connect {
                connection,
                session,
                zxid,
                now,
                ..
            } => format!(in alloc;
                "connect {connection} session {session} zxid {zxid} at {now}\n"
            )?,
            Entry::Take {
                connection,
                xid,
                zxid,
                now,
                ..
            } => format!(in alloc; "take {connection} xid {xid} zxid {zxid} at {now}\n")?,
            Entry::Lost { connection } => format!(in alloc; "lost {connection}\n")?,
            Entry::Expire { session, zxid, now } => {
                format!(in alloc; "expire {session} zxid {zxid} at {now}\n")?
            }
        };
        text.push_str(line.as_str())?;
    }
    Ok(text)
}

#[test]
fn a_session_lasts_from_its_connect_to_its_close(rt: HostRuntime) -> Result<(), Fail> {
    let alloc = rt.alloc();
    let found =
        "00000054000000010000000000000001000000000000000000000000000000000000000000000000000000000000000000000000000000000000000000000000000000000000000000000000000000000000000000000000";
    let close = "0000000800000002fffffff5";
    let closed = "0000001000000002000000000000000200000000";
    let order = "connect 1 session 1 zxid 1 at 0\n\
        take 1 xid 1 zxid 1 at 0\ntake 1 xid 2 zxid 2 at 0\n";
    for size in SIZES {
        let mut row = recorded(alloc, 1_000_000, size)?;
        let over = row.send(1, 0, &[CONNECT, EXISTS, close])?;
        assert_eq!(rt; over, Err(StoreEnding::SessionClosed));
        assert_eq!(rt; row.store.ending(1), Some(StoreEnding::SessionClosed));
        row.receive(&rt, 1, &[CONNECTED, found, closed])?;
        assert_eq!(rt; order_of(alloc, &row.store)?.as_str(), order);
    }
    Ok(())
}

#[test]
fn a_session_that_is_not_heard_ends_at_its_time(rt: HostRuntime) -> Result<(), Fail> {
    let alloc = rt.alloc();
    let create_ephemeral =
        "000000310000000100000001000000022f65ffffffff000000010000001f00000005776f726c6400000006616e796f6e6500000001";
    let connected =
        "0000002500000000000075300000000000000002000000100388dace60b6a392f328c2b971b2fe7800";
    let watch = "0000000f0000000100000003000000022f6501";
    let found =
        "00000054000000010000000000000003000000000000000000000002000000000000000200000000000000000000000000000000000000000000000000000000000000000000000100000000000000000000000000000002";
    let deleted = "0000001effffffffffffffffffffffff000000000000000200000003000000022f65";
    let late =
        "0000002d000000000000000000000000000075300000000000000001000000100000000000000000000000000000000000";
    let refused =
        "0000002500000000000000000000000000000000000000100000000000000000000000000000000000";
    let order = "connect 1 session 1 zxid 1 at 0\ntake 1 xid 1 zxid 2 at 0\nlost 1\n\
        connect 2 session 2 zxid 3 at 29999\ntake 2 xid 1 zxid 3 at 29999\n\
        expire 1 zxid 4 at 30000\nconnect 3 session 0 zxid 4 at 30000\n";
    for size in SIZES {
        let mut row = recorded(alloc, 1_000_000, size)?;
        assert_eq!(rt; row.send(1, 0, &[CONNECT, create_ephemeral])?, Ok(()));
        row.store.lose(1);
        assert_eq!(rt; row.send(2, 29_999, &[CONNECT, watch])?, Ok(()));
        assert_eq!(rt; row.store.tick(29_999), Ok(()));
        row.receive(&rt, 2, &[connected, found])?;
        assert_eq!(rt; row.store.tick(30_000), Ok(()));
        row.receive(&rt, 2, &[deleted])?;
        let over = row.send(3, 30_000, &[late])?;
        assert_eq!(rt; over, Err(StoreEnding::Expired { session: 1 }));
        row.receive(&rt, 3, &[refused])?;
        assert_eq!(rt; order_of(alloc, &row.store)?.as_str(), order);
    }
    Ok(())
}

#[test]
fn a_session_moves_when_its_connection_was_lost(rt: HostRuntime) -> Result<(), Fail> {
    let alloc = rt.alloc();
    let part = "0000000e000000020000";
    let watch = "00000022fffffff800000065000000000000000200000001000000022f610000000000000000";
    let watched = "00000010fffffff8000000000000000300000000";
    let order = "connect 1 session 1 zxid 1 at 0\ntake 1 xid 1 zxid 2 at 0\nlost 1\n\
        connect 2 session 1 zxid 3 at 0\ntake 2 xid -8 zxid 3 at 0\n";
    for size in SIZES {
        let mut row = recorded(alloc, 1_000_000, size)?;
        assert_eq!(rt; row.send(1, 0, &[CONNECT, CREATE, part])?, Ok(()));
        row.store.lose(1);
        assert_eq!(rt; row.send(2, 0, &[AGAIN, watch])?, Ok(()));
        assert_eq!(rt; row.store.ending(1), Some(StoreEnding::Lost));
        row.receive(&rt, 1, &[CONNECTED, CREATED])?;
        row.receive(&rt, 2, &[CONNECTED, watched])?;
        assert_eq!(rt; order_of(alloc, &row.store)?.as_str(), order);
    }
    Ok(())
}

#[test]
fn a_connection_ends_when_another_takes_its_session(rt: HostRuntime) -> Result<(), Fail> {
    let mut row = recorded(rt.alloc(), 1_000_000, 65_536)?;
    assert_eq!(rt; row.send(1, 0, &[CONNECT, CREATE])?, Ok(()));
    assert_eq!(rt; row.send(2, 0, &[AGAIN])?, Ok(()));
    let over = row.send(1, 0, &[EXISTS])?;
    assert_eq!(rt; over, Err(StoreEnding::Moved { session: 1 }));
    row.receive(&rt, 1, &[CONNECTED, CREATED])?;
    row.receive(&rt, 2, &[CONNECTED])?;
    Ok(())
}

#[test]
fn a_journal_without_room_takes_no_connect(rt: HostRuntime) -> Result<(), Fail> {
    let mut row = recorded(rt.alloc(), 2, 65_536)?;
    assert_eq!(rt; row.send(1, 0, &[CONNECT])?, Err(StoreEnding::JournalFull));
    assert_eq!(rt; row.store.ending(1), Some(StoreEnding::JournalFull));
    row.receive(&rt, 1, &[])?;
    assert_eq!(rt; row.store.entries().len(), 0);
    Ok(())
}

#[test]
fn a_forgetting_store_answers_pings_for_as_long_as_they_come(rt: HostRuntime) -> Result<(), Fail> {
    let ping = "00000008fffffffe0000000b";
    let pong = "00000010fffffffe000000000000000100000000";
    let (alloc, size) = (rt.alloc(), 65_536);
    let mut store = TreeServer::forgetting(alloc, PlainNumberer, Key::new([0; 16]))?;
    assert_eq!(rt; store.admit(), Ok(1));
    let mut row = Row { alloc, store, size };
    assert_eq!(rt; row.send(1, 0, &[CONNECT])?, Ok(()));
    row.receive(&rt, 1, &[CONNECTED])?;
    for now in 0..20_000_u32 {
        assert_eq!(rt; row.send(1, i64::from(now), &[ping])?, Ok(()));
        row.receive(&rt, 1, &[pong])?;
    }
    assert_eq!(rt; row.store.tick(49_998), Ok(()));
    assert_eq!(rt; row.store.ending(1), None);
    assert_eq!(rt; row.store.tick(49_999), Ok(()));
    let over = row.store.ending(1);
    assert_eq!(rt; over, Some(StoreEnding::Expired { session: 1 }));
    Ok(())
}
