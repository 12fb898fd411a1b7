//! Relays of one whole session, over a duo in memory and over sockets, and served connections over a line in memory.

ghost use Rattle.std.specs.Prelude.{◌≡◌, ◌+◌, ◌<◌, All, IfOk, OnOk};
ghost use Rattle.store_side.specs.Owed.{IsTime};
ghost use Rattle.relay_io.specs.MemoryLines.{time_of};

use crate::{
    DuoEvent, Line, LineEvent, MemoryDuo, MemoryLine, ServeEnding, SocketDuo, relay, serve_client,
};
use audit_board::{Board, ListObserver, Observer, Teller};
use entry_session::Ending;
use jute_core::{Bytes, Memory};
use path_seal::NameKeys;
use payload_seal::{EntryKeys, Flaw, PayloadKeys};
use reply_rewrite::{Cause, Finding};
use std::alloc::{AllocError, Global};
use std::io::{self, Read, Write};
use std::net::{TcpListener, TcpStream};
use std::sync::Wait;
use std::test::Fail;
use std::thread;
use store_side::{StoreEnding, StoreSide};
use tree_hall::{Hall, NoBells};

// A connect, exists "/" and closeSession.
const ASKED: &[u8] =
    b"\0\0\0\x2d\0\0\0\0\0\0\0\0\0\0\0\0\0\0\x75\x30\0\0\0\0\0\0\0\0\0\0\0\x10\0\0\0\0\0\0\0\0\0\0\0\0\0\0\0\0\0\
    \0\0\0\x0e\0\0\0\x01\0\0\0\x03\0\0\0\x01/\0\0\0\0\x08\0\0\0\x02\xff\xff\xff\xf5";

// The connect alone.
const CONNECT: usize = 49;

// The answer to the connect alone.
const CONNECTED: usize = 41;

// What a store answers to them: a session, the Stat of the root, and nothing.
const ANSWERED: &[u8] =
    b"\0\0\0\x25\0\0\0\0\0\0\x75\x30\0\0\0\0\0\0\0\x01\0\0\0\x10\x58\xe2\xfc\xce\xfa\x7e\x30\x61\x36\x7f\x1d\x57\xa4\xe7\x45\x5a\0\
    \0\0\0\x54\0\0\0\x01\0\0\0\0\0\0\0\x01\0\0\0\0\
    \0\0\0\0\0\0\0\0\0\0\0\0\0\0\0\0\0\0\0\0\0\0\0\0\0\0\0\0\0\0\0\0\0\0\
    \0\0\0\0\0\0\0\0\0\0\0\0\0\0\0\0\0\0\0\0\0\0\0\0\0\0\0\0\0\0\0\0\0\0\
    \0\0\0\x10\0\0\0\x02\0\0\0\0\0\0\0\x02\0\0\0\0";

// How many findings were told.
#[derive(Drop)]
struct Tally {
    count: u64,
}

impl Teller for Tally {
    ghost use Rattle.std.specs.Prelude.{◌≤◌};

    ghost Told = { λ before finding after. before.count ≤ after.count };

    fn tell(&mut self, _finding: &Finding) -> u32 {
        self.count = self.count.saturating_add(1);
        0
    }
}

fn keys() -> EntryKeys {
    EntryKeys {
        names: NameKeys::new([0; 16], [0; 32]),
        payloads: PayloadKeys::new([1; 16]),
    }
}

fn bytes(alloc: Global, of: &[u8]) -> Result<Bytes, AllocError> {
    Ok(Bytes::of(Vec::from_slice(alloc, of)?))
}

// Both sides of the session, a piece each, of which the calls with these numbers fail.
fn whole_session(alloc: Global, fails: &[u64]) -> Result<MemoryDuo, AllocError> {
    let events = vec![in alloc;
        DuoEvent::Idle,
        DuoEvent::Client(bytes(alloc, ASKED)?),
        DuoEvent::Store(bytes(alloc, b"")?),
        DuoEvent::Store(bytes(alloc, ANSWERED)?),
    ]?;
    Ok(MemoryDuo::new(alloc, events, Vec::from_slice(alloc, fails)?))
}

#[test]
fn both_sides_hold_what_the_session_handed_over(rt: HostRuntime) -> Result<(), Fail> {
    let alloc = rt.alloc();
    let mut duo = whole_session(alloc, &[])?;
    let mut board = Tally { count: 0 };
    let ending = relay(alloc, keys(), 0, 1, 10, &mut duo, &mut board);
    assert_eq!(rt; ending, Ending::Closed);
    assert!(rt; duo.store_taken() == ASKED);
    assert!(rt; duo.client_taken() == ANSWERED);
    assert_eq!(rt; (duo.heard().len(), duo.short(), board.count), (3, 0, 0));
    Ok(())
}

#[test]
fn a_write_to_the_store_that_fails_ends_the_relay(rt: HostRuntime) -> Result<(), Fail> {
    let alloc = rt.alloc();
    let events = vec![in alloc; DuoEvent::Client(bytes(alloc, &ASKED[..CONNECT])?)]?;
    let mut duo = MemoryDuo::new(alloc, events, Vec::from_slice(alloc, &[1])?);
    let mut board = Tally { count: 0 };
    let ending = relay(alloc, keys(), 0, 1, 10, &mut duo, &mut board);
    assert_eq!(rt; ending, Ending::StoreFault);
    assert!(rt; ASKED[..CONNECT].starts_with(duo.store_taken()));
    assert_eq!(rt; duo.client_taken().len(), 0);
    Ok(())
}

#[test]
fn a_session_that_closes_is_closed_though_the_last_write_fails(
    rt: HostRuntime,
) -> Result<(), Fail> {
    let alloc = rt.alloc();
    let mut duo = whole_session(alloc, &[4])?;
    let mut board = Tally { count: 0 };
    let ending = relay(alloc, keys(), 0, 1, 10, &mut duo, &mut board);
    assert_eq!(rt; ending, Ending::Closed);
    assert!(rt; duo.store_taken() == ASKED);
    assert_eq!(rt; duo.client_taken().len(), 0);
    Ok(())
}

#[test]
fn turns_that_are_used_up(rt: HostRuntime) -> Result<(), Fail> {
    let alloc = rt.alloc();
    let mut duo = whole_session(alloc, &[])?;
    let mut board = Tally { count: 0 };
    let ending = relay(alloc, keys(), 0, 1, 2, &mut duo, &mut board);
    assert_eq!(rt; ending, Ending::Turns);
    assert!(rt; duo.store_taken() == ASKED);
    Ok(())
}

// The requests of this xid that asks for the content of "/a", and an answer of three bytes, which are no payload.
fn read_and_answer(alloc: Global, xid: u8) -> Result<(Bytes, Bytes), AllocError> {
    let mut read = Vec::from_slice(alloc, b"\0\0\0\x0f\0\0\0\x01\0\0\0\x04\0\0\0\x02/a\0")?;
    read[7] = xid;
    let mut answer = Vec::from_slice(
        alloc,
        b"\0\0\0\x5b\0\0\0\x01\0\0\0\0\0\0\0\x01\0\0\0\0\0\0\0\x03abc",
    )?;
    answer[7] = xid;
    answer.extend_from_slice(&[0; 68])?;
    Ok((Bytes::of(read), Bytes::of(answer)))
}

fn add(board: &mut Board, member: Box<dyn Observer + Send>) -> Result<(), AllocError>
    requires { board.old.added < 4294967295 }
    ensures { OnOk result (board.new.added ≡ board.old.added + 1) }
{
    match board.add(member) {
        Ok(_) => Ok(()),
        Err(_) => Err(AllocError),
    }
}

// The finding of the reply to the request of this xid, which so many replies go before.
fn short_payload(before: u8) -> Finding {
    Finding {
        connection: 1,
        reply: before as u64,
        xid: before as i32 + 1,
        cause: Cause::Payload(Flaw::Short { length: 3 }),
    }
}

#[test]
fn a_member_that_fails_goes_and_the_next_is_told_all_findings(rt: HostRuntime) -> Result<(), Fail> {
    let alloc = rt.alloc();
    let mut events = vec![in alloc;
        DuoEvent::Client(bytes(alloc, &ASKED[..CONNECT])?),
        DuoEvent::Store(bytes(alloc, &ANSWERED[..CONNECTED])?),
    ]?;
    for xid in 1..4 {
        let (read, answer) = read_and_answer(alloc, xid)?;
        events.push(DuoEvent::Client(read))?;
        events.push(DuoEvent::Store(answer))?;
    }
    let mut duo = MemoryDuo::new(alloc, events, Vec::new(alloc));
    let mut board = Board::new(alloc);
    add(
        &mut board,
        Box::new(alloc, ListObserver::new(alloc, vec![in alloc; 1]?))?,
    )?;
    add(
        &mut board,
        Box::new(alloc, ListObserver::new(alloc, Vec::new(alloc)))?,
    )?;
    let ending = relay(alloc, keys(), 0, 1, 100, &mut duo, &mut board);
    assert_eq!(rt; ending, Ending::ClientEnd);
    assert_eq!(rt; board.members(), 1);
    let Some(member) = board.remove(1) else {
        panic!(rt; "the second member is gone")
    };
    for before in 0..3 {
        assert_eq!(rt; member.noted(before as usize), Some(short_payload(before)));
    }
    assert_eq!(rt; member.noted(3), None);
    Ok(())
}

// A store: takes what is asked, answers it, and hears the end.
fn answer(listener: &TcpListener) -> io::Result<bool> {
    let (mut stream, _) = listener.accept()?;
    let mut asked = [0u8; 79];
    stream.read_exact(&mut asked)?;
    stream.write_all(ANSWERED)?;
    Ok(asked.as_slice() == ASKED)
}

#[test]
fn a_session_over_sockets(rt: HostRuntime) -> Result<(), Fail> {
    let alloc = rt.alloc();
    let store = TcpListener::bind(&rt, "127.0.0.1:0")?;
    let store_at = store.local_addr()?;
    let front = TcpListener::bind(&rt, "127.0.0.1:0")?;
    let mut client = TcpStream::connect(&rt, front.local_addr()?)?;
    let (near, _) = front.accept()?;
    let far = TcpStream::connect(&rt, store_at)?;
    let server = thread::spawn(&rt, move || answer(&store))?;
    client.write_all(ASKED)?;
    let mut duo = SocketDuo::new(near, far)?;
    let mut board = Tally { count: 0 };
    let ending = relay(alloc, keys(), 0, 1, 1000, &mut duo, &mut board);
    assert_eq!(rt; ending, Ending::Closed);
    let mut received = [0u8; 149];
    client.read_exact(&mut received)?;
    assert!(rt; received.as_slice() == ANSWERED);
    let asked = server.join(&rt);
    assert!(rt; matches!(asked, Ok(true)));
    Ok(())
}

// A store that answers each piece with itself, and may end its side then. It stands at no past, so its calls promise nothing.
#[derive(Drop)]
struct Echo {
    held: Vec<u8>,
    ends: bool,
}

impl StoreSide for Echo {
    ghost stands = { λ s past. ⊥ };

    fn admit(&mut self) -> Result<u32, StoreEnding> {
        Ok(1)
    }

    fn feed(&mut self, _connection: u32, _now: i64, piece: &[u8]) -> Result<(), StoreEnding> {
        if self.held.extend_from_slice(piece).is_err() {
            return Err(StoreEnding::Memory);
        }
        if self.ends {
            return Err(StoreEnding::SessionClosed);
        }
        Ok(())
    }

    fn pull(
        &mut self,
        _connection: u32,
        limit: usize,
        into: &mut Vec<u8>,
    ) -> Result<usize, Memory> {
        let count = self.held.len().min(limit);
        into.extend_from_slice(&self.held[..count])?;
        self.held.drain(..count);
        Ok(count)
    }

    fn lose(&mut self, _connection: u32) {}

    fn tick(&mut self, _now: i64) -> Result<(), Memory> {
        Ok(())
    }

    fn ending(&self, _connection: u32) -> Option<StoreEnding> {
        None
    }

    fn waiting(&self, _connection: u32) -> usize {
        self.held.len()
    }

    fn told(&mut self) -> Option<u32> {
        None
    }
}

// All that is asked, in one piece.
fn one_piece(alloc: Global) -> Result<Vec<LineEvent>, AllocError>
    ensures { IfOk result (λ events. All (λ event. IsTime (time_of event)) events.items) }
{
    let bytes = bytes(alloc, ASKED)?;
    Ok(vec![in alloc; LineEvent::Bytes { at: 0, bytes }]?)
}

// A line of that piece, of which the calls with these numbers fail.
fn line_of(alloc: Global, fails: &[u64]) -> Result<MemoryLine, AllocError> {
    let events = one_piece(alloc)?;
    Ok(MemoryLine::new(alloc, events, Vec::from_slice(alloc, fails)?))
}

// Serves a line that connects to an echo.
fn serve<R: Wait>(
    rt: &R,
    alloc: Global,
    ends: bool,
    line: &mut MemoryLine,
) -> Result<ServeEnding, Fail> {
    let echo = Echo {
        held: Vec::new(alloc),
        ends,
    };
    let (hall, mut pass) = Hall::new(alloc, echo, NoBells)?;
    Ok(serve_client(rt, alloc, &hall, &mut pass, 10, line))
}

#[test]
fn a_served_client_takes_what_its_store_answers(rt: HostRuntime) -> Result<(), Fail> {
    let alloc = rt.alloc();
    let mut line = line_of(alloc, &[])?;
    let ending = serve(&rt, alloc, false, &mut line)?;
    assert_eq!(rt; ending, ServeEnding::LineEnd);
    assert!(rt; line.taken() == ASKED);
    assert_eq!(rt;
        (line.heard().len(), line.faults(), line.short()),
        (2, 0, 0)
    );
    Ok(())
}

#[test]
fn what_waits_where_the_store_ends_is_taken(rt: HostRuntime) -> Result<(), Fail> {
    let alloc = rt.alloc();
    let mut line = line_of(alloc, &[])?;
    let ending = serve(&rt, alloc, true, &mut line)?;
    assert_eq!(rt; ending, ServeEnding::Store(StoreEnding::SessionClosed));
    assert!(rt; line.taken() == ASKED);
    Ok(())
}

#[test]
fn a_write_to_a_served_client_that_fails_ends_it(rt: HostRuntime) -> Result<(), Fail> {
    let alloc = rt.alloc();
    let mut line = line_of(alloc, &[1])?;
    let ending = serve(&rt, alloc, false, &mut line)?;
    assert_eq!(rt; ending, ServeEnding::LineFault);
    assert_eq!(rt;
        (line.taken().len(), line.heard().len(), line.faults()),
        (0, 1, 1)
    );
    Ok(())
}
