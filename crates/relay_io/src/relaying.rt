//! One relay between a client and a store.

ghost use Rattle.std.specs.Prelude.{◌≡◌, ◌<◌, ◌≤◌, ◌^◌, ℕ, length, vec_len, None, IfOk};
ghost use Rattle.jute_core.specs.Faults.{HasCause, Takes};
ghost use Rattle.relay_io.specs.Sides.{Sides, ClientStays, StoreStays};
ghost use Rattle.relay_io.specs.Scenes.{Line, Scene, opening};
ghost use Rattle.relay_io.specs.Relayed.{TellsAll, Relayed};
ghost use Rattle.relay_io.specs.Turns.{IsAt, SoFar, After, WentUp, WentDown};

use crate::duo::{Duo, Heard};
use audit_board::{Failed, Teller};
use entry_session::{Ending, Session};
use jute_core::Memory;
use payload_seal::EntryKeys;
use reply_rewrite::Finding;
use std::alloc::Global;

// The most bytes that are heard at once.
const PIECE: usize = 65_536;

// A session, and what it appended for the last event.
#[derive(Drop)]
struct Course {
    session: Session,
    up: Vec<u8>,
    down: Vec<u8>,
    findings: Vec<Finding>,
}

// Writes to the store, unless there is nothing to write.
fn write_up<D: Duo>(duo: &mut D, bytes: &[u8]) -> Result<(), Failed>
    ensures bytes { Takes (D.told duo.old).to_store (D.told duo.new).to_store bytes.now result }
    ensures cause { HasCause (D.told duo.old).store_faults (D.told duo.new).store_faults result }
    ensures other { ClientStays (D.told duo.old) (D.told duo.new) }
{
    if bytes.is_empty() {
        return Ok(());
    }
    duo.write_store(bytes)
}

// Writes to the client, unless there is nothing to write.
fn write_down<D: Duo>(duo: &mut D, bytes: &[u8]) -> Result<(), Failed>
    ensures bytes { Takes (D.told duo.old).to_client (D.told duo.new).to_client bytes.now result }
    ensures cause { HasCause (D.told duo.old).client_faults (D.told duo.new).client_faults result }
    ensures other { StoreStays (D.told duo.old) (D.told duo.new) }
{
    if bytes.is_empty() {
        return Ok(());
    }
    duo.write_client(bytes)
}

// Tells a board these findings, in order.
fn tell_all<B: Teller>(findings: &[Finding], board: &mut B)
    ensures { TellsAll B.Told board.old findings.now board.new }
{
    for finding in findings {
        board.tell(finding);
    }
}

impl Course {
    // The session before its first event.
    fn new(alloc: Global, keys: EntryKeys, boot: u32, connection: u32) -> Course
        requires { boot < 2 ^ 24 }
        ensures { IsAt (record { keys = keys; boot = boot; connection = connection }) opening result.session }
    {
        Course {
            session: Session::new(alloc, keys, boot, connection),
            up: Vec::new(alloc),
            down: Vec::new(alloc),
            findings: Vec::new(alloc),
        }
    }

    // Hears a piece of the client, and writes to the store what the session hands up for it.
    fn pass_up<D: Duo>(&mut self, piece: &[u8], duo: &mut D) -> Result<(), Ending>
        ensures went { (line : Line) (scene : Scene) → IsAt line scene self.old.session → scene.stand.ending ≡ None
            → WentUp line scene piece.now (D.told duo.old) (D.told duo.new) self.new.session result }
        ensures later { (D.told duo.old).store_faults ≤ (D.told duo.new).store_faults }
        ensures other { ClientStays (D.told duo.old) (D.told duo.new) }
    {
        self.up.clear();
        let taken = self.session.from_client(piece, &mut self.up);
        let written = write_up(duo, self.up.as_slice());
        taken?;
        match written {
            Ok(()) => Ok(()),
            Err(_) => Err(self.session.end(Ending::StoreFault)),
        }
    }

    // Hears a piece of the store, writes to the client what the session hands down for it, and tells the board what was found.
    fn pass_down<D: Duo, B: Teller>(
        &mut self,
        piece: &[u8],
        duo: &mut D,
        board: &mut B,
    ) -> Result<(), Ending>
        ensures went { (line : Line) (scene : Scene) → IsAt line scene self.old.session → scene.stand.ending ≡ None
            → WentDown line scene piece.now (D.told duo.old) (D.told duo.new) B.Told board.old board.new self.new.session result }
        ensures later { (D.told duo.old).client_faults ≤ (D.told duo.new).client_faults }
        ensures other { StoreStays (D.told duo.old) (D.told duo.new) }
    {
        self.down.clear();
        self.findings.clear();
        let taken = self
            .session
            .from_store(piece, &mut self.down, &mut self.findings);
        let written = write_down(duo, self.down.as_slice());
        tell_all(self.findings.as_slice(), board);
        taken?;
        match written {
            Ok(()) => Ok(()),
            Err(_) => Err(self.session.end(Ending::ClientFault)),
        }
    }

    // Hears the next event, and does what it asks for.
    fn turn<D: Duo, B: Teller>(
        &mut self,
        buffer: &mut [u8],
        duo: &mut D,
        board: &mut B,
    ) -> Result<(), Ending>
        requires { 0 < length buffer.old }
        ensures { (line : Line) (turns : ℕ) (before : Sides) (start : B) (count : ℕ) → count < turns
            → SoFar line before (D.told duo.old) B.Told start board.old count self.old.session
            → After line turns before (D.told duo.new) B.Told start board.new count self.new.session result }
    {
        match duo.next(buffer) {
            Heard::Client(count) => self.pass_up(&buffer[..count], duo),
            Heard::Store(count) => self.pass_down(&buffer[..count], duo, board),
            Heard::ClientEnd => Err(self.session.end(Ending::ClientEnd)),
            Heard::StoreEnd => Err(self.session.end(Ending::StoreEnd)),
            Heard::Idle => Ok(()),
            Heard::ClientFailed => Err(self.session.end(Ending::ClientFault)),
            Heard::StoreFailed => Err(self.session.end(Ending::StoreFault)),
        }
    }
}

// The buffer for what is heard at once.
fn piece_buffer(alloc: Global) -> Result<Vec<u8>, Memory>
    ensures { IfOk result (λ buffer. vec_len buffer ≡ 65536) }
{
    Ok(vec![in alloc; 0u8; PIECE]?)
}

/// Relays between the client and the store of a duo, for so many events at most, and answers why it ended.
///
/// Each piece of bytes that the duo gives goes to the session of this connection in this boot. What the session hands up for it is
/// written to the store, in one write; or what it hands down is written to the client, in one write, and then the board is told
/// what was found. An ending of the session is answered also where the write behind it fails. A failed write, a failure of the
/// duo, the end of a side and the last of the turns end the relay too.
///
/// Takes the memory of its buffers once, 64 KiB and as much as the largest piece makes the session append.
pub fn relay<D: Duo, B: Teller>(
    alloc: Global,
    keys: EntryKeys,
    boot: u32,
    connection: u32,
    turns: u64,
    duo: &mut D,
    board: &mut B,
) -> Ending
    requires { boot < 2 ^ 24 }
    ensures relayed { Relayed (record { keys = keys; boot = boot; connection = connection }) turns (D.told duo.old) (D.told duo.new)
        B.Told board.old board.new result }
{
    let Ok(mut buffer) = piece_buffer(alloc) else {
        return Ending::Memory;
    };
    let mut course = Course::new(alloc, keys, boot, connection);
    for _turn in 0..turns {
        if let Err(ending) = course.turn(buffer.as_mut_slice(), duo, board) {
            return ending;
        }
    }
    course.session.end(Ending::Turns)
}
