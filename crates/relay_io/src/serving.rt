//! One connection of a store, served.

ghost use Rattle.std.specs.Prelude.{◌≡◌, ◌<◌, ◌++◌, List, length, vec_len, IfOk};
ghost use Rattle.store_side.specs.Owed.{IsTime};
ghost use Rattle.tree_hall.specs.declared.view.Item.{Item};
ghost use Rattle.tree_hall.specs.Histories.{HasAdmitted};
ghost use Rattle.tree_hall.specs.Passes.{IsPassOf, number_of, seen_by, calls_of};
ghost use Rattle.relay_io.specs.declared.line.LineEvent.TheVariants as events;
ghost use Rattle.relay_io.specs.Served.{Served, answer_of, answer_to};
ghost use Rattle.relay_io.specs.Serving.{Does, Turned, Ran};

use crate::line::{Line, LineWhat};
use crate::pulling::{Cut, admit, feed, hand_down, lose, tick};
use jute_core::{Bytes, Memory};
use std::alloc::Global;
use std::sync::Wait;
use store_side::{StoreEnding, StoreSide};
use tree_hall::{Bells, Hall, Pass};

// The most bytes that are heard at once.
const PIECE: usize = 65_536;

/// Why a connection is served no more.
#[derive(Clone, Copy, Debug, Drop, PartialEq, Eq)]
pub enum ServeEnding {
    /// The store's side of it ended, and not for want of memory.
    Store(StoreEnding),
    /// The client ended its side.
    LineEnd,
    /// The line failed.
    LineFault,
    /// So many events were heard.
    Turns,
    /// There was no memory.
    Memory,
}

// The answer where the store's side of the connection ended.
fn answer_of(ending: StoreEnding) -> ServeEnding
    ensures { result ≡ answer_of ending }
{
    match ending {
        StoreEnding::Memory => ServeEnding::Memory,
        _ => ServeEnding::Store(ending),
    }
}

// The answer where pulling was cut short.
fn answer_to(cut: Cut) -> ServeEnding
    ensures { result ≡ answer_to cut }
{
    match cut {
        Cut::Unwritten => ServeEnding::LineFault,
        Cut::NoMemory => ServeEnding::Memory,
    }
}

// Feeds a piece to the store, and hands down what waits then, also where the store's side of the connection ended.
fn serve_piece<S: StoreSide + Drop, B: Bells + Drop, L: Line, R: Wait>(
    rt: &R,
    alloc: Global,
    hall: &Hall<S, B>,
    pass: &mut Pass,
    connection: u32,
    at: i64,
    piece: &[u8],
    line: &mut L,
) -> Result<(), ServeEnding>
    requires pass { IsPassOf hall.now.table.shared.table_id pass.old }
    requires named { HasAdmitted (seen_by pass.old) connection }
    requires time { IsTime at }
    ensures { Does hall.now.table.shared.table_id connection pass.old pass.new (L.told line.old) (L.told line.new) (events.Bytes at piece.now) result }
{
    let Ok(piece) = Bytes::copy_of(alloc, piece) else {
        return Err(ServeEnding::Memory);
    };
    let fed = feed(rt, hall, pass, connection, at, piece);
    let handed = hand_down(rt, hall, pass, connection, line);
    if let Err(ending) = fed {
        return Err(answer_of(ending));
    }
    if let Err(cut) = handed {
        return Err(answer_to(cut));
    }
    Ok(())
}

// Has the store look at the time, and hands down what waits then.
fn serve_idle<S: StoreSide + Drop, B: Bells + Drop, L: Line, R: Wait>(
    rt: &R,
    hall: &Hall<S, B>,
    pass: &mut Pass,
    connection: u32,
    at: i64,
    line: &mut L,
) -> Result<(), ServeEnding>
    requires pass { IsPassOf hall.now.table.shared.table_id pass.old }
    requires named { HasAdmitted (seen_by pass.old) connection }
    requires time { IsTime at }
    ensures { Does hall.now.table.shared.table_id connection pass.old pass.new (L.told line.old) (L.told line.new) (events.Idle at) result }
{
    if let Err(_) = tick(rt, hall, pass, at) {
        return Err(ServeEnding::Memory);
    }
    if let Err(cut) = hand_down(rt, hall, pass, connection, line) {
        return Err(answer_to(cut));
    }
    Ok(())
}

// Hears the next event, and serves it.
fn turn<S: StoreSide + Drop, B: Bells + Drop, L: Line, R: Wait>(
    rt: &R,
    alloc: Global,
    hall: &Hall<S, B>,
    pass: &mut Pass,
    connection: u32,
    buffer: &mut [u8],
    line: &mut L,
) -> Result<(), ServeEnding>
    requires pass { IsPassOf hall.now.table.shared.table_id pass.old }
    requires named { HasAdmitted (seen_by pass.old) connection }
    requires room { 0 < length buffer.old }
    ensures { Turned hall.now.table.shared.table_id connection pass.old pass.new (L.told line.old) (L.told line.new) result }
{
    let heard = line.next(buffer);
    match heard.what {
        LineWhat::Bytes(count) => {
            let piece = &buffer[..count];
            serve_piece(rt, alloc, hall, pass, connection, heard.at, piece, line)
        }
        LineWhat::Idle => serve_idle(rt, hall, pass, connection, heard.at, line),
        LineWhat::End => Err(ServeEnding::LineEnd),
        LineWhat::Failed => Err(ServeEnding::LineFault),
    }
}

// The buffer for what is heard at once.
fn piece_buffer(alloc: Global) -> Result<Vec<u8>, Memory>
    ensures { IfOk result (λ buffer. vec_len buffer ≡ 65536) }
{
    Ok(vec![in alloc; 0u8; PIECE]?)
}

// Serves a connection that was admitted, event by event.
fn serve_admitted<S: StoreSide + Drop, B: Bells + Drop, L: Line, R: Wait>(
    rt: &R,
    alloc: Global,
    hall: &Hall<S, B>,
    pass: &mut Pass,
    connection: u32,
    turns: u64,
    line: &mut L,
) -> ServeEnding
    requires pass { IsPassOf hall.now.table.shared.table_id pass.old }
    requires named { HasAdmitted (seen_by pass.old) connection }
    ensures { Ran turns hall.now.table.shared.table_id connection pass.old pass.new (L.told line.old) (L.told line.new) result }
{
    let Ok(mut buffer) = piece_buffer(alloc) else {
        return ServeEnding::Memory;
    };
    for _turn in 0..turns {
        let buffer = buffer.as_mut_slice();
        if let Err(ending) = turn(rt, alloc, hall, pass, connection, buffer, line) {
            return ending;
        }
    }
    ServeEnding::Turns
}

/// Serves one connection of the store of a hall, for so many events at most, and answers why it ended.
///
/// Admits a connection. Each piece of bytes that the line hears is fed to the store, and each idle moment is a tick; then all that
/// waits for the connection is pulled and written to the line, in one write for each pull of up to 64 KiB. At the end the store
/// loses the connection. What waits is pulled and written also behind a feed that ended the store's side of the connection.
///
/// Takes the memory of its buffer once, 64 KiB, and that of each piece that is fed or pulled. Waits for the turns of the hall and
/// for the line.
pub fn serve_client<S: StoreSide + Drop, B: Bells + Drop, L: Line, R: Wait>(
    rt: &R,
    alloc: Global,
    hall: &Hall<S, B>,
    pass: &mut Pass,
    turns: u64,
    line: &mut L,
) -> ServeEnding
    requires { IsPassOf hall.now.table.shared.table_id pass.old }
    ensures same { IsPassOf hall.now.table.shared.table_id pass.new }
    ensures number { number_of pass.new ≡ number_of pass.old }
    ensures served { (calls : List Item) × (calls_of pass.new ≡ calls_of pass.old ++ calls)
        × Served turns (number_of pass.old) (L.told line.old) (L.told line.new) calls result }
{
    let connection = match admit(rt, hall, pass) {
        Ok(connection) => connection,
        Err(ending) => return answer_of(ending),
    };
    line.named(connection);
    let ending = serve_admitted(rt, alloc, hall, pass, connection, turns, line);
    lose(rt, hall, pass, connection);
    ending
}
