//! The acts of one connection of a hall.

ghost use Rattle.std.specs.Prelude.{◌≡◌, ◌<◌, [], ◌∷◌, ℕ, Ok, IfOk};
ghost use Rattle.jute_core.specs.Faults.{HasCause, Takes};
ghost use Rattle.store_side.specs.Owed.{IsTime};
ghost use Rattle.tree_hall.specs.Histories.{Answers, HasAdmitted, Named, IsTimely, item};
ghost use Rattle.tree_hall.specs.Passes.{IsPassOf, number_of, seen_by};
ghost use Rattle.tree_hall.specs.declared.act.Act.TheVariants.{Admit, Feed, Pull, Lose, Tick};
ghost use Rattle.tree_hall.specs.declared.act.Answer.TheVariants.{Admitted, Gone};
ghost use Rattle.relay_io.specs.Serving.{Did, told_admit, told_feed, told_pull, told_tick, Handed};

use crate::line::Line;
use audit_board::Failed;
use jute_core::{Bytes, Memory};
use std::sync::Wait;
use store_side::{StoreEnding, StoreSide};
use tree_hall::{Act, Answer, Bells, Hall, Pass};

// The most bytes that are pulled at once.
const LIMIT: usize = 65_536;

/// Why pulling was cut short.
#[derive(Clone, Copy, Debug, Drop, PartialEq, Eq)]
pub enum Cut {
    /// What was pulled could not be written.
    Unwritten,
    /// The store had no memory.
    NoMemory,
}

// Has the store do an act.
fn act<S: StoreSide + Drop, B: Bells + Drop, R: Wait>(
    rt: &R,
    hall: &Hall<S, B>,
    pass: &mut Pass,
    act: Act,
) -> Result<Answer, StoreEnding>
    requires pass { IsPassOf hall.now.table.shared.table_id pass.old }
    requires named { Named (seen_by pass.old) act }
    requires time { IsTimely act }
    ensures did { Did hall.now.table.shared.table_id pass.old pass.new (item (number_of pass.old) act result ∷ []) }
    ensures kind { Answers act result }
    ensures admitted { (c : ℕ) → act ≡ Admit → result ≡ Ok (Admitted c) → HasAdmitted (seen_by pass.new) c }
{
    hall.act(rt, pass, act)
}

/// Has the store admit a connection.
pub(crate) fn admit<S: StoreSide + Drop, B: Bells + Drop, R: Wait>(
    rt: &R,
    hall: &Hall<S, B>,
    pass: &mut Pass,
) -> Result<u32, StoreEnding>
    requires { IsPassOf hall.now.table.shared.table_id pass.old }
    ensures did { Did hall.now.table.shared.table_id pass.old pass.new (item (number_of pass.old) Admit (told_admit result) ∷ []) }
    ensures admitted { IfOk result (λ c. HasAdmitted (seen_by pass.new) c) }
{
    match act(rt, hall, pass, Act::Admit)? {
        Answer::Admitted { connection } => Ok(connection),
        _ => unreachable!(),
    }
}

/// Feeds the store bytes of the connection.
pub(crate) fn feed<S: StoreSide + Drop, B: Bells + Drop, R: Wait>(
    rt: &R,
    hall: &Hall<S, B>,
    pass: &mut Pass,
    connection: u32,
    now: i64,
    piece: Bytes,
) -> Result<(), StoreEnding>
    requires pass { IsPassOf hall.now.table.shared.table_id pass.old }
    requires named { HasAdmitted (seen_by pass.old) connection }
    requires time { IsTime now }
    ensures did { Did hall.now.table.shared.table_id pass.old pass.new (item (number_of pass.old) (Feed connection now piece) (told_feed result) ∷ []) }
{
    let feed = Act::Feed {
        connection,
        now,
        piece,
    };
    act(rt, hall, pass, feed)?;
    Ok(())
}

/// Has the store end the sessions that were not heard in time.
pub(crate) fn tick<S: StoreSide + Drop, B: Bells + Drop, R: Wait>(
    rt: &R,
    hall: &Hall<S, B>,
    pass: &mut Pass,
    now: i64,
) -> Result<(), Memory>
    requires pass { IsPassOf hall.now.table.shared.table_id pass.old }
    requires time { IsTime now }
    ensures did { Did hall.now.table.shared.table_id pass.old pass.new (item (number_of pass.old) (Tick now) (told_tick result) ∷ []) }
{
    match act(rt, hall, pass, Act::Tick { now }) {
        Ok(_) => Ok(()),
        Err(_) => Err(Memory),
    }
}

/// Has the store lose the connection.
pub(crate) fn lose<S: StoreSide + Drop, B: Bells + Drop, R: Wait>(
    rt: &R,
    hall: &Hall<S, B>,
    pass: &mut Pass,
    connection: u32,
)
    requires pass { IsPassOf hall.now.table.shared.table_id pass.old }
    requires named { HasAdmitted (seen_by pass.old) connection }
    ensures did { Did hall.now.table.shared.table_id pass.old pass.new (item (number_of pass.old) (Lose connection) (Ok Gone) ∷ []) }
{
    let _ = act(rt, hall, pass, Act::Lose { connection });
}

// Pulls the first bytes that wait for the connection.
fn pull<S: StoreSide + Drop, B: Bells + Drop, R: Wait>(
    rt: &R,
    hall: &Hall<S, B>,
    pass: &mut Pass,
    connection: u32,
) -> Result<Bytes, Memory>
    requires pass { IsPassOf hall.now.table.shared.table_id pass.old }
    requires named { HasAdmitted (seen_by pass.old) connection }
    ensures did { Did hall.now.table.shared.table_id pass.old pass.new (item (number_of pass.old) (Pull connection 65536) (told_pull result) ∷ []) }
{
    let pull = Act::Pull {
        connection,
        limit: LIMIT,
    };
    match act(rt, hall, pass, pull) {
        Ok(Answer::Pulled(bytes)) => Ok(bytes),
        Ok(_) => unreachable!(),
        Err(_) => Err(Memory),
    }
}

// Writes to the client, unless there is nothing to write.
fn write_down<L: Line>(line: &mut L, bytes: &[u8]) -> Result<(), Failed>
    ensures bytes { Takes (L.told line.old).written (L.told line.new).written bytes.now result }
    ensures cause { HasCause (L.told line.old).faults (L.told line.new).faults result }
    ensures unheard { (L.told line.new).events ≡ (L.told line.old).events }
{
    if bytes.is_empty() {
        return Ok(());
    }
    line.write(bytes)
}

/// Pulls all that waits for the connection, and writes it to the client, in one write for each pull.
pub(crate) fn hand_down<S: StoreSide + Drop, B: Bells + Drop, L: Line, R: Wait>(
    rt: &R,
    hall: &Hall<S, B>,
    pass: &mut Pass,
    connection: u32,
    line: &mut L,
) -> Result<(), Cut>
    requires pass { IsPassOf hall.now.table.shared.table_id pass.old }
    requires named { HasAdmitted (seen_by pass.old) connection }
    ensures { Handed hall.now.table.shared.table_id connection pass.old pass.new (L.told line.old) (L.told line.new) result }
{
    for _ in rt.forever() {
        let Ok(bytes) = pull(rt, hall, pass, connection) else {
            return Err(Cut::NoMemory);
        };
        if let Err(_) = write_down(line, bytes.as_slice()) {
            return Err(Cut::Unwritten);
        }
        if bytes.len() < LIMIT {
            return Ok(());
        }
    }
    unreachable!()
}
