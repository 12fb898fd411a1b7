//! Bytes of one connection on their ways between its client, its session and a store.

ghost use Rattle.std.specs.Prelude.{◌≡◌, ◌++◌, ℕ, Err, OnOk, length, true};
ghost use Rattle.payload_seal.specs.declared.keys.EntryKeys.{EntryKeys as PlainKeys};
ghost use Rattle.store_side.specs.Past.{Past};
ghost use Rattle.store_side.specs.Calls.{after_pull};
ghost use Rattle.store_side.specs.Follows.{IsAdmitted};
ghost use Rattle.store_side.specs.Owed.{IsTime};
ghost use Rattle.world_core.specs.Standing.{Keeps, MovesSpot};
ghost use Rattle.world_core.specs.Steps.{BringsIf, Cuts, Feeds, GoesDown, GoesUp, Leaves, Spot, count_of, first_of, over};

use crate::amount::Amount;
use crate::connection::Connection;
use entry_session::Ending;
use jute_core::Memory;
use std::alloc::Global;
use store_side::{StoreEnding, StoreSide};

// Answers `Ok` where a store took bytes or its side is over, but `Memory` where memory was wanting.
fn took(answer: Result<(), StoreEnding>) -> Result<(), Memory>
    ensures { OnOk result (answer ≡ Err StoreEnding.Memory → ⊥) }
{
    match answer {
        Err(StoreEnding::Memory) => Err(Memory),
        _ => Ok(()),
    }
}

// Feeds the store the first bytes that were handed up and that it has not had.
fn feed<S: StoreSide>(
    store: &mut S,
    number: u32,
    now: i64,
    connection: &mut Connection,
    amount: Amount,
) -> Result<(), Memory>
    requires { IsTime now }
    ensures { OnOk result (MovesSpot number (S.stands store.old) connection.old (S.stands store.new) connection.new (λ k boot old new. Feeds number now amount old new)) }
{
    took(store.feed(number, now, connection.unfed(amount)))?;
    connection.deliver(amount);
    Ok(())
}

// Has the store lose the connection, once its session has ended and all that this handed up was delivered.
fn leave<S: StoreSide>(store: &mut S, number: u32, connection: &Connection)
    ensures { MovesSpot number (S.stands store.old) connection.now (S.stands store.new) connection.now (λ k boot old new. Leaves number old new) }
{
    if connection.is_done() {
        store.lose(number);
    }
}

/// Moves bytes up: the first ones under way to the session, and the first ones that this handed up to the store.
pub(crate) fn go_up<S: StoreSide>(
    store: &mut S,
    number: u32,
    now: i64,
    connection: &mut Connection,
    first: Amount,
    second: Amount,
) -> Result<(), Memory>
    requires { IsTime now }
    ensures { OnOk result (MovesSpot number (S.stands store.old) connection.old (S.stands store.new) connection.new (λ k boot old new. GoesUp k boot number now first second old new)) }
{
    connection.hear_client(first)?;
    feed(store, number, now, connection, second)?;
    leave(store, number, connection);
    Ok(())
}

// Pulls the first waiting bytes behind `into`. More of them than a memory can hold are want of memory.
fn pull<S: StoreSide>(
    store: &mut S,
    number: u32,
    amount: Amount,
    into: &mut Vec<u8>,
) -> Result<(), Memory>
    ensures { OnOk result ((past : Past) → S.stands store.old past → IsAdmitted past number
        → (into.new.items ≡ into.old.items ++ first_of amount (past.waiting number))
        × S.stands store.new (after_pull number (count_of amount (length (past.waiting number))) past)) }
{
    match amount {
        Amount::AtMost(limit) => {
            store.pull(number, limit as usize, into)?;
        }
        Amount::All => {
            store.pull(number, usize::MAX, into)?;
            if store.waiting(number) > 0 {
                return Err(Memory);
            }
        }
    }
    Ok(())
}

// Ends the session, if it has not ended, where nothing waits and the store's side is over.
#[tactic(auto, unfolding(entry_session::specs::Runs::IsGivenEnding))]
fn end_over<S: StoreSide>(store: &S, number: u32, connection: &mut Connection)
    ensures { (k : PlainKeys) (boot : ℕ) (s : Spot) → S.stands store.now s.past → IsAdmitted s.past number → s.past.written ≡ true
        → Keeps k boot number (s.past.pulled number) connection.old s.link → Keeps k boot number (s.past.pulled number) connection.new (over number s).link }
{
    if store.waiting(number) == 0 && store.ending(number).is_some() {
        connection.end(Ending::StoreEnd);
    }
}

// Pulls the first waiting bytes and hands them to the session, unless it has ended.
fn bring<S: StoreSide>(
    alloc: Global,
    store: &mut S,
    number: u32,
    connection: &mut Connection,
    amount: Amount,
) -> Result<(), Memory>
    ensures { OnOk result (MovesSpot number (S.stands store.old) connection.old (S.stands store.new) connection.new
        (λ k boot old new. (brought : Spot) × BringsIf old.link.stand.ending k boot number amount old brought × (new ≡ over number brought))) }
{
    if connection.ending().is_some() {
        return Ok(());
    }
    let mut piece = Vec::new(alloc);
    pull(store, number, amount, &mut piece)?;
    connection.hear_store(piece.as_slice())?;
    end_over(store, number, connection);
    Ok(())
}

/// Moves bytes down: the first ones that wait, through the session to the client.
pub(crate) fn go_down<S: StoreSide>(
    alloc: Global,
    store: &mut S,
    number: u32,
    connection: &mut Connection,
    amount: Amount,
) -> Result<(), Memory>
    ensures { OnOk result (MovesSpot number (S.stands store.old) connection.old (S.stands store.new) connection.new (λ k boot old new. GoesDown k boot number amount old new)) }
{
    bring(alloc, store, number, connection, amount)?;
    leave(store, number, connection);
    Ok(())
}

/// Cuts the connection: ends its session, and has the store lose it.
#[tactic(auto, unfolding(entry_session::specs::Runs::IsGivenEnding))]
pub(crate) fn cut<S: StoreSide>(store: &mut S, number: u32, connection: &mut Connection)
    ensures { MovesSpot number (S.stands store.old) connection.old (S.stands store.new) connection.new (λ k boot old new. Cuts number old new) }
{
    connection.end(Ending::ClientEnd);
    connection.cut();
    store.lose(number);
}
