//! How endings are printed.

ghost use Rattle.std.specs.Prelude.{◌≡◌, ◌++◌, OnOk, string_bytes};
ghost use Rattle.replay_cli.specs.Endings.{event_flaw_text, ending_text, session_text, over_text, store_text};

use crate::printed::{push_count, push_field, push_int, push_number, push_refusal};
use entry_session::Ending;
use jute_core::Memory;
use std::alloc::Global;
use store_side::StoreEnding;
use watch_rewrite::EventFlaw;

fn push_event_flaw(alloc: Global, into: &mut String, flaw: EventFlaw) -> Result<(), Memory>
    ensures { OnOk result
        (string_bytes into.new ≡ string_bytes into.old ++ event_flaw_text flaw) }
{
    match flaw {
        EventFlaw::Kind { kind } => push_int(alloc, into, "bad-event kind ", kind)?,
        EventFlaw::State { state } => push_int(alloc, into, "bad-event state ", state)?,
        EventFlaw::Path => push_field(into, "bad-event path", "")?,
    }
    Ok(())
}

// Appends why a session ended.
fn push_ending(alloc: Global, into: &mut String, ending: Ending) -> Result<(), Memory>
    ensures { OnOk result (string_bytes into.new ≡ string_bytes into.old ++ ending_text ending) }
{
    match ending {
        Ending::Closed => push_field(into, "closed", "")?,
        Ending::ClientMalformed(refusal) => {
            push_refusal(alloc, into, "client-malformed ", refusal)?
        }
        Ending::ClientTooLong { length } => push_int(alloc, into, "client-too-long ", length)?,
        Ending::StoreMalformed(refusal) => push_refusal(alloc, into, "store-malformed ", refusal)?,
        Ending::StoreTooLong { length } => push_int(alloc, into, "store-too-long ", length)?,
        Ending::WrongXid { expected, got } => {
            push_int(alloc, into, "wrong-xid expected ", expected)?;
            push_int(alloc, into, " got ", got)?;
        }
        Ending::NothingOpen { xid } => push_int(alloc, into, "nothing-open ", xid)?,
        Ending::BadEvent(flaw) => push_event_flaw(alloc, into, flaw)?,
        Ending::QueueFull { weight } => push_count(alloc, into, "queue-full ", weight)?,
        Ending::IvSpent => push_field(into, "iv-spent", "")?,
        Ending::ClientEnd => push_field(into, "client-end", "")?,
        Ending::StoreEnd => push_field(into, "store-end", "")?,
        Ending::ClientFault => push_field(into, "client-fault", "")?,
        Ending::StoreFault => push_field(into, "store-fault", "")?,
        Ending::Turns => push_field(into, "turns", "")?,
        Ending::Memory => push_field(into, "memory", "")?,
    }
    Ok(())
}

/// Appends why a session ended, if it has.
pub fn push_session(alloc: Global, into: &mut String, ending: Option<Ending>) -> Result<(), Memory>
    ensures { OnOk result (string_bytes into.new ≡ string_bytes into.old ++ session_text ending) }
{
    match ending {
        Some(ending) => push_ending(alloc, into, ending)?,
        None => push_field(into, "open", "")?,
    }
    Ok(())
}

// Appends why the store's side of a connection is over.
fn push_over(alloc: Global, into: &mut String, ending: StoreEnding) -> Result<(), Memory>
    ensures { OnOk result (string_bytes into.new ≡ string_bytes into.old ++ over_text ending) }
{
    match ending {
        StoreEnding::Malformed(refusal) => push_refusal(alloc, into, "malformed ", refusal)?,
        StoreEnding::TooLong { length } => push_int(alloc, into, "too-long ", length)?,
        StoreEnding::AheadOfUs { seen, last } => {
            push_number(alloc, into, "ahead ", seen)?;
            push_number(alloc, into, " ", last)?;
        }
        StoreEnding::Expired { session } => push_number(alloc, into, "expired ", session)?,
        StoreEnding::Moved { session } => push_number(alloc, into, "moved ", session)?,
        StoreEnding::SessionClosed => push_field(into, "session-closed", "")?,
        StoreEnding::Lost => push_field(into, "lost", "")?,
        StoreEnding::JournalFull => push_field(into, "journal-full", "")?,
        StoreEnding::AnswerTooLong { length } => {
            push_count(alloc, into, "answer-too-long ", length)?
        }
        StoreEnding::NumbersUsed => push_field(into, "numbers-used", "")?,
        StoreEnding::Memory => push_field(into, "memory", "")?,
    }
    Ok(())
}

/// Appends why the store's side of a connection is over, if it is.
pub fn push_store(
    alloc: Global,
    into: &mut String,
    ending: Option<StoreEnding>,
) -> Result<(), Memory>
    ensures { OnOk result (string_bytes into.new ≡ string_bytes into.old ++ store_text ending) }
{
    match ending {
        Some(ending) => push_over(alloc, into, ending)?,
        None => push_field(into, "open", "")?,
    }
    Ok(())
}
