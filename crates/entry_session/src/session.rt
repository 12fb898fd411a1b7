//! A session.

ghost use Rattle.std.specs.Prelude.{◌≡◌, ◌≤◌, ◌<◌, ◌+◌, ◌^◌, ℕ, [], ◌∷◌, ◌++◌, List, length, ℤ, Ok, Err, Some, None, OnOk, IfOk, IfErr};
ghost use Rattle.request_queue.specs.Weights.{weight_of};
ghost use Rattle.zk_frame.specs.Framing.{Feeds, IsTooLong};
ghost use Rattle.zk_messages.specs.Sent.{client_limit};
ghost use Rattle.entry_session.specs.Heard.{Heard, given};
ghost use Rattle.entry_session.specs.Stands.{Stand, fresh, ends, weight};
ghost use Rattle.entry_session.specs.Runs.{IsGivenEnding, store_limit};
ghost use Rattle.entry_session.specs.Kept.{At, IsOfOne};
ghost use Rattle.entry_session.specs.Calls.{TakesFromClient, TakesFromStore, WantsAtClient, WantsAtStore, answer_of};
ghost use Rattle.entry_session.specs.Frames.{CannotFeed, CannotFeedStore, client_unfed, store_unfed};
ghost use Rattle.entry_session.specs.Pieces.{GoesOn, NextOfClient, NextOfStore, EndsUp, EndsDown};

use crate::ending::Ending;
use crate::progress::Progress;
use payload_seal::EntryKeys;
use reply_rewrite::Finding;
use std::alloc::Global;
use std::marker::Model;
use zk_frame::{FrameFault, Framer};

// The most bytes of a frame of each side.
const CLIENT_LIMIT: u32 = 4_194_303;

const STORE_LIMIT: u32 = 134_217_728;

/// One session between a client and a store that is not trusted.
///
/// It takes the bytes of both sides as they come, however they are cut, and appends what goes to the other side. It keeps the
/// bytes of the frames that are not whole yet and the requests that the store has not answered, and nothing else of what came.
#[derive(Drop)]
pub struct Session {
    progress: Progress,
    client: Framer,
    store: Framer,
    ending: Option<Ending>,
}

impl Model for Session {
    ghost use Rattle.std.specs.Prelude.{◌≡◌};
    ghost use Rattle.zk_messages.specs.Sent.{client_limit};
    ghost use Rattle.entry_session.specs.Runs.{store_limit};
    ghost use Rattle.entry_session.specs.Kept.{Kept};

    ghost Value = { Kept };

    ghost view = { λ s. record { going = s.progress; client = s.client.held; store = s.store.held; ending = s.ending } };

    ghost invariant = { λ s. (s.client.limit ≡ client_limit) × (s.store.limit ≡ store_limit) };
}

// The ending at bytes of the client that were not taken.
fn client_unfed(fault: FrameFault) -> Ending
    ensures { result ≡ client_unfed fault }
{
    match fault {
        FrameFault::TooLong { length } => Ending::ClientTooLong { length },
        FrameFault::Memory => Ending::Memory,
    }
}

// The ending at bytes of the store that were not taken.
fn store_unfed(fault: FrameFault) -> Ending
    ensures { result ≡ store_unfed fault }
{
    match fault {
        FrameFault::TooLong { length } => Ending::StoreTooLong { length },
        FrameFault::Memory => Ending::Memory,
    }
}

// Takes bytes of the client up to the end of a frame, and answers how many.
fn feed_client(framer: &mut Framer, piece: &[u8]) -> Result<usize, Ending>
    ensures taken { IfOk result (λ count. Feeds framer.old framer.new piece.now count) }
    ensures open { OnOk result ((z : ℤ) → IsTooLong framer.old.limit (framer.old.held ++ piece.now) z → ⊥) }
    ensures err { IfErr result (CannotFeed framer.old piece.now) }
    ensures limit { framer.new.limit ≡ framer.old.limit }
{
    framer.feed(piece).map_err(client_unfed)
}

// Hears the frame of the client that is whole with the first of these bytes, and answers how many they are. Without one all
// bytes are kept.
fn hear_next_of_client(
    framer: &mut Framer,
    progress: &mut Progress,
    piece: &[u8],
    up: &mut Vec<u8>,
) -> Result<Option<usize>, Ending>
    requires { framer.old.limit ≡ client_limit }
    ensures next { NextOfClient framer.old framer.new progress.old progress.new piece.now up.old.items up.new.items result }
    ensures wants { result ≡ Err Ending.Memory → up.new.items ≡ up.old.items }
    ensures limit { framer.new.limit ≡ framer.old.limit }
    ensures same { IsOfOne progress.old progress.new }
{
    let count = feed_client(framer, piece)?;
    let Some(body) = framer.whole() else {
        return Ok(None);
    };
    progress.hear_client(body, up)?;
    framer.end_frame();
    Ok(Some(count))
}

// Hears each frame of the client that is whole with these bytes.
fn take_client(
    framer: &mut Framer,
    progress: &mut Progress,
    piece: &[u8],
    up: &mut Vec<u8>,
) -> Result<(), Ending>
    requires { framer.old.limit ≡ client_limit }
    ensures takes { (result ≡ Err Ending.Memory → ⊥) → (hs : List Heard) (s : Stand) → GoesOn progress.old hs s
        → EndsUp progress.old progress.new result hs s (framer.old.held ++ piece.now) framer.new.held up.old.items up.new.items }
    ensures wants { result ≡ Err Ending.Memory → (hs : List Heard) (s : Stand) → GoesOn progress.old hs s
        → WantsAtClient progress.old hs framer.old.held s piece.now up.old.items up.new.items }
    ensures limit { framer.new.limit ≡ framer.old.limit }
    ensures same { IsOfOne progress.old progress.new }
{
    let mut rest = piece;
    while let Some(count) = hear_next_of_client(framer, progress, rest, up)? {
        let (_, after) = rest.split_at(count);
        rest = after;
    }
    Ok(())
}

// Takes bytes of the store up to the end of a frame, and answers how many.
fn feed_store(framer: &mut Framer, piece: &[u8]) -> Result<usize, Ending>
    ensures taken { IfOk result (λ count. Feeds framer.old framer.new piece.now count) }
    ensures open { OnOk result ((z : ℤ) → IsTooLong framer.old.limit (framer.old.held ++ piece.now) z → ⊥) }
    ensures err { IfErr result (CannotFeedStore framer.old piece.now) }
    ensures limit { framer.new.limit ≡ framer.old.limit }
{
    framer.feed(piece).map_err(store_unfed)
}

// Hears the frame of the store that is whole with the first of these bytes, and answers how many they are. Without one all
// bytes are kept.
fn hear_next_of_store(
    framer: &mut Framer,
    progress: &mut Progress,
    piece: &[u8],
    down: &mut Vec<u8>,
    findings: &mut Vec<Finding>,
) -> Result<Option<usize>, Ending>
    requires { framer.old.limit ≡ store_limit }
    ensures next { NextOfStore framer.old framer.new progress.old progress.new piece.now down.old.items down.new.items findings.old.items findings.new.items result }
    ensures wants { result ≡ Err Ending.Memory → (down.new.items ≡ down.old.items) × (findings.new.items ≡ findings.old.items) }
    ensures limit { framer.new.limit ≡ framer.old.limit }
    ensures same { IsOfOne progress.old progress.new }
{
    let count = feed_store(framer, piece)?;
    let Some(body) = framer.whole() else {
        return Ok(None);
    };
    progress.hear_store(body, down, findings)?;
    framer.end_frame();
    Ok(Some(count))
}

// Hears each frame of the store that is whole with these bytes.
fn take_store(
    framer: &mut Framer,
    progress: &mut Progress,
    piece: &[u8],
    down: &mut Vec<u8>,
    findings: &mut Vec<Finding>,
) -> Result<(), Ending>
    requires { framer.old.limit ≡ store_limit }
    ensures takes { (result ≡ Err Ending.Memory → ⊥) → (hs : List Heard) (s : Stand) → GoesOn progress.old hs s
        → EndsDown progress.old progress.new result hs s (framer.old.held ++ piece.now) framer.new.held down.old.items down.new.items findings.old.items findings.new.items }
    ensures wants { result ≡ Err Ending.Memory → (hs : List Heard) (s : Stand) → GoesOn progress.old hs s
        → WantsAtStore progress.old hs framer.old.held s piece.now down.old.items down.new.items findings.old.items findings.new.items }
    ensures limit { framer.new.limit ≡ framer.old.limit }
    ensures same { IsOfOne progress.old progress.new }
{
    let mut rest = piece;
    while let Some(count) = hear_next_of_store(framer, progress, rest, down, findings)? {
        let (_, after) = rest.split_at(count);
        rest = after;
    }
    Ok(())
}

// Hears each frame of the store that is whole with these bytes. Where memory is wanting, what was appended is taken back.
fn take_all(
    framer: &mut Framer,
    progress: &mut Progress,
    piece: &[u8],
    down: &mut Vec<u8>,
    findings: &mut Vec<Finding>,
) -> Result<(), Ending>
    requires { framer.old.limit ≡ store_limit }
    ensures takes { (result ≡ Err Ending.Memory → ⊥) → (hs : List Heard) (s : Stand) → GoesOn progress.old hs s
        → EndsDown progress.old progress.new result hs s (framer.old.held ++ piece.now) framer.new.held down.old.items down.new.items findings.old.items findings.new.items }
    ensures wants { result ≡ Err Ending.Memory → (hs : List Heard) (s : Stand) → GoesOn progress.old hs s
        → (down.new.items ≡ down.old.items) × (findings.new.items ≡ findings.old.items) }
    ensures limit { framer.new.limit ≡ framer.old.limit }
    ensures same { IsOfOne progress.old progress.new }
{
    let told = down.len();
    let known = findings.len();
    let Err(ending) = take_store(framer, progress, piece, down, findings) else {
        return Ok(());
    };
    match ending {
        Ending::Memory => {
            down.truncate(told);
            findings.truncate(known);
            Err(Ending::Memory)
        }
        other => Err(other),
    }
}

impl Session {
    /// The session of a connection in a boot, before anything is heard. Takes no memory.
    pub fn new(alloc: Global, keys: EntryKeys, boot: u32, connection: u32) -> Session
        requires { boot < 2 ^ 24 }
        ensures keys { result.going.keys ≡ keys }
        ensures boot { result.going.ivs.boot ≡ boot }
        ensures connection { result.going.ivs.connection ≡ connection }
        ensures at { At result [] [] [] fresh }
    {
        Session {
            progress: Progress::new(alloc, keys, boot, connection),
            client: Framer::new(alloc, CLIENT_LIMIT),
            store: Framer::new(alloc, STORE_LIMIT),
            ending: None,
        }
    }

    /// Takes bytes of the client, and appends to `up` what goes to the store for each frame that is whole by then: its requests,
    /// with each name and payload sealed.
    ///
    /// Each byte is read once, and a frame costs what its sealing costs, in however many pieces it comes.
    ///
    /// # Errors
    /// The session's ending, at this piece or before it. A frame at which it ends appends nothing, and what was appended for the
    /// frames before it stays. A session that has ended answers the same ending again, and appends nothing.
    pub fn from_client(&mut self, piece: &[u8], up: &mut Vec<u8>) -> Result<(), Ending>
        ensures answer { result ≡ answer_of self.new.ending }
        ensures takes { (self.new.ending ≡ Some Ending.Memory → ⊥) → (hs : List Heard) (client_rest store_rest : List ℕ) (s : Stand)
            → At self.old hs client_rest store_rest s → s.ending ≡ None
            → TakesFromClient self.old self.new hs client_rest store_rest s piece.now up.old.items up.new.items }
        ensures wants { self.new.ending ≡ Some Ending.Memory → (hs : List Heard) (client_rest store_rest : List ℕ) (s : Stand)
            → At self.old hs client_rest store_rest s → s.ending ≡ None
            → WantsAtClient self.old.going hs client_rest s piece.now up.old.items up.new.items }
        ensures ended { (e : Ending) → self.old.ending ≡ Some e → (self.new ≡ self.old) × (up.new.items ≡ up.old.items) }
        ensures same { IsOfOne self.old.going self.new.going }
    {
        if let Some(ending) = self.ending {
            return Err(ending);
        }
        let taken = take_client(&mut self.client, &mut self.progress, piece, up);
        self.ending = taken.err();
        taken
    }

    /// Takes bytes of the store, and appends to `down` what the client is told for each frame that is whole by then, and to
    /// `findings` what was wrong with replies.
    ///
    /// Content reaches the client only where it is accepted for the path that the oldest open request asked. Each byte is read
    /// once, and a frame costs what its opening costs, in however many pieces it comes.
    ///
    /// # Errors
    /// As for [`Session::from_client`], but that nothing is appended where memory is wanting. The ending `Closed` comes after the
    /// reply to closeSession was appended.
    pub fn from_store(
        &mut self,
        piece: &[u8],
        down: &mut Vec<u8>,
        findings: &mut Vec<Finding>,
    ) -> Result<(), Ending>
        ensures answer { result ≡ answer_of self.new.ending }
        ensures takes { (self.new.ending ≡ Some Ending.Memory → ⊥) → (hs : List Heard) (client_rest store_rest : List ℕ) (s : Stand)
            → At self.old hs client_rest store_rest s → s.ending ≡ None
            → TakesFromStore self.old self.new hs client_rest store_rest s piece.now down.old.items down.new.items findings.old.items findings.new.items }
        ensures wants { self.new.ending ≡ Some Ending.Memory → (hs : List Heard) (client_rest store_rest : List ℕ) (s : Stand)
            → At self.old hs client_rest store_rest s → s.ending ≡ None
            → (down.new.items ≡ down.old.items) × (findings.new.items ≡ findings.old.items) }
        ensures ended { (e : Ending) → self.old.ending ≡ Some e → (self.new ≡ self.old) × (down.new.items ≡ down.old.items) × (findings.new.items ≡ findings.old.items) }
        ensures same { IsOfOne self.old.going self.new.going }
    {
        if let Some(ending) = self.ending {
            return Err(ending);
        }
        let taken = take_all(&mut self.store, &mut self.progress, piece, down, findings);
        self.ending = taken.err();
        taken
    }

    /// Ends the session for a reason of the caller, unless it has ended, and answers why it ended. Takes no memory.
    pub fn end(&mut self, by: Ending) -> Ending
        requires { IsGivenEnding by }
        ensures ends { (hs : List Heard) (client_rest store_rest : List ℕ) (s : Stand) → At self.old hs client_rest store_rest s → s.ending ≡ None
            → At self.new (given by ∷ hs) client_rest store_rest (ends s by) }
        ensures first { self.old.ending ≡ None → (result ≡ by) × (self.new.ending ≡ Some by) }
        ensures ended { (e : Ending) → self.old.ending ≡ Some e → (result ≡ e) × (self.new ≡ self.old) }
        ensures same { IsOfOne self.old.going self.new.going }
    {
        let ending = self.ending.unwrap_or(by);
        self.ending = Some(ending);
        ending
    }

    /// Why the session ended, if it has. Takes no memory.
    pub fn ending(&self) -> Option<Ending>
        ensures { result ≡ self.now.ending }
    {
        self.ending
    }

    /// How much is kept: the bytes of both sides that are no whole frame yet, and what the open requests weigh, in bytes. Takes no memory.
    pub fn held(&self) -> u64
        ensures held { result ≡ length self.now.client + length self.now.store + weight_of self.now.going.queue }
        ensures bounded { result ≤ 206000000 }
        ensures at { (hs : List Heard) (client_rest store_rest : List ℕ) (s : Stand) → At self.now hs client_rest store_rest s → s.ending ≡ None
            → result ≡ length client_rest + length store_rest + weight s }
    {
        self.client.held() as u64 + self.store.held() as u64 + self.progress.weight()
    }
}
