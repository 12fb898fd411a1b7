//! One connection: the bytes of both directions, and the session between them.

ghost use Rattle.std.specs.Prelude.{◌≡◌, ◌++◌, ℕ, List, [], Err, None, OnOk, drop, true, IsTrue, ◌↔◌};
ghost use Rattle.payload_seal.specs.declared.keys.EntryKeys.{EntryKeys as PlainKeys};
ghost use Rattle.entry_session.specs.Kept.{At};
ghost use Rattle.entry_session.specs.Runs.{IsGivenEnding};
ghost use Rattle.entry_session.specs.Stands.{fresh};
ghost use Rattle.world_core.specs.Moments.{Link, fresh_link};
ghost use Rattle.world_core.specs.Standing.{Keeps};
ghost use Rattle.world_core.specs.Steps.{ComesIf, Hears, ended, first_of, left_of, with_fed};

use crate::amount::Amount;
use entry_session::{Ending, Session};
use jute_core::Memory;
use reply_rewrite::Finding;
use std::alloc::Global;

/// What is kept of a connection.
#[derive(Drop)]
pub struct Connection {
    session: Session,
    // All that the client sent before a cut, and how much of it came to the session.
    sent: Vec<u8>,
    came: usize,
    // All that the session handed up, and how much of it the store was fed.
    handed: Vec<u8>,
    fed: usize,
    // All that it handed down, and what it found wrong: over a store that follows, nothing.
    received: Vec<u8>,
    findings: Vec<Finding>,
    cut: bool,
}

// Answers `Ok` where a session goes on or has ended, but `Memory` where it ended for want of memory.
fn answered(answer: Result<(), Ending>) -> Result<(), Memory>
    ensures { OnOk result (answer ≡ Err Ending.Memory → ⊥) }
{
    match answer {
        Err(Ending::Memory) => Err(Memory),
        _ => Ok(()),
    }
}

// Lends the bytes from a place on; past the end there are none.
fn behind(bytes: &[u8], place: usize) -> &[u8]
    ensures { result.now ≡ drop place bytes.now }
{
    let (_, rest) = bytes.split_at(place.min(bytes.len()));
    rest
}

// Splits off the bytes that are moved.
fn parted(bytes: &[u8], amount: Amount) -> (&[u8], &[u8])
    ensures moved { result.0.now ≡ first_of amount bytes.now }
    ensures left { result.1.now ≡ left_of amount bytes.now }
{
    bytes.split_at(amount.of(bytes.len()))
}

impl Connection {
    /// Makes a connection with this session, before anything came. Takes no memory.
    pub(crate) fn new(alloc: Global, session: Session) -> Connection
        ensures { (k : PlainKeys) (boot c : ℕ) → session.going.keys ≡ k → session.going.ivs.boot ≡ boot → session.going.ivs.connection ≡ c
            → At session [] [] [] fresh → Keeps k boot c [] result fresh_link }
    {
        Connection {
            session,
            sent: Vec::new(alloc),
            came: 0,
            handed: Vec::new(alloc),
            fed: 0,
            received: Vec::new(alloc),
            findings: Vec::new(alloc),
            cut: false,
        }
    }

    /// Appends to what the client sent.
    pub(crate) fn send(&mut self, bytes: &[u8]) -> Result<(), Memory>
        ensures { OnOk result ((k : PlainKeys) (boot c : ℕ) (pulled : List ℕ) (l : Link) → Keeps k boot c pulled self.old l
            → Keeps k boot c pulled self.new (record l { under_way = l.under_way ++ bytes.now })) }
    {
        self.sent.extend_from_slice(bytes)?;
        Ok(())
    }

    /// Hands the session the first bytes under way, unless it has ended. Looks at each byte once.
    pub(crate) fn hear_client(&mut self, amount: Amount) -> Result<(), Memory>
        ensures { OnOk result ((k : PlainKeys) (boot c : ℕ) (pulled : List ℕ) (l : Link) → Keeps k boot c pulled self.old l
            → (new : Link) × ComesIf l.stand.ending k boot c amount l new × Keeps k boot c pulled self.new new) }
    {
        if self.session.ending().is_some() {
            return Ok(());
        }
        let (piece, left) = parted(behind(self.sent.as_slice(), self.came), amount);
        answered(self.session.from_client(piece, &mut self.handed))?;
        self.came = self.sent.len() - left.len();
        Ok(())
    }

    /// Hands bytes of the store to the session, which goes on.
    pub(crate) fn hear_store(&mut self, piece: &[u8]) -> Result<(), Memory>
        ensures { OnOk result ((k : PlainKeys) (boot c : ℕ) (pulled : List ℕ) (l : Link) → Keeps k boot c pulled self.old l → l.stand.ending ≡ None
            → (new : Link) × Hears k boot c (pulled ++ piece.now) l new × Keeps k boot c (pulled ++ piece.now) self.new new) }
    {
        answered(
            self.session
                .from_store(piece, &mut self.received, &mut self.findings),
        )
    }

    /// Lends the first bytes that were handed up and that the store has not had.
    pub(crate) fn unfed(&self, amount: Amount) -> &[u8]
        ensures { (k : PlainKeys) (boot c : ℕ) (pulled : List ℕ) (l : Link) → Keeps k boot c pulled self.now l → result.now ≡ first_of amount l.unfed }
    {
        let (piece, _) = parted(behind(self.handed.as_slice(), self.fed), amount);
        piece
    }

    /// Counts these bytes as fed to the store.
    pub(crate) fn deliver(&mut self, amount: Amount)
        ensures { (k : PlainKeys) (boot c : ℕ) (pulled : List ℕ) (l : Link) → Keeps k boot c pulled self.old l → Keeps k boot c pulled self.new (with_fed amount l) }
    {
        let (_, left) = parted(behind(self.handed.as_slice(), self.fed), amount);
        self.fed = self.handed.len() - left.len();
    }

    /// Answers whether the session has ended and all that it handed up was delivered.
    pub(crate) fn is_done(&self) -> bool
        ensures { (k : PlainKeys) (boot c : ℕ) (pulled : List ℕ) (l : Link) → Keeps k boot c pulled self.now l
            → IsTrue result ↔ ((l.stand.ending ≡ None → ⊥) × (l.unfed ≡ [])) }
    {
        self.session.ending().is_some() && self.fed == self.handed.len()
    }

    /// Ends the session, if it has not ended.
    pub(crate) fn end(&mut self, ending: Ending)
        requires { IsGivenEnding ending }
        ensures { (k : PlainKeys) (boot c : ℕ) (pulled : List ℕ) (l : Link) → Keeps k boot c pulled self.old l → Keeps k boot c pulled self.new (ended ending l) }
    {
        self.session.end(ending);
    }

    /// Marks the connection as cut.
    pub(crate) fn cut(&mut self)
        ensures { (k : PlainKeys) (boot c : ℕ) (pulled : List ℕ) (l : Link) → Keeps k boot c pulled self.old l → Keeps k boot c pulled self.new (record l { cut = true }) }
    {
        self.cut = true;
    }

    /// Answers whether it was cut.
    pub(crate) fn was_cut(&self) -> bool
        ensures { result ≡ self.now.cut }
    {
        self.cut
    }

    /// Returns why the session ended, if it has.
    pub(crate) fn ending(&self) -> Option<Ending>
        ensures { result ≡ self.now.session.ending }
    {
        self.session.ending()
    }

    /// Lends all that the client sent before a cut.
    pub(crate) fn sent(&self) -> &[u8]
        ensures { result.now ≡ self.now.sent.items }
    {
        self.sent.as_slice()
    }

    /// Lends all that the client received.
    pub(crate) fn received(&self) -> &[u8]
        ensures { result.now ≡ self.now.received.items }
    {
        self.received.as_slice()
    }

    /// Lends all that the session handed up.
    pub(crate) fn handed(&self) -> &[u8]
        ensures { result.now ≡ self.now.handed.items }
    {
        self.handed.as_slice()
    }
}
