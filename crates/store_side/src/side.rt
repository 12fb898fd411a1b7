//! What a store offers to those who connect.

ghost use Rattle.std.specs.Prelude.{◌≡◌, ◌≢◌, ◌⊎◌, ◌+◌, ◌-◌, ◌≤◌, ◌^◌, ◌++◌, ℕ, List, true, false, length, take, min, Result, Ok, Err, Some, IfOk, IfErr, OnOk, OnErr, is_ok};
ghost use Rattle.store_side.specs.Past.{Past as Went};
ghost use Rattle.store_side.specs.Follows.{IsSound, IsAdmitted};
ghost use Rattle.store_side.specs.Owed.{IsTime};
ghost use Rattle.store_side.specs.Calls.{Fed, Ticked, IsLoss, admitted_one, after_pull, after_loss};
ghost use Rattle.store_side.specs.declared.entry.Entry.{Entry as PlainEntry};
ghost use Rattle.tree_state.specs.Step.{Act};
ghost use Rattle.store_side.specs.declared.ending.StoreEnding.{StoreEnding as PlainEnding};

use crate::ending::StoreEnding;
use crate::entry::Entry;
use jute_core::Memory;

/// A store, as those who connect to it see it: it admits connections, takes their bytes, and has bytes for them.
///
/// What it went through is a value, its past. It keeps of it what it needs and no more, and each call says of each past at which it
/// stood at which one it stands then. A time is in milliseconds, at least 0 and below 2^62.
pub trait StoreSide {
    /// The store stands at this past.
    ghost stands: { Self → Went → Type 0 };

    /// Admits a connection, and answers its number.
    ///
    /// # Errors
    /// `NumbersUsed` exactly where 4,294,967,295 were admitted; or `Memory`. Then the store stands where it stood.
    fn admit(&mut self) -> Result<u32, StoreEnding>
        ensures number { IfOk result (λ c. (past : Went) → stands self.old past → (c ≡ past.admitted + 1) × stands self.new (admitted_one past)) }
        ensures same { OnErr result ((past : Went) → stands self.old past → stands self.new past) }
        ensures used { (past : Went) → stands self.old past → result ≡ Err StoreEnding.NumbersUsed → past.admitted ≡ 2 ^ 32 - 1 }
        ensures why { IfErr result (λ e. (e ≡ StoreEnding.NumbersUsed) ⊎ (e ≡ StoreEnding.Memory)) };

    /// Takes bytes of a connection, as they come: each frame that is whole by then. The events and answers of what it takes wait for the
    /// connections that they are for.
    ///
    /// # Errors
    /// The ending of the store's side of the connection, by one of these frames or before it. The frames before it were taken.
    fn feed(&mut self, connection: u32, now: i64, piece: &[u8]) -> Result<(), StoreEnding>
        requires { IsTime now }
        ensures fed { (past : Went) → stands self.old past → IsAdmitted past connection → past.endings connection ≡ None
            → (new : Went) × stands self.new new × Fed connection now piece.now past new result }
        ensures ended { (past : Went) (e : PlainEnding) → stands self.old past → IsAdmitted past connection → past.endings connection ≡ Some e
            → (result ≡ Err e) × stands self.new past };

    /// Moves the first bytes that wait for a connection behind `into`, and answers how many: as many as the lesser of the limit and
    /// what waits.
    ///
    /// # Errors
    /// `Memory`; then nothing was moved.
    fn pull(&mut self, connection: u32, limit: usize, into: &mut Vec<u8>) -> Result<usize, Memory>
        ensures count { IfOk result (λ n. (past : Went) → stands self.old past → IsAdmitted past connection → n ≡ min limit (length (past.waiting connection))) }
        ensures moved { IfOk result (λ n. (past : Went) → stands self.old past → IsAdmitted past connection → into.new.items ≡ into.old.items ++ take n (past.waiting connection)) }
        ensures left { IfOk result (λ n. (past : Went) → stands self.old past → IsAdmitted past connection → stands self.new (after_pull connection n past)) }
        ensures same { OnErr result ((past : Went) → stands self.old past → stands self.new past) }
        ensures kept { OnErr result (into.new.items ≡ into.old.items) };

    /// A connection is lost. Its session stays. Takes no memory.
    fn lose(&mut self, connection: u32)
        ensures lost { (past : Went) → stands self.old past → IsAdmitted past connection → past.endings connection ≡ None
            → (entries : List PlainEntry) × (acts : List Act) × IsLoss past connection entries acts × stands self.new (after_loss connection entries acts past)
            × (IsSound past → IsSound (after_loss connection entries acts past)) }
        ensures ended { (past : Went) (e : PlainEnding) → stands self.old past → IsAdmitted past connection → past.endings connection ≡ Some e → stands self.new past };

    /// Ends each session that was not heard in time, in ascending number.
    ///
    /// # Errors
    /// `Memory`; then the first of them were ended.
    fn tick(&mut self, now: i64) -> Result<(), Memory>
        requires { IsTime now }
        ensures { (past : Went) → stands self.old past → (new : Went) × stands self.new new × Ticked now past new (is_ok result) };

    /// Why the store's side of a connection is over, if it is. Takes no memory.
    fn ending(&self, connection: u32) -> Option<StoreEnding>
        ensures { (past : Went) → stands self.now past → IsAdmitted past connection → result ≡ past.endings connection };

    /// How many bytes wait for a connection. Takes no memory.
    fn waiting(&self, connection: u32) -> usize
        ensures all { (past : Went) → stands self.now past → IsAdmitted past connection → past.written ≡ true → result ≡ length (past.waiting connection) }
        ensures most { (past : Went) → stands self.now past → IsAdmitted past connection → result ≤ length (past.waiting connection) };

    /// A connection to which bytes have come to wait since it was last named here, if the store tells one; it is a hint, and none need be
    /// told. Takes no memory.
    fn told(&mut self) -> Option<u32>
        ensures { (past : Went) → stands self.old past → stands self.new past };
}

/// A store that has kept its entries.
pub trait Recorded: StoreSide {
    /// The entries so far. Takes no memory.
    fn entries(&self) -> &[Entry]
        ensures { (past : Went) → Self.stands self.now past → result.now ≡ past.order };
}
