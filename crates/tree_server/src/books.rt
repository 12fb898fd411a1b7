//! What a store keeps of its sessions and its order beside the tree.

ghost use Rattle.std.specs.Prelude.{◌≡◌, ◌+◌, ◌<◌, ◌≤◌, ◌^◌, ◌+ℤ◌, [], false, IsTrue, pos};
ghost use Rattle.store_side.specs.Past.{password_of};
ghost use Rattle.store_side.specs.Owed.{IsTime};
ghost use Rattle.tree_server.specs.Times.{LeavesDue};

use crate::dues::{Due, Dues};
use aes_block::Key;
use std::alloc::Global;

/// The key of the sessions' passwords, the most entries that there may be with those owed, how many there are and how many are
/// owed, the greatest session number so far, and the sessions by the times at which they would be up.
#[derive(Drop)]
pub struct Books {
    pub passwords: Key,
    pub limit: u64,
    pub entries: u64,
    pub owed: u64,
    pub greatest: i64,
    pub dues: Dues,
}

impl Books {
    /// The books of a store without sessions. Takes no memory.
    pub(crate) fn new(alloc: Global, passwords: Key, limit: u64) -> Books
        ensures { result ≡ record { passwords = passwords; limit = limit; entries = 0; owed = 0; greatest = pos 0; dues = [] } }
    {
        Books {
            passwords,
            limit,
            entries: 0,
            owed: 0,
            greatest: 0,
            dues: Dues::new(alloc),
        }
    }

    /// Whether so many entries more, with those owed, are within the limit.
    pub(crate) fn has_room(&self, more: u64) -> bool
        ensures yes { IsTrue result → self.now.limit < 2 ^ 63 → self.now.entries + self.now.owed + more ≤ self.now.limit }
        ensures no { result ≡ false → self.now.limit < self.now.entries + self.now.owed + more }
    {
        self.entries.saturating_add(self.owed).saturating_add(more) <= self.limit
    }

    /// The password of a session.
    pub(crate) fn password(&self, session: i64) -> [u8; 16]
        ensures { result ≡ password_of self.now.passwords session }
    {
        let mut block = [0; 16];
        block[8..].copy_from_slice(&session.to_be_bytes());
        self.passwords.encrypt(block)
    }

    /// Takes a time out, unless it is the other one. Takes no memory.
    pub(crate) fn leave(&mut self, due: Due, other: Due)
        ensures dues { LeavesDue due other self.old.dues self.new.dues }
        ensures rest { self.new ≡ record self.old { dues = self.new.dues } }
    {
        if due != other {
            self.dues.remove(due);
        }
    }
}

/// The time at which a session that was heard would be up.
pub(crate) fn due(heard: i64, timeout: i32, session: i64) -> Due
    ensures session { result.session ≡ session }
    ensures at { IsTime heard → result.at ≡ heard +ℤ timeout }
{
    Due {
        at: heard.saturating_add(i64::from(timeout)),
        session,
    }
}
