//! The sessions by the times at which they would be up.

ghost use Rattle.std.specs.Prelude.{◌≡◌, ◌≢◌, ◌⊎◌, ◌↔◌, ◌≤ℤ◌, ◌<ℤ◌, ℤ, List, [], false, Contains, IfOk, OnOk, OnErr, IfSome, IfNone};
ghost use Rattle.tree_server.specs.DueSets.{AreUp};
ghost use Rattle.store_side.specs.Calls.{IsAscending};

use jute_core::Memory;
use std::alloc::Global;
use std::collections::BTreeSet;
use std::marker::Model;

/// The time in milliseconds at which a session would be up, if it is not heard before.
#[derive(Clone, Copy, Debug, Drop, PartialEq, Eq, PartialOrd, Ord)]
pub struct Due {
    pub at: i64,
    pub session: i64,
}

/// The sessions in the order of the times at which they would be up. The first is found in time that grows with the logarithm of
/// their number.
#[derive(Drop)]
pub struct Dues {
    alloc: Global,
    set: BTreeSet<Due>,
}

impl Model for Dues {
    ghost use Rattle.std.specs.Prelude.{List};
    ghost use Rattle.tree_server.specs.declared.dues.Due.{Due};

    ghost Value = { List Due };

    ghost view = { λ d. d.set.keys };
}

impl Dues {
    /// None. Takes no memory.
    pub fn new(alloc: Global) -> Dues
        ensures { result ≡ [] }
    {
        Dues {
            alloc,
            set: BTreeSet::new(alloc),
        }
    }

    /// Adds one. Without memory all is as it was.
    pub fn add(&mut self, due: Due) -> Result<(), Memory>
        ensures ok { OnOk result ((d : Due) → Contains self.new d ↔ ((d ≡ due) ⊎ Contains self.old d)) }
        ensures err { OnErr result (self.new ≡ self.old) }
    {
        self.set.insert(due)?;
        Ok(())
    }

    /// Takes one out. Takes no memory.
    pub fn remove(&mut self, due: Due)
        ensures { (d : Due) → Contains self.new d ↔ ((d ≢ due) × Contains self.old d) }
    {
        self.set.remove(&due);
    }

    /// Whether the time of the first one has come. Takes no memory.
    pub fn has_come(&self, now: i64) -> bool
        ensures { result ≡ false → (d : Due) → Contains self.now d → now <ℤ d.at }
    {
        match self.set.first() {
            Some(first) => first.at <= now,
            None => false,
        }
    }

    /// The sessions whose time has come, in ascending order. The cost grows with their number, and its logarithm.
    pub fn up(&self, now: i64) -> Result<Vec<i64>, Memory>
        ensures up { IfOk result (λ sessions. AreUp self.now now sessions.items) }
        ensures ascending { IfOk result (λ sessions. IsAscending sessions.items) }
    {
        let mut sessions = Vec::new(self.alloc);
        for due in &self.set {
            if due.at > now {
                break;
            }
            sessions.push(due.session)?;
        }
        sessions.sort()?;
        sessions.dedup();
        Ok(sessions)
    }
}
