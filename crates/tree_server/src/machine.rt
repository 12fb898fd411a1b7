//! The tree with the order that it went through and what it owes.

ghost use Rattle.std.specs.Prelude.{◌≡◌, ◌⊎◌, ◌↔◌, ◌<◌, ◌≤◌, ◌^◌, ℕ, ℤ, List, [], Contains, Some, None, IfOk, IfErr, OnErr};
ghost use Rattle.tree_state.specs.Changes.{Naming};
ghost use Rattle.tree_state.specs.State.{session_of};
ghost use Rattle.tree_state.specs.Trees.{IsNaming};
ghost use Rattle.store_side.specs.Calls.{IsAscending};
ghost use Rattle.store_side.specs.Fitting.{frame_limit};
ghost use Rattle.store_side.specs.Orders.{IsOver};
ghost use Rattle.store_side.specs.Owed.{IsTime};
ghost use Rattle.store_side.specs.Past.{Past as Went, state_of};
ghost use Rattle.tree_server.specs.Machines.{Stands, Took, NotTaken, fresh};

use crate::books::Books;
use crate::journal::Keeping;
use crate::taking::Taken;
use aes_block::Key;
use jute_core::Memory;
use std::alloc::Global;
use store_side::StoreEnding;
use tree_state::Tree;
use zk_path::Numberer;

/// A tree, the order that it went through, and what it owes.
#[derive(Drop)]
pub struct Machine<N: Numberer, J: Keeping> {
    pub alloc: Global,
    pub tree: Tree<N>,
    pub journal: J,
    pub books: Books,
}

impl<N: Numberer + Drop, J: Keeping> Machine<N, J> {
    /// The machine at its start, with an empty journal.
    pub(crate) fn new(
        alloc: Global,
        numberer: N,
        journal: J,
        passwords: Key,
        limit: u64,
    ) -> Result<Machine<N, J>, Memory>
        requires { limit < 2 ^ 63 }
        ensures { IfOk result (λ m. (naming : Naming) → IsNaming (N.named numberer) naming → J.keeps journal []
            → Stands (N.named m.tree.numberer) (J.keeps m.journal) (J.room m.journal) m.tree.held m.books (fresh naming passwords limit)) }
    {
        Ok(Machine {
            alloc,
            tree: Tree::new(alloc, numberer)?,
            journal,
            books: Books::new(alloc, passwords, limit),
        })
    }

    /// The sessions whose time is up, in ascending number. Where there is none the cost is that of finding the first one's time.
    pub(crate) fn up(&self, now: i64) -> Result<Vec<i64>, Memory>
        requires { IsTime now }
        ensures up { IfOk result (λ numbers. (past : Went) → Stands (N.named self.now.tree.numberer) (J.keeps self.now.journal) (J.room self.now.journal) self.now.tree.held self.now.books past → (n : ℤ) → Contains numbers.items n ↔ IsOver (state_of past) n now) }
        ensures ascending { IfOk result (λ numbers. IsAscending numbers.items) }
    {
        if !self.books.dues.has_come(now) {
            return Ok(Vec::new(self.alloc));
        }
        self.books.dues.up(now)
    }
}
