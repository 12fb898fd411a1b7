//! That a hall may be shared between threads, and moved to one.
ghost use denote.Param.Send.{IsSend, IsSync};
ghost use Rattle.tree_hall.specs.contracts.hall.Hall.{the_row};

use crate::bells::Bells;
use crate::hall::Hall;
use store_side::StoreSide;

/// Tells a proof that values of this type may be shared between threads. Does nothing.
pub fn shares<T: Sync>(_x: &T)
    ensures { IsSync T.row }
{}

/// Tells a proof that values of this type may be moved to another thread. Does nothing.
pub fn moves<T: Send>(_x: &T)
    ensures { IsSend T.row }
{}

impl<S: StoreSide + Drop + Send, B: Bells + Drop + Send + Sync> Hall<S, B> {
    /// Tells a proof that halls of this type may be shared between threads and moved to one, as an `Arc` of one asks where it
    /// goes to a thread. Does nothing.
    pub fn crosses(&self)
        ensures shares { IsSync (the_row S.row B.row record { stands = S.stands }) }
        ensures moves { IsSend (the_row S.row B.row record { stands = S.stands }) }
    {
        shares(&self.table);
        shares(&self.sleepers);
        moves(&self.table);
        moves(&self.sleepers);
    }
}
