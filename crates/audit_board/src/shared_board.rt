//! A board that several threads tell.

ghost use Rattle.std.specs.Prelude.{◌≡◌};

use crate::board::Board;
use crate::teller::Teller;
use jute_core::Memory;
use reply_rewrite::Finding;
use std::alloc::Global;
use std::sync::{Arc, Mutex, Wait};

/// One holder of a board that several holders tell, each in a thread of its own.
#[derive(Drop)]
pub struct SharedBoard<R: Wait + Clone + Drop> {
    rt: R,
    board: Arc<Mutex<Board>>,
}

impl<R: Wait + Clone + Drop> SharedBoard<R> {
    /// The first holder of this board.
    ///
    /// # Errors
    /// `Memory`.
    pub fn new(alloc: Global, rt: R, board: Board) -> Result<SharedBoard<R>, Memory> {
        let board = Arc::new(alloc, Mutex::new(board))?;
        Ok(SharedBoard { rt, board })
    }

    /// Another holder of the same board.
    ///
    /// # Errors
    /// `Memory`.
    pub fn split(&self) -> Result<SharedBoard<R>, Memory> {
        let rt = self.rt.clone()?;
        let board = Arc::try_clone(&self.board)?;
        Ok(SharedBoard { rt, board })
    }
}

// The board is known only under its lock, so no clause says what it was told. Waits for the other holders.
impl<R: Wait + Clone + Drop> Teller for SharedBoard<R> {
    ghost Told = { λ old finding new. Unit {0} };

    fn tell(&mut self, finding: &Finding) -> u32 {
        let mut board = self.board.lock(&self.rt);
        board.tell(finding)
    }
}
