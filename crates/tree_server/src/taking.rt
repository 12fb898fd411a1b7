//! What a machine takes of a frame.

use store_side::StoreEnding;
use tree_state::Outputs;

/// A session that moves, and the connection that had it.
#[derive(Clone, Copy, Debug, Drop)]
pub struct Move {
    pub connection: u32,
    pub session: i64,
}

/// What came of a frame that was taken: what is sent for it, the connection whose session moved by it, and how the connection that
/// it came from ends by it, if it does.
#[derive(Debug, Drop)]
pub struct Taken {
    pub outputs: Outputs,
    pub moved: Option<Move>,
    pub ending: Option<StoreEnding>,
}

/// What came of the end of a session: what is sent for it, and the connection that had it.
#[derive(Debug, Drop)]
pub struct Ended {
    pub outputs: Outputs,
    pub connection: Option<u32>,
}
