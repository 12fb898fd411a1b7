//! A request that waits for its reply.

ghost use Rattle.std.specs.Prelude.{◌≡◌};
ghost use Rattle.request_queue.specs.Weights.{weight};

use crate::asked::Asked;

// What a request weighs besides its bytes.
const OVERHEAD: u64 = 64;

/// A request that the store has not answered yet.
#[derive(Debug, Drop)]
pub struct Pending {
    /// The xid of the request, which its reply echoes.
    pub xid: i32,
    /// The length of the client's body in bytes.
    pub bytes: u32,
    /// What was asked.
    pub asked: Asked,
}

impl Pending {
    pub(crate) fn weight(&self) -> u64
        ensures { result ≡ weight self.now }
    {
        u64::from(self.bytes) + OVERHEAD
    }
}
