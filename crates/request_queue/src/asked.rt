//! What a request asks, as far as its reply depends on it.

ghost use Rattle.std.specs.Prelude.{◌≡◌, length, slice_get};
ghost use Rattle.std.specs.Option.{option_copied};

use std::marker::Model;
use zk_path::Path;

/// What a request asks. A path is the one that the client named.
#[derive(Debug, Drop)]
pub enum Asked {
    /// The proxy refuses the request: a stand-in goes to the store, and the reply becomes this code, which is not 0.
    Refused { code: i32 },
    /// The reply has no body: delete, ping or setWatches.
    Empty,
    /// closeSession.
    Close,
    /// create. The path is a stem where it is sequential.
    Create { path: Path, sequential: bool },
    /// create2, in the same way: its reply has the Stat of the new node too.
    Create2 { path: Path, sequential: bool },
    /// exists, setData or setACL.
    StatOf { path: Path },
    /// getData.
    Content { path: Path },
    /// getACL.
    AclOf { path: Path },
    /// getChildren.
    Children { path: Path },
    /// getChildren2.
    Children2 { path: Path },
    /// sync.
    SyncOf { path: Path },
    /// multi.
    Multi(AskedOps),
}

/// What one operation of a multi asks.
#[derive(Debug, Drop)]
pub enum AskedOp {
    /// The path is a stem where it is sequential.
    Create { path: Path, sequential: bool },
    /// In the same way.
    Create2 { path: Path, sequential: bool },
    Delete,
    SetContent { path: Path },
    Check,
}

/// A list of operations.
#[derive(Debug, Drop)]
pub struct AskedOps {
    held: Vec<AskedOp>,
}

impl Model for AskedOps {
    ghost use Rattle.std.specs.Prelude.{List};
    ghost use Rattle.request_queue.specs.declared.asked.AskedOp.{AskedOp};

    ghost Value = { List AskedOp };

    ghost view = { λ ops. ops.held.items };
}

impl AskedOps {
    /// These operations. Takes no memory.
    pub fn of(items: Vec<AskedOp>) -> AskedOps
        ensures { result ≡ items.items }
    {
        AskedOps { held: items }
    }

    /// All of them.
    pub fn as_slice(&self) -> &[AskedOp]
        ensures { result.now ≡ self.now }
    {
        self.held.as_slice()
    }

    /// How many there are.
    pub fn len(&self) -> usize
        ensures { result ≡ length self.now }
    {
        self.held.len()
    }

    /// The operation at an index, or `None` past the end.
    pub fn get(&self, index: usize) -> Option<&AskedOp>
        ensures { option_copied result ≡ slice_get self.now index }
    {
        self.held.get(index)
    }
}
