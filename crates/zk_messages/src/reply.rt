//! What a store answers, and what it tells.

ghost use Rattle.std.specs.Prelude.{◌≡◌, length, slice_get};
ghost use Rattle.std.specs.Option.{option_copied};

use jute_core::{Bytes, Text, Texts};
use std::marker::Model;
use zk_records::{Acls, Stat};

/// What an operation of a multi came to.
#[derive(Debug, Drop)]
pub enum OpResult {
    /// The node with this path was made.
    Created(Text),
    /// The node was removed.
    Deleted,
    /// The content was changed; the Stat of the node.
    Changed(Stat),
    /// The node is there, in the version asked for.
    Checked,
    /// The multi failed: 0 for an operation before the one that failed, the code of that one, and -2
    /// for those after it.
    Error { code: i32 },
    /// The node with this path was made; its Stat.
    Created2 { path: Text, stat: Stat },
}

/// What the operations of a multi came to, in order.
#[derive(Debug, Drop)]
pub struct Results {
    held: Vec<OpResult>,
}

impl Model for Results {
    ghost use Rattle.std.specs.Prelude.{List};
    ghost use Rattle.zk_messages.specs.declared.reply.OpResult.{OpResult};

    ghost Value = { List OpResult };

    ghost view = { λ x. x.held.items };
}

impl Results {
    /// The list of these. Takes no memory.
    pub fn of(items: Vec<OpResult>) -> Results
        ensures { result ≡ items.items }
    {
        Results { held: items }
    }

    /// All of them.
    pub fn as_slice(&self) -> &[OpResult]
        ensures { result.now ≡ self.now }
    {
        self.held.as_slice()
    }

    /// How many there are.
    pub fn len(&self) -> usize
        ensures { result ≡ length self.now }
    {
        self.held.len()
    }

    /// The result at an index, or `None` past the end.
    pub fn get(&self, index: usize) -> Option<&OpResult>
        ensures { option_copied result ≡ slice_get self.now index }
    {
        self.held.get(index)
    }
}

/// What a request came to.
#[derive(Debug, Drop)]
pub enum Outcome {
    /// The code of an error, which is not 0.
    Error { code: i32 },
    /// Done, with nothing to tell.
    Empty,
    /// The path of the node that was made or synced.
    Path(Text),
    /// The Stat of a node.
    Stat(Stat),
    /// The content of a node.
    Content { content: Option<Bytes>, stat: Stat },
    /// Who may do what with a node.
    Acls { acls: Option<Acls>, stat: Stat },
    /// The names of a node's children.
    Children(Option<Texts>),
    /// The names of a node's children, and its Stat.
    Children2 { children: Option<Texts>, stat: Stat },
    /// The results of a multi.
    Multi(Results),
    /// The path of the node that was made, and its Stat.
    Created2 { path: Text, stat: Stat },
}

/// The kind of outcome that a request has where it is no error.
#[derive(Clone, Copy, Debug, Drop, PartialEq, Eq)]
pub enum Shape {
    Empty,
    Path,
    Stat,
    Content,
    Acls,
    Children,
    Children2,
    Multi,
    Created2,
}

/// The answer to a request.
#[derive(Debug, Drop)]
pub struct Reply {
    /// The xid of the request.
    pub xid: i32,
    /// The last zxid after it.
    pub zxid: i64,
    /// What it came to.
    pub outcome: Outcome,
}

/// What a watch tells.
#[derive(Debug, Drop)]
pub struct Event {
    /// 1 the node was made, 2 it was removed, 3 its content was changed, 4 its children changed.
    pub kind: i32,
    /// The state of the connection, 3 for one that is connected.
    pub state: i32,
    /// The node.
    pub path: Text,
}
