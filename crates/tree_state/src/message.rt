//! What the machine sends.

ghost use Rattle.std.specs.Prelude.{◌≡◌, length, slice_get};
ghost use Rattle.std.specs.Option.{option_copied};

use std::marker::Model;
use zk_messages::{Event, Reply};
use zk_records::ConnectResponse;

/// A message to a client.
#[derive(Debug, Drop)]
pub enum Message {
    /// The answer to the connect request.
    Connected(ConnectResponse),
    /// The answer to a request.
    Reply(Reply),
    /// What a watch tells.
    Event(Event),
}

/// A message and the connection that it goes to.
#[derive(Debug, Drop)]
pub struct Output {
    pub connection: u32,
    pub message: Message,
}

/// A list of messages, in the order in which they are sent.
#[derive(Debug, Drop)]
pub struct Outputs {
    held: Vec<Output>,
}

impl Model for Outputs {
    ghost use Rattle.std.specs.Prelude.{List};
    ghost use Rattle.tree_state.specs.declared.message.Output.{Output};

    ghost Value = { List Output };

    ghost view = { λ x. x.held.items };
}

impl Outputs {
    /// The list of these. Takes no memory.
    pub fn of(items: Vec<Output>) -> Outputs
        ensures { result ≡ items.items }
    {
        Outputs { held: items }
    }

    /// All of them.
    pub fn as_slice(&self) -> &[Output]
        ensures { result.now ≡ self.now }
    {
        self.held.as_slice()
    }

    /// How many there are.
    pub fn len(&self) -> usize
        ensures { result ≡ length self.now }
    {
        self.held.len()
    }

    /// The message at an index, or `None` past the end.
    pub fn get(&self, index: usize) -> Option<&Output>
        ensures { option_copied result ≡ slice_get self.now index }
    {
        self.held.get(index)
    }
}
