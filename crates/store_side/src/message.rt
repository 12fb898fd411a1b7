//! What the store sends to a client, as bytes.

ghost use Rattle.std.specs.Prelude.{◌≡◌, ℕ, List, length, OnOk, OnErr};
ghost use Rattle.zk_messages.specs.Sending.{AddsBytes};
ghost use Rattle.store_side.specs.Messages.{SpellsMessage};
ghost use Rattle.store_side.specs.Sending.{IsSendable};
ghost use Rattle.store_side.specs.Fitting.{CanBeSent};

use crate::sizes::{connected_length, event_length, reply_length};
use jute_core::Memory;
use tree_state::Message;
use zk_messages::{write_event, write_reply};

/// Appends the one spelling of a message; without memory nothing is appended.
#[tactic(auto, unfolding(crate::specs::Messages::SpellsMessage), using(crate::proofs::MessageLemmas::value_added))]
pub fn write_message(message: &Message, into: &mut Vec<u8>) -> Result<(), Memory>
    requires { IsSendable message.now }
    ensures ok { OnOk result (AddsBytes into.old.items into.new.items (SpellsMessage message.now)) }
    ensures err { OnErr result (into.new.items ≡ into.old.items) }
{
    match message {
        Message::Connected(response) => response.write(into),
        Message::Reply(reply) => write_reply(reply, into),
        Message::Event(event) => write_event(event, into),
    }
}

/// How many bytes the spelling of a message has, where that can be sent. The cost is linear in the number of its names, results or ACLs.
pub fn message_length(message: &Message) -> usize
    requires { IsSendable message.now }
    ensures { CanBeSent message.now → (body : List ℕ) × SpellsMessage message.now body × (result ≡ length body) }
{
    match message {
        Message::Connected(response) => connected_length(response),
        Message::Reply(reply) => reply_length(reply),
        Message::Event(event) => event_length(event),
    }
}
