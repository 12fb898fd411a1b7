//! The plain ZooKeeper machine, and a tree over one ordered map that is this machine.
//!
//! The machine is a definition: `specs/Nodes` and `specs/State` say what it knows, `specs/Commands` what a request asks of it,
//! `specs/Changes` what each change does and in which order it is checked, and `specs/Step` what each thing that it takes
//! leads to, with watches, setWatches and multi. How sequential nodes are named is a parameter: a naming.
//!
//! A [`Tree`] keeps nodes in a map by the texts of their paths, sessions in a map by their numbers, and watches in maps by paths and
//! by connections. `specs/Trees` says which
//! state it means, and each call says of every state that the tree means, that the tree means the state after the step, and that
//! its outputs are those of the step with the names of its numberer.
//!
//! The crate stands on `zk_messages` for requests and replies, on `zk_path` for paths and numberers, and on `zk_records`. Read
//! [`Tree::apply`] first, then `serve` in `held.rt`, `create` in `changing.rt`, `add` in `places.rt`, and `fire` in `watchers.rt`.
#![tactic(auto)]

ghost use Rattle.tree_state.specs.Laws.{HasPlainNames, IsOneCommand};
ghost use Rattle.zk_messages.specs.declared.request.Request.{Request};

mod changing;
mod connecting;
mod ending;
mod events;
mod held;
mod message;
mod multi;
mod naming;
mod node;
mod noticing;
mod places;
mod reading;
mod session;
#[cfg(test)]
mod tests;
mod texts;
mod tree;
mod watchers;
mod watches;

pub use message::{Message, Output, Outputs};
pub use session::{Given, LiveSession};
pub use tree::Tree;

/// The law that a request, which is refused or is not, is exactly one command: of each request there is a step to speak of.
pub fn one_command()
    ensures { (r : Request) → IsOneCommand r }
{}

/// The law that the names that [`zk_path::PlainNumberer`] gives are a naming.
pub fn plain_names()
    ensures { HasPlainNames }
{}
