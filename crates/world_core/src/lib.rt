//! Clients with their sessions, over one store.
//!
//! A [`World`] joins each client to the store through a session of `entry_session`; where bytes are on the way it moves them as it is
//! told. Each of its calls says, of every moment at which it stood, at which one it stands then (`specs/Steps.antt`). At each moment
//! the law over sessions holds of it (`specs/Laws.antt`, `session_law`): every client received the first of what the plain machine
//! sends it over the order in which the store took the requests, and what was handed to the store is that, with every name and every
//! payload sealed. It holds over every store that follows the machine with the names of a counter enclave under the same keys.
//!
//! Read `World` first, then `specs/Moments.antt` and `specs/Steps.antt`.
#![tactic(auto)]

mod amount;
mod clients;
mod connection;
mod laws;
mod moving;
mod setup;
mod world;

pub use laws::{holds_at_each, leaves_nothing, spell_items};
pub use world::World;
