//! The store's side: the order in which it takes what its connections send, and what it tells them.
//!
//! The definitions are in `specs/`, over the plain machine of `tree_state`: `Acts` says what the entries of an order are to the machine,
//! `Orders` which orders a store may take, `Out` what the machine sends over a run, `Messages` the bytes of that, and `Follows` when a
//! store that went through a past follows the machine. `Zips` relates two lists place by place.
//!
//! Read `Entry` first, then `specs/Orders.antt` and `specs/Follows.antt`.
#![tactic(auto)]

mod ending;
mod entry;
mod laws;
mod message;
mod side;
mod sizes;

pub use ending::StoreEnding;
pub use entry::{Entries, Entry};
pub use laws::{sends_all, stays_sound};
pub use message::{message_length, write_message};
pub use side::{Recorded, StoreSide};
