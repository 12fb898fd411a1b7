//! What is done for one connection: a proxy relays between its client and a store, and a store serves its client.
//!
//! A relay stands on `entry_session`, whose session it runs, and on `audit_board`, whose `Teller` it tells the findings to. A served
//! connection stands on `tree_hall`, whose store it shares. A [`Duo`] and a [`Line`] are all that they know of the outside.
//! `specs/Sides.antt` and `specs/Lines.antt` say what these tell, `specs/Relayed.antt` what a relay comes to, and `specs/Served.antt`
//! what serving does.
//!
//! Read [`relay`] and [`serve_client`] first, then [`Duo`] and [`Line`], then [`RelayJob`] and [`ServeJob`].
#![tactic(auto)]

mod duo;
mod jobs;
mod line;
mod memory;
mod memory_line;
mod pulling;
mod relaying;
mod serving;
mod sockets;

pub use duo::{Duo, DuoEvent, Heard};
pub use jobs::{RelayJob, ServeJob};
pub use line::{Line, LineEvent, LineHeard, LineWhat};
pub use memory::MemoryDuo;
pub use memory_line::MemoryLine;
pub use pulling::Cut;
pub use relaying::relay;
pub use serving::{ServeEnding, serve_client};
pub use sockets::SocketDuo;

#[cfg(test)]
mod tests;
