//! The program's top call for the commands that serve, over files, sinks and a host that are handed in.
//!
//! `serve` reads the words of a command line, loads the key file that they name, and takes the clients of a [`Host`]: `proxy` relays
//! between each and a store, and `store` serves each from one store that they share. It stands on `replay_cli` for files, sinks and
//! statuses, on `relay_io` for what is done for each connection, and on `tree_hall` and `tree_server` for the store.
//!
//! Read first: [`Host`], then [`serve`]. `specs/Hosts.antt` says what a host tells, and `specs/Serving.antt` what serving comes to.
#![tactic(auto)]

mod bells;
mod closing;
mod ending;
mod host;
mod keys;
mod memory_host;
mod proxy;
mod socket_line;
mod store;
mod tcp_host;
mod texts;
mod top_call;
mod words;

pub use bells::SocketRings;
pub use host::{Accepted, Host};
pub use memory_host::{HostedDuo, HostedLine, MemoryHost};
pub use socket_line::SocketLine;
pub use tcp_host::TcpHost;
pub use top_call::serve;

#[cfg(test)]
mod tests;
