//! A store's side: a server that keeps a tree and takes what its connections send, in one order.
//!
//! The definitions are those of `store_side`: what a store goes through is a past, and each call says from which past to which.
//! A [`Machine`](machine::Machine) is the tree with the order that it went through and what it owes its sessions; `Dues` has these
//! by the times at which they would be up, and a `Journal` or a `Count` keeps of the order what is to be kept.
#![tactic(auto)]

mod books;
mod connecting;
mod dues;
mod journal;
mod lines;
mod machine;
mod request;
mod sending;
mod server;
mod taking;
#[cfg(test)]
mod tests;
mod waiting;

pub use dues::{Due, Dues};
pub use journal::{Count, Journal, Keeping};
pub use server::TreeServer;
pub use waiting::Waiting;
