//! The records of ZooKeeper's client protocol, as zookeeper.jute has them.
//!
//! Stands on `jute_core`. A record is said once, in `specs/`: as one Jute type and one function
//! from the struct to its fields' values. Its `read` and `write` speak of these two alone, so the
//! laws of `jute_core` hold for it. Read [`RequestHeader`] first, then [`CreateRequest`], and then
//! [`read_connect`], whose record has two forms.
#![tactic(auto)]

mod acl;
mod connect;
mod create;
mod header;
mod laws;
mod node;
mod path_watch;
mod set_acl;
mod set_watches;
mod stat;

pub use acl::{Acl, Acls, put_acls, read_acls};
pub use connect::{ConnectRequest, ConnectResponse, read_connect, read_connected};
pub use create::CreateRequest;
pub use header::{ReplyHeader, RequestHeader};
pub use laws::{one_connect_request, one_connect_response};
pub use node::{CheckRequest, DeleteRequest, PathOnly, SetContentRequest};
pub use path_watch::PathWatch;
pub use set_acl::SetAclRequest;
pub use set_watches::SetWatches;
pub use stat::Stat;

#[cfg(test)]
mod tests;
