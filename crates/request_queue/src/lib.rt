//! The requests that a client sent and that the store has not answered yet: first in, first out, and weighed.
//!
//! A [`Queue`] is seen as the list of its [`Pending`]s, the oldest first. `specs/Weights.antt` says what a list weighs,
//! `specs/Asking.antt` what may be asked, and `specs/Short.antt` which of that is short. The crate stands on `zk_path`, for
//! the paths that a request names, and through it on `jute_core`. Read [`Asked`] first, then [`Queue::push`] and [`Queue::pop`].
#![tactic(auto)]

mod asked;
mod pending;
mod queue;

pub use asked::{Asked, AskedOp, AskedOps};
pub use pending::Pending;
pub use queue::{NotPushed, Queue};

#[cfg(test)]
mod tests;
