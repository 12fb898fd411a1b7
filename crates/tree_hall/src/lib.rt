//! A hall: one store that several threads share, one act at a time, each thread with a pass that knows which history it has seen and
//! which calls in it are its own.
//!
//! Stands on `store_side`, whose `StoreSide` says what each call of a store does, and on `atomic_table`, in whose one slot the store lies.
//! [`Hall::act`] waits for the turn of its ticket, lets the store do one act, and tells the pass the history so far. The history exists in
//! the proofs alone. `specs/Histories.antt` says what a history is and which answers a store may give in it, `specs/Passes.antt` what a
//! clause says of a pass, and `specs/Turns.antt` what holds between any two steps of the threads.
//!
//! Read [`Hall::act`] and [`Hall::close`] first, then [`Act`].
#![tactic(auto)]

mod act;
mod bells;
mod crossing;
mod hall;
mod pass;
mod plays;
mod serving;
mod sleepers;
mod turns;
mod view;

pub use act::{Act, Answer, Call};
pub use bells::{Bells, NoBells};
pub use crossing::{moves, shares};
pub use hall::{Hall, StillOut};
pub use pass::Pass;

#[cfg(test)]
mod tests;
