//! One session between a client and a store that is not trusted: what it makes of the frames of both sides.
//!
//! The definitions are in `specs/`: `Heard` (what a session hears of both sides; lists have the last first), `Stands` (where a session stands),
//! `ClientTurns` and `StoreTurns` (what it does at each frame), `Runs` (where what was heard leads), `Veiled` (what it hands up), and `Sides`
//! (what was heard, beside the bytes of a side). `Laws` says what holds of every session; each law is the contract of a function.
//!
//! `Kept` says what a session keeps and where it stands, and `Calls` what its calls say.
//!
//! Read [`Session`] first, then `specs/Runs.antt` and `specs/Calls.antt`, then the laws in `src/laws.rt`.
#![tactic(auto)]

mod client;
mod ending;
mod laws;
mod progress;
mod session;
mod store;

pub use ending::Ending;
pub use laws::{
    goes_on, hands_down_one_for_one, hands_up_thirtyfold, hands_up_veiled, have_own_ivs,
    leads_to_one, never_wants_memory, takes_what_was_sent,
};
pub use session::Session;

#[cfg(test)]
mod tests;
