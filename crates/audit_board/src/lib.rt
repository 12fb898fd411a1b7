//! Who is told of findings.
//!
//! A [`Board`] has members, each an [`Observer`] behind a box, and tells each of them each finding; a member whose note fails is
//! taken out. `specs/Telling.antt` says what telling does to the members, and `specs/Growing.antt` what it comes to over many
//! findings. A [`LineObserver`] writes lines to a [`Sink`], as `specs/Findings.antt` spells them, and a [`ListObserver`] keeps the
//! findings. The crate stands on `reply_rewrite` and `payload_seal` for what findings are, on `itoa`, `hex` and `arrayvec` for lines
//! that take no memory, and on `jute_core` for counts of faults.
//!
//! Read first: [`Observer`], then [`Teller`] and how [`Board`] implements it, then the law [`staying_members_grow`].
#![tactic(auto)]

mod board;
mod finding_line;
mod laws;
mod line_observer;
mod list_observer;
mod observer;
mod shared_board;
mod sinks;
mod teller;

pub use board::{Board, NotAdded, Seat};
pub use finding_line::{Line, line_of};
pub use laws::staying_members_grow;
pub use line_observer::LineObserver;
pub use list_observer::ListObserver;
pub use observer::Observer;
pub use shared_board::SharedBoard;
pub use sinks::{Failed, MemorySink, Sink, StdSink};
pub use teller::Teller;

#[cfg(test)]
mod tests;
