//! The law over many sessions: over one store that follows the plain machine, every client receives what that machine sends it, and the
//! store is handed what the clients sent, with every name and every payload sealed.
//!
//! Read `specs/Law.antt` first, then `Fill` and `Follows` of `store_side`, which it speaks in. `stays_behind` is what a
//! program needs to give the law frames that came after what the store had taken.
#![tactic(auto)]

mod laws;

pub use laws::{holds_over_sessions, stays_behind};
