//! Frames of the client protocol, from bytes as they come: a length, as an int, and so many bytes.
//!
//! Stands on `jute_core`, whose `specs/Frames.antt` says what a frame and a stream of frames are,
//! and on `thiserror`. A [`Framer`] is seen as its limit and the bytes that it holds:
//! [`Framer::feed`] adds the bytes that it takes to those held, and [`Framer::take`] removes the
//! frame that it hands out. Read these two first, and then [`one_stream_of_all_bytes`], which says
//! what follows for all bytes fed, however they were cut.
#![tactic(auto)]

mod framer;
mod laws;
mod write;

pub use framer::{FrameFault, Framer};
pub use laws::{one_stream_of_all_bytes, too_long_stays};
pub use write::write_frame;

#[cfg(test)]
mod tests;
