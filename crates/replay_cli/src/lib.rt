//! The program's top calls, over files and sinks that are handed in.
//!
//! `run` reads the words of a command line, the files that they name, and prints what the command gives. It stands on
//! `world_core` for replays, on `entry_session` for hostile scripts, on `audit_board` for sinks and the lines of findings,
//! on `jute_core` for the small types and on `hex` for printed bytes. A crate above it that serves clients shares its
//! files, statuses and complaints. Read first: `run`, then `read_script`, then the traits `Files` and `Sink`, which are all
//! that it knows of the outside.
#![tactic(auto)]

mod endings;
mod files;
mod hostile;
mod hostile_script;
mod lines;
mod loading;
mod numbers;
mod printed;
mod replay;
mod script;
mod show;
mod stops;
mod stress;
mod tally;
mod top_call;
mod words;
mod workload;

pub use audit_board::{Failed, MemorySink, Sink, StdSink};
pub use files::{FileFault, Files, MemoryFiles, NamedFile, RealFiles};
pub use hostile_script::{HostileEvent, HostileEvents, read_hostile_script};
pub use lines::NotScript;
pub use loading::load;
pub use numbers::number_of;
pub use script::{Event, Events, read_script};
pub use show::{Ending, Frame, one_show, show_frames};
pub use stops::{Status, Stop, complaint, status_of};
pub use top_call::{complain, run, say_no_memory};

#[cfg(test)]
mod tests;
