//! How serving ends.

use replay_cli::Stop;

/// How serving ended.
#[derive(Clone, Copy, Drop)]
pub(crate) enum End<'a> {
    /// No more clients come.
    Done,
    /// It stopped, and says why.
    Stopped(Stop<'a>),
    /// It could not say what it serves.
    Unsaid,
}
