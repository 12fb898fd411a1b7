//! Stats whose length is the content's.

ghost use Rattle.std.specs.Prelude.{◌≡◌, ℤ, IfOk, IfErr, IfSome, IfNone};
ghost use Rattle.reply_rewrite.specs.Stats.{IsPlainLength, IsPlainStat, IsLengthCause};
ghost use Rattle.reply_rewrite.specs.Caused.{IsCausedBy};
ghost use Rattle.reply_rewrite.specs.declared.finding.Cause.TheVariants.{Length};

use crate::finding::{Cause, NotPlain};
use payload_seal::plain_length;
use zk_path::Path;
use zk_records::Stat;

/// That the Stat has the length that it has.
pub(crate) fn length_cause(stored: &Stat) -> Cause
    ensures { result ≡ Length stored.now.length }
{
    Cause::Length {
        stored: stored.length,
    }
}

// The Stat with another length.
fn with_length(stored: &Stat, length: i32) -> Stat
    ensures { result ≡ record stored.now { length = length } }
{
    Stat { length, ..*stored }
}

/// The Stat of the node at a path, as a client sees it. None exactly where no payload there has the stored length.
#[tactic(auto, using(crate::proofs::Lengths::lengths))]
pub(crate) fn plain_stat(path: &Path, stored: &Stat) -> Option<Stat>
    ensures some { IfSome result (IsPlainStat path.now stored.now) }
    ensures none { IfNone result ((plain : ℤ) → IsPlainLength path.now stored.now.length plain → ⊥) }
{
    if path.is_root() {
        return if stored.length == 0 {
            Some(*stored)
        } else {
            None
        };
    }
    let length = plain_length(stored.length)?;
    Some(with_length(stored, length))
}

/// The same, or the cause that the length is.
pub(crate) fn unveil_stat(path: &Path, stored: &Stat) -> Result<Stat, NotPlain>
    ensures plain { IfOk result (IsPlainStat path.now stored.now) }
    ensures cause { IfErr result (IsCausedBy (IsLengthCause path.now stored.now)) }
{
    match plain_stat(path, stored) {
        Some(plain) => Ok(plain),
        None => Err(NotPlain::Caused(length_cause(stored))),
    }
}
