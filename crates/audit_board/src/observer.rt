//! Who is told of findings.

ghost use Rattle.std.specs.Prelude.{◌≡◌, ℕ, List, Option};
ghost use Rattle.jute_core.specs.Faults.{HasCause};
ghost use Rattle.reply_rewrite.specs.declared.finding.Finding.{Finding};
ghost use Rattle.audit_board.specs.Observers.{TakesFinding, given_at};

use crate::sinks::Failed;
use reply_rewrite::Finding;

/// Who is told of findings.
pub trait Observer: Drop {
    /// The findings noted so far, where the observer tells them.
    ghost list: { Self → Option (List Finding) };
    /// How often a note failed, up to the last value of a u64.
    ghost faults: { Self → ℕ };

    /// Notes the finding.
    fn note(&mut self, finding: &Finding) -> Result<(), Failed>
        ensures list { TakesFinding (list self.old) (list self.new) finding.now result }
        ensures cause { HasCause (faults self.old) (faults self.new) result };

    /// The finding noted at this place, where the observer tells them.
    fn noted(&self, index: usize) -> Option<Finding>
        ensures { result ≡ given_at (list self.now) index };

    /// How often a note failed.
    fn faults(&self) -> u64
        ensures { result ≡ faults self.now };
}
