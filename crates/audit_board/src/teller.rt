//! What findings are told to.

ghost use Rattle.std.specs.Prelude.{◌≡◌};
ghost use Rattle.reply_rewrite.specs.declared.finding.Finding.{Finding};

use reply_rewrite::Finding;

/// What findings are told to.
pub trait Teller {
    /// Where it stood, the finding, and where it stands then.
    ghost Told: { Self → Finding → Self → Type 0 };

    /// Tells a finding, and answers how many of those who were told are gone by it.
    fn tell(&mut self, finding: &Finding) -> u32
        ensures told { Told self.old finding.now self.new };
}
