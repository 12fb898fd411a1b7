//! Findings told as lines.

ghost use Rattle.std.specs.Prelude.{◌≡◌, None};
ghost use Rattle.jute_core.specs.Faults.{HasCause, Takes};
ghost use Rattle.audit_board.specs.Findings.{finding_text};
ghost use Rattle.audit_board.specs.Observers.{TakesFinding};

use crate::finding_line::line_of;
use crate::observer::Observer;
use crate::sinks::{Failed, Sink};
use reply_rewrite::Finding;

/// An observer that writes the line of each finding to a sink, in one write and without memory. It tells no list.
#[derive(Drop)]
pub struct LineObserver<K: Sink> {
    sink: K,
}

impl<K: Sink> LineObserver<K> {
    /// An observer over this sink.
    pub fn new(sink: K) -> LineObserver<K>
        ensures { result.sink ≡ sink }
    {
        LineObserver { sink }
    }

    /// The sink.
    pub fn into_sink(self) -> K
        ensures { result ≡ self.sink }
    {
        self.sink
    }
}

impl<K: Sink> Observer for LineObserver<K> {
    ghost list = { λ o. None };

    ghost faults = { λ o. K.faults o.sink };

    fn note(&mut self, finding: &Finding) -> Result<(), Failed>
        ensures list { TakesFinding None None finding.now result }
        ensures cause { HasCause (K.faults self.old.sink) (K.faults self.new.sink) result }
        ensures line { Takes (K.taken self.old.sink) (K.taken self.new.sink) (finding_text finding.now) result }
    {
        let line = line_of(finding);
        self.sink.write(line.as_bytes())
    }

    fn noted(&self, _index: usize) -> Option<Finding> {
        None
    }

    fn faults(&self) -> u64 {
        self.sink.faults()
    }
}
