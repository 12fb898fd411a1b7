//! Findings kept in memory.

ghost use Rattle.std.specs.Prelude.{◌≡◌, [], Some};
ghost use Rattle.jute_core.specs.Faults.{HasCause};
ghost use Rattle.audit_board.specs.Observers.{ListState, Notes, TakesFinding};

use crate::observer::Observer;
use crate::sinks::Failed;
use reply_rewrite::Finding;
use std::alloc::Global;
use std::marker::Model;

/// An observer that keeps its findings. A note fails where its number is listed, and for want of memory.
#[derive(Drop)]
pub struct ListObserver {
    findings: Vec<Finding>,
    calls: u64,
    fails: Vec<u64>,
    faults: u64,
    short: u64,
}

impl Model for ListObserver {
    ghost use Rattle.audit_board.specs.Observers.{ListState};

    ghost Value = { ListState };

    ghost view = { λ o. record { findings = o.findings.items; calls = o.calls; fails = o.fails.items; faults = o.faults; short = o.short } };
}

impl ListObserver {
    /// An observer that has noted nothing, and fails at the notes so numbered, from 0.
    pub fn new(alloc: Global, fails: Vec<u64>) -> ListObserver
        ensures { result ≡ record { findings = []; calls = 0; fails = fails.items; faults = 0; short = 0 } }
    {
        ListObserver {
            findings: Vec::new(alloc),
            calls: 0,
            fails,
            faults: 0,
            short: 0,
        }
    }

    /// How often there was no memory for a finding.
    pub fn short(&self) -> u64
        ensures { result ≡ self.now.short }
    {
        self.short
    }
}

impl Observer for ListObserver {
    ghost list = { λ o. Some o.findings };

    ghost faults = { λ o. o.faults };

    fn note(&mut self, finding: &Finding) -> Result<(), Failed>
        ensures list { TakesFinding (Some self.old.findings) (Some self.new.findings) finding.now result }
        ensures cause { HasCause self.old.faults self.new.faults result }
        ensures state { Notes finding.now self.old self.new result }
    {
        let call = self.calls;
        self.calls = call.saturating_add(1);
        if self.fails.contains(&call) {
            self.faults = self.faults.saturating_add(1);
            return Err(Failed);
        }
        if self.findings.push(*finding).is_err() {
            self.faults = self.faults.saturating_add(1);
            self.short = self.short.saturating_add(1);
            return Err(Failed);
        }
        Ok(())
    }

    fn noted(&self, index: usize) -> Option<Finding> {
        self.findings.get(index).copied()
    }

    fn faults(&self) -> u64 {
        self.faults
    }
}
