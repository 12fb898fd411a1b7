//! The queue itself.

ghost use Rattle.std.specs.Prelude.{◌≡◌, ◌↔◌, ◌<◌, ◌≤◌, ℕ, [], ◌∷◌, ◌++◌, slice_get};
ghost use Rattle.std.specs.Prelude.{Err, OnOk, OnErr, IsNone, IfSome, IfNone};
ghost use Rattle.std.specs.Option.{option_copied};
ghost use Rattle.request_queue.specs.Asking.{IsAsked};
ghost use Rattle.request_queue.specs.Weights.{limit, weight_of};

use crate::pending::Pending;
use std::alloc::{AllocFailed, Global};
use std::collections::VecDeque;
use std::marker::Model;

// The greatest weight of a queue: 64 MiB.
const LIMIT: u64 = 67_108_864;

/// Why a request was not queued.
#[derive(Clone, Copy, Debug, Drop, PartialEq, Eq)]
pub enum NotPushed {
    /// With the request the queue would weigh so much, which is past its limit.
    Full { weight: u64 },
    /// There was no memory.
    Memory,
}

impl<T: Drop> From<AllocFailed<T>> for NotPushed {
    ghost use Rattle.request_queue.specs.declared.queue.NotPushed.TheVariants.{Memory};

    ghost from_gives = { λ _ e. e ≡ Memory };

    fn from(_: AllocFailed<T>) -> NotPushed {
        NotPushed::Memory
    }
}

/// Requests that wait for their replies, first in, first out.
///
/// A request weighs its bytes and 64. What all of them weigh never passes 67,108,864, and no code of a refused one is 0.
#[derive(Drop)]
pub struct Queue {
    held: VecDeque<Pending>,
    weight: u64,
}

impl Model for Queue {
    ghost use Rattle.std.specs.Prelude.{List};
    ghost use Rattle.request_queue.specs.declared.pending.Pending.{Pending};
    ghost use Rattle.request_queue.specs.Kept.{IsKept};

    ghost Value = { List Pending };

    ghost view = { λ q. q.held.items };

    ghost invariant = { λ q. IsKept q.weight q.held.items };
}

impl Queue {
    /// A queue of nothing. Takes no memory.
    pub fn new(alloc: Global) -> Queue
        ensures { result ≡ [] }
    {
        Queue {
            held: VecDeque::new(alloc),
            weight: 0,
        }
    }

    /// Adds a request behind the others, in constant time (amortised).
    ///
    /// # Errors
    /// `Full` exactly where the weight would pass the limit, with that weight. `Memory` only where it would not.
    /// After either the queue is as it was.
    pub fn push(&mut self, pending: Pending) -> Result<(), NotPushed>
        requires { IsAsked pending.asked }
        ensures ok { OnOk result (self.new ≡ self.old ++ pending ∷ []) }
        ensures kept { OnErr result (self.new ≡ self.old) }

        // Which of the three it is.
        ensures full { (weight : ℕ) → (result ≡ Err (NotPushed.Full weight))
            ↔ ((weight ≡ weight_of (self.old ++ pending ∷ [])) × (limit < weight)) }
        ensures fits { OnOk result (weight_of self.new ≤ limit) }
        ensures memory { result ≡ Err NotPushed.Memory → weight_of (self.old ++ pending ∷ []) ≤ limit }
    {
        let weight = self.weight + pending.weight();
        if weight > LIMIT {
            return Err(NotPushed::Full { weight });
        }
        self.held.push_back(pending)?;
        self.weight = weight;
        Ok(())
    }

    /// The oldest request. `None` exactly where there is none. Takes no memory.
    pub fn front(&self) -> Option<&Pending>
        ensures first { option_copied result ≡ slice_get self.now 0 }
        ensures none { IsNone result ↔ (self.now ≡ []) }
        ensures asked { IfSome result (λ pending. IsAsked pending.now.asked) }
    {
        self.held.front()
    }

    /// Takes the oldest request out, in constant time and without memory. `None` exactly where there is none.
    pub fn pop(&mut self) -> Option<Pending>
        ensures first { IfSome result (λ pending. self.old ≡ pending ∷ self.new) }
        ensures none { IsNone result ↔ (self.old ≡ []) }
        ensures kept { IfNone result (self.new ≡ self.old) }
        ensures asked { IfSome result (λ pending. IsAsked pending.asked) }
    {
        let pending = self.held.pop_front()?;
        self.weight -= pending.weight();
        Some(pending)
    }

    /// What the requests weigh together: the sum of their bytes and 64 each. Constant time.
    pub fn weight(&self) -> u64
        ensures weight { result ≡ weight_of self.now }
        ensures within { weight_of self.now ≤ limit }
    {
        self.weight
    }
}
