//! What a store keeps of its order: every entry, or their number.

ghost use Rattle.std.specs.Prelude.{◌≡◌, ◌<◌, ◌≤◌, ◌+◌, ◌-◌, ◌++◌, ◌∷◌, ◌^◌, ℕ, List, [], length, OnOk, OnErr, vec_len, vec_capacity};
ghost use Rattle.store_side.specs.declared.entry.Entry.{Entry as PlainEntry};

use jute_core::Memory;
use std::alloc::Global;
use store_side::Entry;

/// What a store keeps of the entries of its order.
pub trait Keeping: Drop {
    /// Keeps what it has to of these entries.
    ghost keeps: { Self → List PlainEntry → Type 0 };

    /// For how many more there is room.
    ghost room: { Self → ℕ };

    /// Makes room for so many more.
    fn reserve(&mut self, more: u64) -> Result<(), Memory>
        ensures room { OnOk result (more ≤ room self.new) }
        ensures err { OnErr result (room self.old ≤ room self.new) }
        ensures kept { (order : List PlainEntry) → keeps self.old order → keeps self.new order };

    /// Adds an entry where there is room for it. Takes no memory.
    fn push(&mut self, entry: Entry)
        ensures room { room self.old ≤ room self.new + 1 }
        ensures kept { 0 < room self.old → (order : List PlainEntry) → length order < 2 ^ 63 → keeps self.old order → keeps self.new (order ++ entry ∷ []) };
}

/// Keeps every entry.
#[derive(Drop)]
pub struct Journal {
    entries: Vec<Entry>,
}

impl Journal {
    /// Keeps none yet. Takes no memory.
    pub fn new(alloc: Global) -> Journal
        ensures { result.entries.items ≡ [] }
    {
        Journal {
            entries: Vec::new(alloc),
        }
    }

    /// The entries in their order. Takes no memory.
    pub fn as_slice(&self) -> &[Entry]
        ensures { result.now ≡ self.now.entries.items }
    {
        self.entries.as_slice()
    }
}

impl Keeping for Journal {
    ghost keeps = { λ j order. j.entries.items ≡ order };

    ghost room = { λ j. vec_capacity j.entries - vec_len j.entries };

    // The capacity at least doubles where it grows, so the cost is amortized.
    fn reserve(&mut self, more: u64) -> Result<(), Memory> {
        self.entries.reserve(more as usize)?;
        Ok(())
    }

    fn push(&mut self, entry: Entry) {
        if self.entries.len() < self.entries.capacity() {
            self.entries.push_reserved(entry);
        }
    }
}

/// Keeps the number of the entries alone.
#[derive(Clone, Copy, Debug, Drop)]
pub struct Count {
    entries: u64,
}

impl Count {
    /// Counts none yet.
    pub fn new() -> Count
        ensures { result.entries ≡ 0 }
    {
        Count { entries: 0 }
    }
}

impl Keeping for Count {
    ghost keeps = { λ c order. c.entries ≡ length order };

    ghost room = { λ _. 2 ^ 64 };

    fn reserve(&mut self, _more: u64) -> Result<(), Memory> {
        Ok(())
    }

    fn push(&mut self, _entry: Entry) {
        self.entries = self.entries.saturating_add(1);
    }
}
