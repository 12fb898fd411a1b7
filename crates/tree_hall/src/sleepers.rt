//! Where threads sleep until their ticket is served. What a place shows is no part of any proof: who wakes looks at the turn itself.
//!
//! Each ticket has one place of a row, so that a turn that is passed on wakes one thread and not all. The place is read first,
//! then the turn, and a thread sleeps only while the place is as it was read: so no wake-up falls in between.

use jute_core::Memory;
use std::alloc::Global;
use std::sync::Wait;
use std::sync::atomic::{AtomicU64, Ordering};

const PLACES: usize = 128;
// Words from one place to the next, so that each has a line of its own in the cache.
const STRIDE: usize = 16;

#[derive(Drop)]
pub(crate) struct Sleepers {
    row: Vec<AtomicU64>,
}

impl Sleepers {
    pub fn new(alloc: Global) -> Result<Sleepers, Memory> {
        let mut row = Vec::new(alloc);
        for _ in 0..PLACES * STRIDE {
            row.push(AtomicU64::new(0))?;
        }
        Ok(Sleepers { row })
    }

    fn place(&self, ticket: u64) -> Option<&AtomicU64> {
        self.row.get((ticket % PLACES as u64) as usize * STRIDE)
    }

    /// What the place of a ticket shows.
    pub fn read(&self, ticket: u64) -> u64 {
        match self.place(ticket) {
            Some(place) => place.load(Ordering::SeqCst),
            None => 0,
        }
    }

    /// Notes that someone sleeps, and sleeps while the place shows `shown` and that note.
    pub fn sleep<R: Wait>(&self, rt: &R, ticket: u64, shown: u64) {
        let noted = shown | 1;
        if let Some(place) = self.place(ticket) {
            let found = place.compare_exchange(shown, noted, Ordering::SeqCst, Ordering::SeqCst);
            if found.is_ok() || shown == noted {
                place.park(rt, (noted % (1 << 32)) as u32);
            }
        }
    }

    /// Wakes whoever waits for this ticket. With no one asleep it asks nothing of the system.
    pub fn wake(&self, ticket: u64) {
        if let Some(place) = self.place(ticket) {
            let found = place.swap(ticket.wrapping_mul(2), Ordering::SeqCst);
            if found % 2 == 1 {
                place.wake_all();
            }
        }
    }
}
