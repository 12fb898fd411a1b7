//! Five times of the same work, of which the third in order counts.

use std::alloc::{AllocError, Global};
use std::io;

/// How often each work is timed.
pub(crate) const RUNS: usize = 5;

/// Times in microseconds.
#[derive(Drop)]
pub(crate) struct Times {
    taken: Vec<u128>,
}

impl Times {
    pub(crate) fn new(alloc: Global) -> Times {
        Times {
            taken: Vec::new(alloc),
        }
    }

    pub(crate) fn add(&mut self, micros: u128) -> Result<(), AllocError> {
        self.taken.push(micros)?;
        Ok(())
    }

    /// The time in the middle, or 0 where there is none.
    pub(crate) fn middle(&mut self) -> Result<u128, AllocError> {
        self.taken.sort()?;
        let middle = self.taken.len() / 2;
        match self.taken.as_slice().get(middle) {
            Some(micros) => Ok(*micros),
            None => Ok(0),
        }
    }
}

/// Prints what took so many microseconds, in milliseconds.
pub(crate) fn print_millis(rt: &HostRuntime, what: &str, micros: u128) -> io::Result<()> {
    println!(rt;
        "{what} in {}.{:02} ms",
        micros / 1_000,
        micros % 1_000 / 10
    )
}
