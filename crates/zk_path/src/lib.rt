//! Paths of nodes, and the numbers that a store gives to sequential ones.
//!
//! Contracts see a `Path` as the list of its components, the last one first; `specs/Paths.antt` says which are legal and what
//! their texts are. Checking reads a text once and takes no memory.
//!
//! The crate stands on `jute_core` for its small types alone. Read `check_path` first, then `Path`, then `Numberer`.
#![tactic(auto)]

mod check;
mod laws;
mod numbers;
mod paths;
#[cfg(test)]
mod tests;

pub use check::{check_path, check_stem};
pub use laws::{numbered_stem, one_path, one_stem};
pub use numbers::{CannotNumber, Numberer, PlainNumberer, digits};
pub use paths::{NotPath, Path, read_path, read_stem};
