//! Who numbers sequential nodes on a store that sees sealed names only.
//!
//! The store asks for the name of a stem and a number, and has only the stem's sealed text. The
//! enclave beside it holds the keys of names: it opens the stem, appends the number to its last
//! component and seals that component again; what stands before it stays as it was sealed. It does
//! no input or output, and no plain name leaves it.
//!
//! The definitions are in `specs/Enclave.antt`. The crate stands on `path_seal` for sealing and
//! opening, and on `zk_path` for the trait [`Numberer`](zk_path::Numberer) and its digits. Read
//! [`CounterEnclave`] first, then its `number`.
#![tactic(auto)]

mod enclave;
mod naming;
#[cfg(test)]
mod tests;

pub use enclave::CounterEnclave;
