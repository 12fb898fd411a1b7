//! Names that an untrusted store sees: each component of a path sealed by AES-128-GCM under the
//! plain path above it, in lower-case hex.
//!
//! The definitions are in `specs/Sealed.antt`. Opening is defined by sealing alone: a text opens to
//! what is legal and sealed to it. The crate stands on `gcm_mode` for the cipher, on `sha2` for the
//! IV of a name, on `hex` for its text, and on `zk_path` for which names are legal.
//!
//! Read [`seal_path`] first, then [`open_path`], then [`NamesUnder`], on which both stand, and the
//! laws at the end of this file. Sealing and opening take time in proportion to the sealed text:
//! what a component's hash and additional data have of the path above it is kept from one component
//! to the next.
#![tactic(auto)]

ghost use Rattle.path_seal.specs.Laws.{SealsPathsApart, SealsStemsApart};

mod hex_text;
mod keys;
mod opening;
mod sealing;
mod under;

pub use keys::NameKeys;
pub use opening::{open_name, open_path, open_stem};
pub use sealing::{seal_name, seal_path};
pub use under::NamesUnder;

/// The law that no two legal paths have one sealed form.
pub fn paths_apart()
    ensures { SealsPathsApart }
{}

/// The law that no two legal stems have one sealed form.
pub fn stems_apart()
    ensures { SealsStemsApart }
{}

#[cfg(test)]
mod tests;
