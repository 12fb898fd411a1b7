//! GCM, the mode of a block cipher that seals a text with additional data (NIST SP 800-38D), over
//! AES with a key of 128 bits, with an IV of 96 bits and a tag of 128.
//!
//! The definitions are in `specs/`: `Ghash.antt` has GHASH, with the product of blocks as a product
//! of polynomials over GF(2), and `Gcm.antt` has GCTR, the tag and `Gcm` itself, which is the
//! ciphertext and the tag. The crate stands on `aes_block`, whose `Aes` and polynomials they cite.
//!
//! Read [`GcmKey`], [`seal`] and [`unseal`] first, and then the laws at the end of this file: what
//! they append and answer is `Gcm`, for every key and IV, and every text and additional data of at
//! most 268,435,456 bytes. [`seal_pieces`] takes a text in two pieces, and [`seal_absorbed`] and
//! [`unseal_absorbed`] take additional data that was hashed before, as an [`Absorbed`]. Below them
//! `counter` has GCTR, `hash` GHASH, `table` the product of a block and a hash key by a table that
//! is made once for each key, and `field` the product coefficient by coefficient, which makes it.
//!
//! All take time in proportion to the lengths, and memory at most once. No contract speaks of time,
//! nor of how it depends on the data: tables are read at places that depend on the key, the texts
//! and the additional data, and no care is taken of what an onlooker may learn from that.
#![tactic(auto)]

ghost use Rattle.gcm_mode.specs.Laws.{OpensExactlyWhatWasSealed, SealsToBytes, TagHas16Bytes, TextKeepsItsLength};

mod absorbed;
mod counter;
mod fault;
mod field;
mod hash;
mod key;
mod sealing;
mod table;

pub use absorbed::Absorbed;
pub use fault::GcmFault;
pub use key::GcmKey;
pub use sealing::{seal, seal_absorbed, seal_pieces, unseal, unseal_absorbed};

/// The law that a ciphertext and a tag open to a text exactly where they are what sealing that text
/// gives, under the same key, IV and additional data.
pub fn opens_exactly_what_was_sealed()
    ensures { OpensExactlyWhatWasSealed }
{}

/// The law that the ciphertext is as long as the text.
pub fn text_keeps_its_length()
    ensures { TextKeepsItsLength }
{}

/// The law that a tag has 16 bytes.
pub fn tag_has_16_bytes()
    ensures { TagHas16Bytes }
{}

/// The law that the ciphertext, the plain text that a ciphertext opens to, and the tag are bytes.
pub fn seals_to_bytes()
    ensures { SealsToBytes }
{}

#[cfg(test)]
mod tests;
