//! AES with a key of 128 bits, as FIPS 197 states it.
//!
//! The definition is `Aes` in `specs/Aes.antt`: bytes are elements of GF(2^8), written as
//! polynomials over GF(2) (`specs/Polynomial.antt`), and no table stands in it. The crate stands
//! on no other.
//!
//! Read [`Key::new`] and [`Key::encrypt`] first: `encrypt` is `Aes`, for every key and block. Below
//! them `schedule` has the key expansion, `state` the rounds on the four columns of a state, `tables`
//! SubBytes with MixColumns as four tables, and `sbox` SubBytes. Tests compare them with `round`,
//! the steps of a round as the standard writes them. Nothing is said of the time that a call takes,
//! which depends on the key and the data through the tables.
#![tactic(auto)]

ghost use Rattle.aes_block.specs.Laws.{EnciphersToBlocks, InverseIsInverse, RemainderIsRemainder};

#[cfg(test)]
mod field;
mod key;
#[cfg(test)]
mod round;
mod sbox;
mod schedule;
mod state;
mod tables;

pub use key::Key;

/// The law that the inverse of the definition is the inverse of the field of bytes (FIPS 197,
/// section 4.2): its product with the byte is 1, for every byte but 0, whose inverse is 0.
pub fn inverse_is_inverse()
    ensures { InverseIsInverse }
{}

/// The law that the remainder of the definition is the remainder of a division of polynomials: it
/// is shorter than the modulus, and the polynomial is a multiple of the modulus, plus it.
pub fn remainder_is_remainder()
    ensures { RemainderIsRemainder }
{}

/// The law that what a block is enciphered to is a block: 16 bytes.
pub fn enciphers_to_blocks()
    ensures { EnciphersToBlocks }
{}
