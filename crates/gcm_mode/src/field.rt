//! The field of the blocks (NIST SP 800-38D, section 6.3). A block is a `u128`, and its highest bit
//! is the coefficient of x^0.

ghost use Rattle.std.specs.Prelude.{◌≡◌, ◌<◌, ◌≤◌, ◌==◌, ◌∷◌, false, if◌then◌else◌};
ghost use Rattle.aes_block.specs.Polynomial.{less_modulus};
ghost use Rattle.gcm_mode.specs.Ghash.{bits, modulus, times};
ghost use Rattle.gcm_mode.specs.HashTable.{low_times};

// x^128, which is x^7 + x^2 + x + 1.
const REDUCTION: u128 = 0xe100_0000_0000_0000_0000_0000_0000_0000;

// The value where the bit is 1, and else 0, without a branch.
fn selected(bit: u128, value: u128) -> u128
    requires { bit < 2 }
    ensures { result ≡ (if bit == 1 then value else 0) }
{
    value & bit.wrapping_neg()
}

// The product of x and a block.
fn times_x(block: u128) -> u128
    ensures { bits 128 result ≡ less_modulus modulus (false ∷ bits 128 block) }
{
    block >> 1 ^ selected(block & 1, REDUCTION)
}

/// The product of the polynomial of the lowest `count` bits of a block, and of a block.
///
/// From the last coefficient of the first block to the first one: what there is so far is
/// multiplied by x, and the second block is added where the coefficient is 1. It takes a step for
/// each coefficient; what is to be fast multiplies by a `HashTable`.
pub(crate) fn low_times(count: u32, first: u128, second: u128) -> u128
    requires { count ≤ 128 }
    ensures { result ≡ low_times count first second }
{
    let mut product = 0;
    for i in 0..count {
        let moved = times_x(product);
        product = moved ^ selected(first >> i & 1, second);
    }
    product
}

/// The product of two blocks.
#[cfg(test)]
pub(crate) fn times(first: u128, second: u128) -> u128
    ensures { result ≡ times first second }
{
    low_times(128, first, second)
}
