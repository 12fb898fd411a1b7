//! Products with the two small factors of MixColumns (FIPS 197, section 4.2.1).

ghost use Rattle.std.specs.Prelude.{◌≡◌};
ghost use Rattle.aes_block.specs.Aes.{times};

// The reduction byte stands for x^8, which is x^4 + x^3 + x + 1.
const REDUCTION: u8 = 0x1b;

/// The product of `{02}` and a byte.
pub(crate) fn double(byte: u8) -> u8
    ensures { result ≡ times 2 byte }
{
    (byte & 0x7f) << 1 ^ (byte >> 7) * REDUCTION
}

/// The product of `{03}` and a byte.
pub(crate) fn triple(byte: u8) -> u8
    ensures { result ≡ times 3 byte }
{
    double(byte) ^ byte
}
