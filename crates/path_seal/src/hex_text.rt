//! Texts of lower-case hex, written and read through buffers that serve again.

ghost use Rattle.std.specs.Prelude.{◌≡◌, ◌≤◌, ◌↔◌, ◌^◌, ◌++◌, ℕ, List, Any, Ok, true, false, length, string_bytes, IsTrue, OnOk};
ghost use Rattle.aes_block.specs.Laws.{IsBytes};
ghost use Rattle.hex.specs.Hex.{encode_lower};
ghost use Rattle.path_seal.specs.Names.{IsUpper};

use jute_core::Memory;

/// Appends bytes in lower-case hex. Their digits come into the buffer first, in place of what that
/// had.
pub(crate) fn push_hex(bytes: &[u8], digits: &mut Vec<u8>, into: &mut String) -> Result<(), Memory>
    requires { length bytes.now ≤ 2 ^ 29 }
    ensures { OnOk result (string_bytes into.new ≡ string_bytes into.old ++ encode_lower bytes.now) }
{
    digits.resize(2 * bytes.len(), 0)?;
    if hex::encode_to_slice(bytes, digits.as_mut_slice()).is_err() {
        // They have two digits for each byte.
        unreachable!();
    }
    match str::from_utf8(digits.as_slice()) {
        Ok(text) => into.push_str(text)?,
        Err(_) => unreachable!(),
    }
    Ok(())
}

// A digit from A to F.
fn is_upper(byte: u8) -> bool
    ensures { IsTrue result ↔ IsUpper byte }
{
    matches!(byte, b'A'..=b'F')
}

fn has_upper(text: &str) -> bool
    ensures { IsTrue result ↔ Any IsUpper text.now }
{
    text.bytes().any(is_upper)
}

/// Reads the bytes that a text spells in lower-case hex, in place of those that were there, and says
/// whether it spells any.
pub(crate) fn read_hex(text: &str, bytes: &mut Vec<u8>) -> Result<bool, Memory>
    ensures spelled { result ≡ Ok true → encode_lower bytes.new.items ≡ text.now }
    ensures one { result ≡ Ok true → (b : List ℕ) → IsBytes b → encode_lower b ≡ text.now → bytes.new.items ≡ b }
    ensures none { result ≡ Ok false → (b : List ℕ) → IsBytes b → encode_lower b ≡ text.now → ⊥ }
{
    // `hex` reads digits in upper case too.
    if has_upper(text) {
        return Ok(false);
    }
    bytes.resize(text.len() / 2, 0)?;
    Ok(hex::decode_to_slice(text, bytes.as_mut_slice()).is_ok())
}
