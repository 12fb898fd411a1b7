//! Sealing and opening (NIST SP 800-38D, sections 7.1 and 7.2).

ghost use Rattle.std.specs.Prelude.{◌≡◌, ◌≢◌, ◌↔◌, ◌+◌, ◌*◌, ◌^◌, ◌≤◌, ◌<◌, ◌++◌, ℕ, List, Some, Ok, Err, true, length, IfOk, IsTrue, OnErr, OnOk};
ghost use Rattle.gcm_mode.specs.Absorbed.{IsAbsorbed};
ghost use Rattle.gcm_mode.specs.Gcm.{Gcm, gcm_tag, passed_length, text_under};

use crate::absorbed::Absorbed;
use crate::counter::{counter_block, cover_from, push_piece, xor};
use crate::fault::{GcmFault, passed_length};
use crate::hash::absorb_text;
use crate::key::GcmKey;

// The block of two lengths in bytes: both in bits, each a number of 64 bits.
fn lengths_block(aad: usize, text: usize) -> u128
    requires aad { aad ≤ 2 ^ 28 }
    requires text { text ≤ 2 ^ 28 }
    ensures { result ≡ aad * 8 * 2 ^ 64 + text * 8 }
{
    aad as u128 * 8 * 0x1_0000_0000_0000_0000 + text as u128 * 8
}

// The tag of additional data and a ciphertext.
fn tag_of(key: &GcmKey, iv: &[u8; 12], absorbed: &Absorbed, text: &[u8]) -> [u8; 16]
    requires aad { absorbed.now.length ≤ 2 ^ 28 }
    requires text { length text.now ≤ 2 ^ 28 }
    ensures { (aad : List ℕ) → IsAbsorbed key.now absorbed.now aad
        → result ≡ gcm_tag key.now iv.now aad text.now }
{
    let hash_key = key.hash_key();
    let hash = absorb_text(hash_key, absorbed.hash(key), text);
    let lengths = lengths_block(absorbed.length, text.len());
    let whole = hash_key.times(hash ^ lengths);
    xor(
        whole.to_be_bytes(),
        key.cipher().encrypt(counter_block(iv, 1)),
    )
}

// Additional data that is there as a whole.
fn absorbed(key: &GcmKey, aad: &[u8]) -> Absorbed
    ensures { IsAbsorbed key.now result aad.now }
{
    let mut absorbed = Absorbed::new();
    absorbed.absorb(key, aad);
    absorbed
}

// Appends what the two pieces, one behind the other, are sealed to.
fn append_sealed(
    key: &GcmKey,
    iv: &[u8; 12],
    absorbed: &Absorbed,
    first: &[u8],
    second: &[u8],
    into: &mut Vec<u8>,
) -> Result<(), GcmFault>
    ensures ok { OnOk result ((aad : List ℕ) → IsAbsorbed key.now absorbed.now aad
        → into.new.items ≡ into.old.items ++ Gcm key.now iv.now aad (first.now ++ second.now)) }
    ensures err { OnErr result (into.new.items ≡ into.old.items) }
    ensures long { (aad : List ℕ) → IsAbsorbed key.now absorbed.now aad → (n : ℕ)
        → (result ≡ Err (GcmFault.TooLong n)) ↔ (passed_length aad (first.now ++ second.now) ≡ Some n) }
{
    let length = first.len() + second.len();
    if let Some(length) = passed_length(absorbed.length, length) {
        return Err(GcmFault::TooLong { length });
    }
    into.reserve(length + 16)?;
    let start = into.len();
    push_piece(into, first);
    push_piece(into, second);
    cover_from(key.cipher(), iv, start, into);
    let tag = tag_of(key, iv, absorbed, &into.as_slice()[start..]);
    push_piece(into, &tag);
    Ok(())
}

/// Appends the ciphertext of `plain` and the 16 bytes of the tag (section 7.1).
///
/// The IV must not be used for another text under the same key, which is for the caller to see to.
/// Where it fails, `into` has the bytes that it had. The memory is taken at once, before the first
/// byte is appended, and the time is in proportion to the two lengths.
///
/// # Errors
///
/// [`GcmFault::TooLong`] exactly where the text or the additional data has more than 268,435,456
/// bytes, with its length, that of the text where both have. [`GcmFault::Memory`] for want of
/// memory.
pub fn seal(
    key: &GcmKey,
    iv: &[u8; 12],
    aad: &[u8],
    plain: &[u8],
    into: &mut Vec<u8>,
) -> Result<(), GcmFault>
    ensures ok { OnOk result
        (into.new.items ≡ into.old.items ++ Gcm key.now iv.now aad.now plain.now) }
    ensures err { OnErr result (into.new.items ≡ into.old.items) }
    ensures long { (n : ℕ)
        → (result ≡ Err (GcmFault.TooLong n)) ↔ (passed_length aad.now plain.now ≡ Some n) }
{
    seal_absorbed(key, iv, &absorbed(key, aad), plain, into)
}

/// Seals a text that is there in two pieces: as [`seal`] does the one behind the other, without
/// their being joined first.
///
/// # Errors
///
/// As for [`seal`], where the length of the text is the sum of both.
pub fn seal_pieces(
    key: &GcmKey,
    iv: &[u8; 12],
    aad: &[u8],
    first: &[u8],
    second: &[u8],
    into: &mut Vec<u8>,
) -> Result<(), GcmFault>
    ensures ok { OnOk result
        (into.new.items ≡ into.old.items ++ Gcm key.now iv.now aad.now (first.now ++ second.now)) }
    ensures err { OnErr result (into.new.items ≡ into.old.items) }
    ensures long { (n : ℕ) → (result ≡ Err (GcmFault.TooLong n))
        ↔ (passed_length aad.now (first.now ++ second.now) ≡ Some n) }
{
    append_sealed(key, iv, &absorbed(key, aad), first, second, into)
}

/// Seals a text with additional data that was absorbed before: as [`seal`] does with each `aad` that
/// `absorbed` stands for. The time is in proportion to the text alone.
///
/// # Errors
///
/// As for [`seal`].
pub fn seal_absorbed(
    key: &GcmKey,
    iv: &[u8; 12],
    absorbed: &Absorbed,
    plain: &[u8],
    into: &mut Vec<u8>,
) -> Result<(), GcmFault>
    ensures ok { OnOk result ((aad : List ℕ) → IsAbsorbed key.now absorbed.now aad
        → into.new.items ≡ into.old.items ++ Gcm key.now iv.now aad plain.now) }
    ensures err { OnErr result (into.new.items ≡ into.old.items) }
    ensures long { (aad : List ℕ) → IsAbsorbed key.now absorbed.now aad → (n : ℕ)
        → (result ≡ Err (GcmFault.TooLong n)) ↔ (passed_length aad plain.now ≡ Some n) }
{
    append_sealed(key, iv, absorbed, plain, b"", into)
}

/// Whether the tag is that of the ciphertext `text`; where it is, appends the plain text
/// (section 7.2).
///
/// The whole tag is compared before a byte is appended. Where the answer is not true, `into` has
/// the bytes that it had. The memory is taken at once, and the time is in proportion to the two
/// lengths.
///
/// # Errors
///
/// [`GcmFault::TooLong`] exactly where the text or the additional data has more than 268,435,456
/// bytes, with its length, that of the text where both have. [`GcmFault::Memory`] for want of
/// memory.
pub fn unseal(
    key: &GcmKey,
    iv: &[u8; 12],
    aad: &[u8],
    text: &[u8],
    tag: &[u8; 16],
    into: &mut Vec<u8>,
) -> Result<bool, GcmFault>
    ensures tag { IfOk result
        (λ right. IsTrue right ↔ (tag.now ≡ gcm_tag key.now iv.now aad.now text.now)) }
    ensures ok { result ≡ Ok true
        → into.new.items ≡ into.old.items ++ text_under key.now iv.now text.now }
    ensures unchanged { result ≢ Ok true → into.new.items ≡ into.old.items }

    // What was sealed under the same key, IV and additional data is opened.
    ensures sealed { (plain : List ℕ) → text.now ++ tag.now ≡ Gcm key.now iv.now aad.now plain
        → IfOk result (λ right. IsTrue right × (into.new.items ≡ into.old.items ++ plain)) }

    ensures long { (n : ℕ)
        → (result ≡ Err (GcmFault.TooLong n)) ↔ (passed_length aad.now text.now ≡ Some n) }
{
    unseal_absorbed(key, iv, &absorbed(key, aad), text, tag, into)
}

/// Opens a ciphertext with additional data that was absorbed before: as [`unseal`] does with each
/// `aad` that `absorbed` stands for. The time is in proportion to the text alone.
///
/// # Errors
///
/// As for [`unseal`].
pub fn unseal_absorbed(
    key: &GcmKey,
    iv: &[u8; 12],
    absorbed: &Absorbed,
    text: &[u8],
    tag: &[u8; 16],
    into: &mut Vec<u8>,
) -> Result<bool, GcmFault>
    ensures tag { (aad : List ℕ) → IsAbsorbed key.now absorbed.now aad → IfOk result
        (λ right. IsTrue right ↔ (tag.now ≡ gcm_tag key.now iv.now aad text.now)) }
    ensures ok { result ≡ Ok true
        → into.new.items ≡ into.old.items ++ text_under key.now iv.now text.now }
    ensures unchanged { result ≢ Ok true → into.new.items ≡ into.old.items }

    // What was sealed under the same key, IV and additional data is opened.
    ensures sealed { (aad plain : List ℕ) → IsAbsorbed key.now absorbed.now aad
        → text.now ++ tag.now ≡ Gcm key.now iv.now aad plain
        → IfOk result (λ right. IsTrue right × (into.new.items ≡ into.old.items ++ plain)) }

    ensures long { (aad : List ℕ) → IsAbsorbed key.now absorbed.now aad → (n : ℕ)
        → (result ≡ Err (GcmFault.TooLong n)) ↔ (passed_length aad text.now ≡ Some n) }
{
    if let Some(length) = passed_length(absorbed.length, text.len()) {
        return Err(GcmFault::TooLong { length });
    }
    if tag_of(key, iv, absorbed, text) != *tag {
        return Ok(false);
    }
    into.reserve(text.len())?;
    let start = into.len();
    push_piece(into, text);
    cover_from(key.cipher(), iv, start, into);
    Ok(true)
}
