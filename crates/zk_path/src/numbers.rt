//! Sequence numbers.

ghost use Rattle.std.specs.Prelude.{◌≡◌, ◌≢◌, ◌↔◌, ℕ, pos, ◌≤ℤ◌, ◌≤◌, List, ◌%◌, ◌+◌, length, IfOk, MatchOption, unsigned_abs};
ghost use Rattle.zk_path.specs.Numbers.{ten_digits, EndsInTenDigits, IsNumberingOf, IsPlainName};

use jute_core::Text;
use std::alloc::{AllocError, Global};

// The last decimal digit.
fn last_digit(number: u32) -> u8
    ensures { result ≡ number % 10 + 48 }
{
    (number % 10) as u8 + b'0'
}

/// The number as ten decimal digits, with leading zeros.
pub fn digits(number: i32) -> [u8; 10]
    requires { pos 0 ≤ℤ number }
    ensures { result ≡ ten_digits (unsigned_abs number) }
{
    let number = number as u32;
    [
        last_digit(number / 1_000_000_000),
        last_digit(number / 100_000_000),
        last_digit(number / 10_000_000),
        last_digit(number / 1_000_000),
        last_digit(number / 100_000),
        last_digit(number / 10_000),
        last_digit(number / 1_000),
        last_digit(number / 100),
        last_digit(number / 10),
        last_digit(number),
    ]
}

// What stands before ten last ASCII digits.
pub(crate) fn before_number(name: &str) -> Option<&str>
    ensures { MatchOption result ((front : List ℕ) → EndsInTenDigits name.now front → ⊥) (λ front. EndsInTenDigits name.now front.now) }
{
    if name.len() < 10 {
        return None;
    }
    let (front, last) = name.as_bytes().split_at(name.len() - 10);
    if last.iter().all(|byte| byte.is_ascii_digit()) {
        Some(&name[..front.len()])
    } else {
        None
    }
}

/// Why no number was given.
#[derive(Clone, Copy, Debug, Drop, PartialEq, Eq)]
pub enum CannotNumber {
    /// The numberer has no name for this stem.
    CannotOpen,
    /// There was no memory.
    Memory,
}

impl From<AllocError> for CannotNumber {
    ghost use Rattle.zk_path.specs.declared.numbers.CannotNumber.TheVariants.{Memory};

    ghost from_gives = { λ _ r. r ≡ Memory };

    fn from(_e: AllocError) -> CannotNumber {
        CannotNumber::Memory
    }
}

/// Gives the names of sequential nodes. Which name a stem and a number have is fixed: no call changes it.
pub trait Numberer {
    /// The text is that of the stem's path with the number.
    ghost named: { Self → List ℕ → ℕ → List ℕ → Type 0 };

    /// The whole path's text for a stem's text and a number. CannotOpen exactly where there is no name.
    fn number(&mut self, alloc: Global, stem: &str, number: i32) -> Result<Text, CannotNumber>
        requires not_negative { pos 0 ≤ℤ number }
        requires short { length stem.now ≤ 134217728 }
        ensures named { IfOk result (λ text. named self.old stem.now (unsigned_abs number) text) }
        ensures cannot_open { result ≡ Err CannotNumber.CannotOpen → (text : List ℕ) → named self.old stem.now (unsigned_abs number) text → ⊥ }
        ensures fixed { (stem : List ℕ) (number : ℕ) (text : List ℕ) → named self.new stem number text ↔ named self.old stem number text };

    // Laws of every numberer: a name is short, and stands where its stem stands;
    ghost keeps: { (numberer : Self) (stem : List ℕ) (number : ℕ) (text : List ℕ) → named numberer stem number text → IsNumberingOf stem text };

    // and a stem and a number have at most one.
    ghost one: { (numberer : Self) (stem : List ℕ) (number : ℕ) (text other : List ℕ) → named numberer stem number text → named numberer stem number other → text ≡ other };
}

/// Appends the digits to any stem, so it never answers CannotOpen.
#[derive(Clone, Copy, Debug, Drop)]
pub struct PlainNumberer;

impl Numberer for PlainNumberer {
    ghost use Rattle.zk_path.specs.Numbers.{IsPlainName};
    ghost use Rattle.zk_path.specs.WithDigits.{plain_name_keeps, one_plain_name};

    ghost named = { λ _. IsPlainName };

    fn number(&mut self, alloc: Global, stem: &str, number: i32) -> Result<Text, CannotNumber>
        requires not_negative { pos 0 ≤ℤ number }
        requires short { length stem.now ≤ 134217728 }
        ensures named { IfOk result (IsPlainName stem.now (unsigned_abs number)) }
        ensures opens { result ≢ Err CannotNumber.CannotOpen }
    {
        let mut text = String::with_capacity(alloc, stem.len() + 10)?;
        text.push_str(stem)?;
        for digit in digits(number) {
            text.push(char::from(digit))?;
        }
        Ok(Text::of(text))
    }

    ghost keeps = { λ _. plain_name_keeps };

    ghost one = { λ _. one_plain_name };
}
