//! A reader of Jute values.
//!
//! Each call reads one field and borrows from the slice. Its contract is one word: after `Ok` the
//! bytes that it passed spell the value, and after a refusal the place and the reason are those of
//! the first field that fails, and the cursor stands where it stood. No call takes memory.

ghost use Rattle.std.specs.Prelude.{◌≡◌, ℕ, ◌+◌, ◌<◌, ◌^◌, length, Err, OnOk, IfErr, []};
ghost use Rattle.std.specs.Option.{option_copied};
ghost use Rattle.jute_core.specs.declared.cursor.Reason.TheVariants.{Trailing};
ghost use Rattle.jute_core.specs.Jute.{int, long, boolean, count, buffer, ustring};
ghost use Rattle.jute_core.specs.Position.{Reads};

use std::marker::Model;

/// What is wrong with bytes that are no value of the type asked for.
#[derive(Clone, Copy, Debug, Drop, PartialEq, Eq)]
pub enum Reason {
    /// Fewer bytes are left than the field needs.
    Short,
    /// A length or count is below -1, or a text's is -1.
    BadLength,
    /// A boolean is a byte above 1.
    BadBool,
    /// A text's bytes are no UTF-8.
    BadUtf8,
    /// Bytes follow the last field.
    Trailing,
    /// A header names an operation or a result that is not served.
    BadType,
    /// A request has an xid that only the store, or only a ping, may have.
    BadXid,
    /// A header has other fields than its place allows.
    BadHeader,
}

/// Where bytes are wrong, counted from 0 in a frame's body, and how.
#[derive(Clone, Copy, Debug, Drop, PartialEq, Eq)]
pub struct Refusal {
    /// The place of the first byte that is wrong or lacking, or of its field: the first byte of an
    /// int, a long, a boolean, a length, a count or a header; for contents that are cut short or no
    /// text, the first byte after their length.
    pub place: u32,
    /// What is wrong there.
    pub reason: Reason,
}

/// A reader of a slice, which contracts see as the bytes that are left and the place of the first
/// of them. After a refusal it stands where it stood.
#[derive(Drop)]
pub struct Cursor<'a> {
    left: &'a [u8],
    place: u32,
}

impl<'a> Model for Cursor<'a> {
    ghost use Rattle.std.specs.Prelude.{◌+◌, ◌<◌, ◌^◌, length};
    ghost use Rattle.jute_core.specs.Position.{Position};

    ghost Value = { Position };

    ghost view = { λ c. record { place = c.place; left = c.left.now } };

    ghost invariant = { λ c. c.place + length c.left.now < 2 ^ 32 };
}

impl<'a> Cursor<'a> {
    /// A reader of all the bytes, of which the first has place 0.
    pub fn new(bytes: &'a [u8]) -> Cursor<'a>
        requires { length bytes.now < 2 ^ 32 }
        ensures { result ≡ record { place = 0; left = bytes.now } }
    {
        Cursor {
            left: bytes,
            place: 0,
        }
    }

    /// Another reader at the same place. A record's reader goes ahead on a copy, and moves the
    /// cursor that it was given only when it has read the last field.
    pub fn copy(&self) -> Cursor<'a>
        ensures { result ≡ self.now }
    {
        Cursor {
            left: self.left,
            place: self.place,
        }
    }

    /// The place of the next byte, counted from 0.
    pub fn place(&self) -> u32
        ensures { result ≡ self.now.place }
    {
        self.place
    }

    /// The bytes that are left.
    pub fn rest(&self) -> &'a [u8]
        ensures { result.now ≡ self.now.left }
    {
        self.left
    }

    // A refusal at the present place.
    fn refuse<T>(&self, reason: Reason) -> Result<T, Refusal>
        ensures { result ≡ Err (record { place = self.now.place; reason = reason }) }
    {
        Err(Refusal {
            place: self.place,
            reason,
        })
    }

    /// Four bytes, the highest first, in two's complement.
    ///
    /// # Errors
    /// `Short` where fewer are left.
    #[tactic(auto, unfolding(crate::specs::Jute::Spells, crate::specs::Jute::Refused))]
    pub fn int(&mut self) -> Result<i32, Refusal>
        ensures { Reads self.old self.new int (λ z. z) result }
    {
        if self.left.len() < 4 {
            return self.refuse(Reason::Short);
        }
        let (front, rest) = self.left.split_at(4);
        let value = i32::from_be_bytes([front[0], front[1], front[2], front[3]]);
        self.left = rest;
        self.place += 4;
        Ok(value)
    }

    /// Eight bytes, the highest first, in two's complement.
    ///
    /// # Errors
    /// `Short` where fewer are left.
    #[tactic(auto, unfolding(crate::specs::Jute::Spells, crate::specs::Jute::Refused))]
    pub fn long(&mut self) -> Result<i64, Refusal>
        ensures { Reads self.old self.new long (λ z. z) result }
    {
        if self.left.len() < 8 {
            return self.refuse(Reason::Short);
        }
        let (front, rest) = self.left.split_at(8);
        let value = i64::from_be_bytes([
            front[0], front[1], front[2], front[3], front[4], front[5], front[6], front[7],
        ]);
        self.left = rest;
        self.place += 8;
        Ok(value)
    }

    /// One byte, 0 or 1.
    ///
    /// # Errors
    /// `Short` where none is left, `BadBool` where it is above 1.
    #[tactic(auto, unfolding(crate::specs::Jute::Spells, crate::specs::Jute::Refused))]
    pub fn boolean(&mut self) -> Result<bool, Refusal>
        ensures { Reads self.old self.new boolean (λ b. b) result }
    {
        match self.left {
            [] => self.refuse(Reason::Short),
            [0, rest @ ..] => {
                self.left = rest;
                self.place += 1;
                Ok(false)
            }
            [1, rest @ ..] => {
                self.left = rest;
                self.place += 1;
                Ok(true)
            }
            [_, ..] => self.refuse(Reason::BadBool),
        }
    }

    /// The count of a vector, an int of which -1 is null.
    ///
    /// # Errors
    /// `Short`, and `BadLength` below -1.
    #[tactic(auto, unfolding(crate::specs::Jute::Spells, crate::specs::Jute::Refused))]
    pub fn count(&mut self) -> Result<Option<u32>, Refusal>
        ensures { Reads self.old self.new count (λ n. n) result }
    {
        let mut ahead = self.copy();
        let number = ahead.int()?;
        if number < -1 {
            return self.refuse(Reason::BadLength);
        }
        *self = ahead;
        if number == -1 {
            Ok(None)
        } else {
            Ok(Some(number as u32))
        }
    }

    /// Bytes after their length, an int of which -1 is null.
    ///
    /// # Errors
    /// `Short` at the length or at the contents, and `BadLength` for a length below -1.
    #[tactic(auto, unfolding(crate::specs::Jute::Spells, crate::specs::Jute::Refused))]
    pub fn buffer(&mut self) -> Result<Option<&'a [u8]>, Refusal>
        ensures { Reads self.old self.new buffer option_copied result }
    {
        let mut ahead = self.copy();
        let Some(length) = ahead.count()? else {
            *self = ahead;
            return Ok(None);
        };
        let length = length as usize;
        if ahead.left.len() < length {
            return ahead.refuse(Reason::Short);
        }
        let (front, rest) = ahead.left.split_at(length);
        *self = Cursor {
            left: rest,
            place: ahead.place + length as u32,
        };
        Ok(Some(front))
    }

    /// The UTF-8 bytes of a text after their length. A text is never null.
    ///
    /// # Errors
    /// `Short` at the length or at the contents, `BadLength` for a length below 0, and `BadUtf8` at
    /// the contents.
    #[tactic(auto, unfolding(crate::specs::Jute::Spells, crate::specs::Jute::Refused))]
    pub fn ustring(&mut self) -> Result<&'a str, Refusal>
        ensures { Reads self.old self.new ustring (λ t. t.now) result }
    {
        let mut ahead = self.copy();
        let Some(bytes) = ahead.buffer()? else {
            return self.refuse(Reason::BadLength);
        };
        let Ok(text) = str::from_utf8(bytes) else {
            return Err(Refusal {
                place: self.place + 4,
                reason: Reason::BadUtf8,
            });
        };
        *self = ahead;
        Ok(text)
    }

    /// That nothing follows.
    ///
    /// # Errors
    /// `Trailing` at the next byte exactly where one is left.
    pub fn end(&self) -> Result<(), Refusal>
        ensures ok { OnOk result (self.now.left ≡ []) }
        ensures refused { IfErr result (λ refusal. (0 < length self.now.left)
            × (refusal ≡ record { place = self.now.place; reason = Trailing })) }
    {
        if self.left.is_empty() {
            Ok(())
        } else {
            self.refuse(Reason::Trailing)
        }
    }
}
