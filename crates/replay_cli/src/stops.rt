//! Why a run stops, its status, and what is said of it.

ghost use Rattle.std.specs.Prelude.{◌≡◌, IfOk, string_bytes};
ghost use Rattle.replay_cli.specs.Stops.{exit_status, status_of, complaint_of};

use crate::printed::{push_field, push_line};
use jute_core::Memory;
use std::alloc::Global;

/// How a run ended.
#[derive(Clone, Copy, Debug, Drop, PartialEq, Eq)]
pub enum Status {
    /// All was printed.
    Done,
    /// The words fit no command.
    BadWords,
    /// A file could not be read.
    ReadFault,
    /// The key file has a length that no key file has.
    KeyMalformed,
    /// The script is outside its grammar.
    ScriptMalformed,
    /// A file has more bytes than are read.
    InputTooLong,
    /// What was to be printed, or the line of another status, could not be written.
    WriteFault,
    /// There was no memory.
    Memory,
    /// The host failed. Only a command that serves ends so.
    HostFault,
    /// Each number of a connection was given. Only a command that serves ends so.
    NumbersUsed,
}

impl Status {
    /// The exit status of the program.
    pub fn code(self) -> u8
        ensures { result ≡ exit_status self }
    {
        match self {
            Status::Done => 0,
            Status::BadWords => 2,
            Status::ReadFault => 3,
            Status::KeyMalformed => 4,
            Status::ScriptMalformed => 5,
            Status::WriteFault => 6,
            Status::Memory => 7,
            Status::InputTooLong => 8,
            Status::HostFault => 9,
            Status::NumbersUsed => 10,
        }
    }
}

/// Why a run stops before it prints.
#[derive(Clone, Copy, Drop)]
pub enum Stop<'a> {
    /// The words fit no command.
    BadWords,
    /// The file of this name could not be read.
    Unread(&'a str),
    /// The file of this name is too long.
    TooLong(&'a str),
    /// The key file has so many bytes.
    KeyMalformed(usize),
    /// This line of the script is the first that fits no event where it stands.
    ScriptMalformed(u64),
    /// There was no memory.
    Memory,
    /// The host failed.
    HostFault,
    /// Each number of a connection was given.
    NumbersUsed,
}

/// What is said of a stop, or that there is no memory to say it.
pub fn complaint(alloc: Global, stop: Stop<'_>) -> Result<String, Memory>
    ensures { IfOk result (λ text. string_bytes text ≡ complaint_of stop.entry) }
{
    let mut text = String::new(alloc);
    match stop {
        Stop::BadWords => push_line(&mut text, "bad words", "")?,
        Stop::Unread(name) => push_line(&mut text, "cannot read ", name)?,
        Stop::TooLong(name) => push_line(&mut text, name, " is longer than 268435456 bytes")?,
        Stop::KeyMalformed(size) => {
            let size = size.to_string(alloc)?;
            push_field(&mut text, "key of ", size.as_str())?;
            push_line(&mut text, " bytes", "")?;
        }
        Stop::ScriptMalformed(number) => {
            let number = number.to_string(alloc)?;
            push_line(&mut text, "script line ", number.as_str())?;
        }
        Stop::Memory => push_line(&mut text, "no memory", "")?,
        Stop::HostFault => push_line(&mut text, "host fault", "")?,
        Stop::NumbersUsed => push_line(&mut text, "connection numbers used", "")?,
    }
    Ok(text)
}

/// The status of a stop.
pub fn status_of(stop: Stop<'_>) -> Status
    ensures { result ≡ status_of stop.entry }
{
    match stop {
        Stop::BadWords => Status::BadWords,
        Stop::Unread(_) => Status::ReadFault,
        Stop::TooLong(_) => Status::InputTooLong,
        Stop::KeyMalformed(_) => Status::KeyMalformed,
        Stop::ScriptMalformed(_) => Status::ScriptMalformed,
        Stop::Memory => Status::Memory,
        Stop::HostFault => Status::HostFault,
        Stop::NumbersUsed => Status::NumbersUsed,
    }
}
