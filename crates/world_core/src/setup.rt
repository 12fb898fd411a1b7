//! What all sessions of a world have, and its time.

ghost use Rattle.std.specs.Prelude.{◌≡◌, ◌<◌, ◌^◌, [], pos};
ghost use Rattle.store_side.specs.Owed.{IsTime};
ghost use Rattle.entry_session.specs.Stands.{fresh};
ghost use Rattle.entry_session.specs.Kept.{At};

use entry_session::Session;
use payload_seal::EntryKeys;
use std::alloc::Global;
use std::marker::Model;

/// The keys of a world's sessions, and the number of the boot in which they seal.
#[derive(Drop)]
pub struct Setup {
    keys: EntryKeys,
    boot: u32,
}

impl Model for Setup {
    ghost use Rattle.std.specs.Prelude.{◌<◌, ◌^◌};
    ghost use Rattle.world_core.specs.Setups.{Sealing};

    ghost Value = { Sealing };

    ghost view = { λ s. record { keys = s.keys; boot = s.boot } };

    ghost invariant = { λ s. s.boot < 2 ^ 24 };
}

impl Setup {
    /// Takes these keys and this boot.
    pub(crate) fn new(keys: EntryKeys, boot: u32) -> Setup
        requires { boot < 2 ^ 24 }
        ensures { result ≡ record { keys = keys; boot = boot } }
    {
        Setup { keys, boot }
    }

    /// Makes the session of a connection. Takes no memory.
    pub(crate) fn session(&self, alloc: Global, connection: u32) -> Session
        ensures keys { result.going.keys ≡ self.now.keys }
        ensures boot { result.going.ivs.boot ≡ self.now.boot }
        ensures connection { result.going.ivs.connection ≡ connection }
        ensures at { At result [] [] [] fresh }
    {
        Session::new(alloc, self.keys, self.boot, connection)
    }
}

/// A time in milliseconds, at least 0 and below 2^62.
#[derive(Drop)]
pub struct Clock {
    milliseconds: i64,
}

impl Model for Clock {
    ghost use Rattle.std.specs.Prelude.{ℤ};
    ghost use Rattle.store_side.specs.Owed.{IsTime};

    ghost Value = { ℤ };

    ghost view = { λ c. c.milliseconds };

    ghost invariant = { λ c. IsTime c.milliseconds };
}

impl Clock {
    /// Returns the time 0.
    pub(crate) fn start() -> Clock
        ensures { result ≡ pos 0 }
    {
        Clock { milliseconds: 0 }
    }

    /// Takes this time.
    pub(crate) fn at(milliseconds: i64) -> Clock
        requires { IsTime milliseconds }
        ensures { result ≡ milliseconds }
    {
        Clock { milliseconds }
    }

    /// Returns the time in milliseconds.
    pub(crate) fn milliseconds(&self) -> i64
        ensures time { IsTime result }
        ensures same { result ≡ self.now }
    {
        self.milliseconds
    }
}
