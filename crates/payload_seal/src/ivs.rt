//! The IVs of the payloads that one connection seals.

ghost use Rattle.std.specs.Prelude.{◌≡◌, ◌+◌, ◌≤◌, ◌<◌, ◌^◌, ◌↔◌, IfOk, OnOk, OnErr, IsErr};
ghost use Rattle.payload_seal.specs.Ivs.{payload_iv};

use std::marker::Model;
use thiserror::Error;

/// How many payloads a connection seals at most.
const PAYLOADS: u64 = 4_294_967_296;

/// Every IV of a connection was given.
#[derive(Clone, Copy, Debug, Drop, PartialEq, Eq, Error)]
#[error("every IV of the connection was given")]
pub struct Spent;

/// Gives the IVs of one connection in turn, each once.
///
/// It is not `Copy`: two copies would give the same IVs.
#[derive(Debug, Drop)]
pub struct IvSource {
    epoch: u8,
    boot: u32,
    connection: u32,
    count: u64,
}

impl Model for IvSource {
    ghost use Rattle.payload_seal.specs.Ivs.{Ivs, AreIvs};

    ghost Value = { Ivs };

    ghost view = { λ s. record { epoch = s.epoch; boot = s.boot; connection = s.connection; count = s.count } };

    ghost invariant = { λ s. AreIvs (record { epoch = s.epoch; boot = s.boot; connection = s.connection; count = s.count }) };
}

// The IV of the payload with this number.
fn iv_of(epoch: u8, boot: u32, connection: u32, number: u32) -> [u8; 12]
    ensures { result ≡ payload_iv epoch boot connection number }
{
    let boot = boot.to_be_bytes();
    let connection = connection.to_be_bytes();
    let number = number.to_be_bytes();
    [
        epoch,
        boot[1],
        boot[2],
        boot[3],
        connection[0],
        connection[1],
        connection[2],
        connection[3],
        number[0],
        number[1],
        number[2],
        number[3],
    ]
}

impl IvSource {
    /// The source of a connection that has sealed nothing, for the keys with this greatest epoch.
    /// Takes no memory.
    pub fn new(epoch: u8, boot: u32, connection: u32) -> IvSource
        requires { boot < 2 ^ 24 }
        ensures { result ≡ record { epoch = epoch; boot = boot; connection = connection; count = 0 } }
    {
        IvSource::starting(epoch, boot, connection, 0)
    }

    /// The source of a connection that has sealed `count` payloads. Takes no memory.
    pub fn starting(epoch: u8, boot: u32, connection: u32, count: u64) -> IvSource
        requires boot { boot < 2 ^ 24 }
        requires count { count ≤ 2 ^ 32 }
        ensures { result ≡ record { epoch = epoch; boot = boot; connection = connection; count = count } }
    {
        IvSource {
            epoch,
            boot,
            connection,
            count,
        }
    }

    /// The epoch of the key that the IVs are for. Takes no memory.
    pub fn epoch(&self) -> u8
        ensures { result ≡ self.now.epoch }
    {
        self.epoch
    }

    /// The next IV. Takes no memory.
    ///
    /// # Errors
    ///
    /// [`Spent`] exactly after 4,294,967,296 payloads. Nothing changes then.
    pub fn next(&mut self) -> Result<[u8; 12], Spent>
        ensures iv { IfOk result (λ iv. iv ≡ payload_iv self.old.epoch self.old.boot self.old.connection self.old.count) }
        ensures counted { OnOk result (self.new ≡ record self.old { count = self.old.count + 1 }) }
        ensures spent { IsErr result ↔ (self.old.count ≡ 2 ^ 32) }
        ensures unchanged { OnErr result (self.new ≡ self.old) }
    {
        if self.count >= PAYLOADS {
            return Err(Spent);
        }
        let iv = iv_of(self.epoch, self.boot, self.connection, self.count as u32);
        self.count += 1;
        Ok(iv)
    }

    /// The IV that the call of [`IvSource::next`] gives after `index` more ones. Takes no memory.
    ///
    /// It is looked at and not taken: whoever seals with it has to take it, by [`IvSource::advance`],
    /// before what was sealed leaves. An IV that is not taken then is given again, and so must not
    /// have sealed anything that leaves.
    pub fn ahead(&self, index: u64) -> [u8; 12]
        requires { self.now.count + index < 2 ^ 32 }
        ensures { result ≡ payload_iv self.now.epoch self.now.boot self.now.connection (self.now.count + index) }
    {
        iv_of(
            self.epoch,
            self.boot,
            self.connection,
            (self.count + index) as u32,
        )
    }

    /// Takes so many IVs at once, which were looked at by [`IvSource::ahead`]. Takes no memory.
    pub fn advance(&mut self, count: u64)
        requires { self.old.count + count ≤ 2 ^ 32 }
        ensures { self.new ≡ record self.old { count = self.old.count + count } }
    {
        self.count += count;
    }

    /// How many IVs are left. Takes no memory.
    pub fn left(&self) -> u64
        ensures { result + self.now.count ≡ 2 ^ 32 }
    {
        PAYLOADS - self.count
    }
}
