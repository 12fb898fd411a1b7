//! Where connections come from, and where the jobs over them run.

ghost use Rattle.std.specs.Prelude.{◌≡◌, ◌<◌, ◌≤◌, ◌-◌, ◌^◌};
ghost use Rattle.jute_core.specs.Faults.{HasCause};
ghost use Rattle.serve_cli.specs.Hosts.{HostTold, Rests, Accepts, StartsOne};

use audit_board::Failed;
use counter_enclave::CounterEnclave;
use jute_core::Memory;
use relay_io::{Duo, Line};
use std::sync::Wait;
use std::thread::Threads;
use tree_hall::Bells;
use tree_server::{Count, TreeServer};

/// A store that forgets its entries, whose sequential nodes an enclave names.
pub type Server = TreeServer<CounterEnclave, Count>;

/// What came of waiting for a client.
#[derive(Debug, Drop)]
pub enum Accepted<T> {
    /// A connection.
    One(T),
    /// A client came, and there is no connection of it.
    Skipped,
    /// No more clients come.
    NoMore,
    /// The host failed.
    Failed,
}

/// What gives connections, one by one, and counts the jobs over them that start.
pub trait Host {
    /// The two sides of a connection that is relayed.
    type Pair: Duo + Send + Drop + 'static;
    /// The one side of a connection that is served.
    type One: Line + Send + Drop + 'static;
    /// How the served connections hear that bytes wait for them.
    type Rings: Bells + Send + Sync + Drop + 'static;
    /// What the jobs wait by.
    type Rt: Threads + Wait + Clone + Drop + Send + Sync + 'static;

    /// How many connections were accepted, how many jobs were started, and how many clients were skipped; whether no more come; and
    /// how often the host failed.
    ghost told: { Self → HostTold };

    /// Takes clients at this address from here on.
    ///
    /// # Errors
    /// The host failed: its count rose.
    fn listen(&mut self, address: &str) -> Result<(), Failed>
        ensures rests { Rests (told self.old) (told self.new) }
        ensures cause { HasCause (told self.old).faults (told self.new).faults result };

    /// How the connections of [`Host::accept_one`] hear that bytes wait for them.
    ///
    /// # Errors
    /// `Memory`.
    fn rings(&mut self) -> Result<Self::Rings, Memory>
        ensures rests { Rests (told self.old) (told self.new) };

    /// Waits for a client, and connects it with the store at this address. A client for which there is no store is skipped.
    fn accept_pair(&mut self, store: &str) -> Accepted<Self::Pair>
        requires { (told self.old).accepted < 2 ^ 64 - 1 }
        ensures accepts { Accepts result (told self.old) (told self.new) };

    /// Waits for a client.
    fn accept_one(&mut self) -> Accepted<Self::One>
        requires { (told self.old).accepted < 2 ^ 64 - 1 }
        ensures accepts { Accepts result (told self.old) (told self.new) };

    /// Counts a job that starts, over a connection that was accepted. `true` where it is to run on a thread of its own, and `false`
    /// where the caller runs it at once.
    fn start(&mut self) -> bool
        requires { (told self.old).started < (told self.old).accepted }
        ensures starts { StartsOne (told self.old) (told self.new) };

    /// How many connections were accepted.
    fn accepted(&self) -> u64
        ensures { result ≡ (told self.now).accepted };

    /// How many jobs were started.
    fn started(&self) -> u64
        ensures { result ≡ (told self.now).started };

    /// How many clients were skipped, up to the last value of a u64.
    fn skipped(&self) -> u64
        ensures { result ≡ (told self.now).skipped };

    /// Whether no more clients come.
    fn ended(&self) -> bool
        ensures { result ≡ (told self.now).ended };

    /// How often the host failed, up to the last value of a u64.
    fn faults(&self) -> u64
        ensures { result ≡ (told self.now).faults };

    /// No job is started without a connection that was accepted.
    ghost within: { (h : Self) → (told h).started ≤ (told h).accepted };
}
