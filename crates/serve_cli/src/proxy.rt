//! The proxy: a relay for each client.

ghost use Rattle.std.specs.Prelude.{◌≡◌, ◌<◌, ◌≤◌, ◌+◌, ◌-◌, ◌^◌, ℕ};
ghost use Rattle.serve_cli.specs.Serving.{Closed, Turned};

use crate::closing::Close;
use crate::host::{Accepted, Host};
use audit_board::SharedBoard;
use payload_seal::EntryKeys;
use relay_io::RelayJob;
use std::alloc::Global;
use std::sync::Wait;
use std::thread::Threads;

// The turns of each relay.
const TURNS: u64 = 1_000_000_000_000;

/// What the relays of a proxy have in common.
#[derive(Drop)]
pub(crate) struct Proxy<'a, R: Wait + Clone + Drop> {
    /// The keys that they seal under.
    pub keys: EntryKeys,
    /// The boot whose connections they are.
    pub boot: u32,
    /// Where the store is.
    pub store: &'a str,
    /// The board that they tell their findings to.
    pub board: SharedBoard<R>,
    /// What they take memory of.
    pub alloc: Global,
}

impl<R: Threads + Wait + Clone + Drop + Send + Sync + 'static> Proxy<'_, R> {
    // Relays for the next client, as the connection of this number. `false` where it was skipped.
    fn relay_next<H: Host<Rt = R>>(
        &self,
        rt: &R,
        connection: u32,
        host: &mut H,
    ) -> Result<bool, Close>
        requires boot { self.now.boot < 2 ^ 24 }
        requires below { (H.told host.old).accepted < 2 ^ 64 - 1 }
        ensures turned { Turned (H.told host.old) (H.told host.new) result }
    {
        let Ok(board) = self.board.split() else {
            return Err(Close::Memory);
        };
        match host.accept_pair(self.store) {
            Accepted::One(duo) => {
                let job = RelayJob::new(
                    self.alloc, self.keys, self.boot, connection, TURNS, duo, board,
                );
                if host.start() {
                    let _ = job.start(rt);
                } else {
                    let _ = job.run();
                }
                Ok(true)
            }
            Accepted::Skipped => Ok(false),
            Accepted::NoMore => Err(Close::NoMore),
            Accepted::Failed => Err(Close::HostFault),
        }
    }

    /// Relays for each client, until no more are taken, and answers why. Their connections are numbered from 1.
    pub fn relay_all<H: Host<Rt = R>>(&self, rt: &R, host: &mut H) -> Close
        requires boot { self.now.boot < 2 ^ 24 }
        requires room { (H.told host.old).accepted ≤ 2 ^ 63 - 1 }
        ensures closed { (count : ℕ) × Closed (H.told host.old) (H.told host.new) count result }
    {
        let mut count: u32 = 0;
        for _ in rt.forever() {
            match self.relay_next(rt, count + 1, host) {
                Ok(true) => {
                    count += 1;
                    if count == u32::MAX {
                        return Close::NumbersUsed;
                    }
                }
                Ok(false) => {}
                Err(close) => return close,
            }
        }
        unreachable!()
    }
}
