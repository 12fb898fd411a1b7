//! The store: one hall that serves each client.

ghost use Rattle.std.specs.Prelude.{◌≡◌, ◌<◌, ◌≤◌, ◌+◌, ◌-◌, ◌^◌, ℕ};
ghost use Rattle.tree_hall.specs.Passes.{IsPassOf};
ghost use Rattle.serve_cli.specs.Serving.{Closed, Turned};

use crate::closing::Close;
use crate::host::{Accepted, Host, Server};
use relay_io::ServeJob;
use std::alloc::Global;
use std::sync::{Arc, Wait};
use tree_hall::{Hall, Pass};

// The turns of each connection.
const TURNS: u64 = 1_000_000_000_000;

/// Serves the next client. `false` where it was skipped.
fn serve_next<H: Host>(
    rt: &H::Rt,
    alloc: Global,
    hall: &Arc<Hall<Server, H::Rings>>,
    pass: &mut Pass,
    host: &mut H,
) -> Result<bool, Close>
    requires pass { IsPassOf hall.now.value.table.shared.table_id pass.old }
    requires below { (H.told host.old).accepted < 2 ^ 64 - 1 }
    ensures same { IsPassOf hall.now.value.table.shared.table_id pass.new }
    ensures turned { Turned (H.told host.old) (H.told host.new) result }
{
    let Ok(own) = rt.clone() else {
        return Err(Close::Memory);
    };
    let Ok(shared) = Arc::try_clone(hall) else {
        return Err(Close::Memory);
    };
    let Ok(other) = hall.split(rt, pass) else {
        return Err(Close::Memory);
    };
    match host.accept_one() {
        Accepted::One(line) => {
            let job = ServeJob::new(own, alloc, shared, other, TURNS, line);
            if host.start() {
                let _ = job.start(rt);
            } else {
                let _ = job.run();
            }
            Ok(true)
        }
        Accepted::Skipped => Ok(false),
        Accepted::NoMore => Err(Close::NoMore),
        Accepted::Failed => Err(Close::HostFault),
    }
}

/// Serves each client, until no more are taken, and answers why.
pub(crate) fn serve_all<H: Host>(
    rt: &H::Rt,
    alloc: Global,
    hall: &Arc<Hall<Server, H::Rings>>,
    mut pass: Pass,
    host: &mut H,
) -> Close
    requires pass { IsPassOf hall.now.value.table.shared.table_id pass }
    requires room { (H.told host.old).accepted ≤ 2 ^ 63 - 1 }
    ensures closed { (count : ℕ) × Closed (H.told host.old) (H.told host.new) count result }
{
    let mut count: u32 = 0;
    for _ in rt.forever() {
        match serve_next(rt, alloc, hall, &mut pass, host) {
            Ok(true) => {
                count += 1;
                if count == u32::MAX {
                    return Close::NumbersUsed;
                }
            }
            Ok(false) => {}
            Err(close) => return close,
        }
    }
    unreachable!()
}
