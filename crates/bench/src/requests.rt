//! Veiling requests on deep paths.

ghost use Rattle.std.specs.Prelude.{IfOk};
ghost use Rattle.zk_messages.specs.Short.{HasShortParts};

use crate::times::{RUNS, Times, print_millis};
use jute_core::{Memory, Text};
use payload_seal::{EntryKeys, IvSource, read_keys};
use request_rewrite::veil_request;
use std::alloc::Global;
use std::io;
use std::time::Instant;
use zk_messages::Request;
use zk_records::PathWatch;

const FILE: [u8; 64] = [9; 64];

/// Prints how long `exists` on paths of many components of one byte takes to be veiled. The last of
/// the paths has 1,000,000 bytes.
pub(crate) fn print_figures(rt: &HostRuntime) -> io::Result<()> {
    let Ok(keys) = read_keys(&FILE) else {
        return Ok(());
    };
    print_millis(
        rt,
        "exists on 1,000 components veiled",
        veiled(rt, &keys, 1_000)?,
    )?;
    print_millis(
        rt,
        "exists on 50,000 components veiled",
        veiled(rt, &keys, 50_000)?,
    )?;
    print_millis(
        rt,
        "exists on 500,000 components veiled",
        veiled(rt, &keys, 500_000)?,
    )
}

// The request `exists` on a path of so many components of one byte.
#[tactic(auto, unfolding(zk_messages::specs::Short::HasShortParts))]
fn deep_exists(alloc: Global, depth: u32) -> Result<Request, Memory>
    ensures { IfOk result HasShortParts }
{
    let mut path = String::new(alloc);
    for _ in 0..depth {
        path.push_str("/a")?;
    }
    if path.len() > 134_217_728 {
        return Err(Memory);
    }
    Ok(Request::Exists(PathWatch {
        path: Text::of(path),
        watch: false,
    }))
}

// The time that veiling `exists` on such a path takes.
fn veiled(rt: &HostRuntime, keys: &EntryKeys, depth: u32) -> io::Result<u128> {
    let mut times = Times::new(rt.alloc());
    for _ in 0..RUNS {
        let Ok(request) = deep_exists(rt.alloc(), depth) else {
            return Ok(0);
        };
        let mut ivs = IvSource::new(keys.payloads.epoch(), 0, 1);
        let start = Instant::now(rt)?;
        let whole = veil_request(rt.alloc(), keys, &mut ivs, 1, 0, request).is_ok();
        times.add(start.elapsed(rt)?.as_micros())?;
        if !whole {
            println!(rt; "not veiled")?;
        }
    }
    Ok(times.middle()?)
}
