//! The top call.

ghost use Rattle.std.specs.Prelude.{◌≡◌, ◌⊎◌, ◌≤◌, ◌<◌, ◌+◌, ◌-◌, ◌^◌, ℕ, List, [], codes, true, IfSome, IfNone, IfOk};
ghost use Rattle.std.specs.Fmt.{decimal};
ghost use Rattle.jute_core.specs.Faults.{Rose, Wrote};
ghost use Rattle.tree_hall.specs.Passes.{IsPassOf};
ghost use Rattle.replay_cli.specs.Printed.{line};
ghost use Rattle.replay_cli.specs.Run.{IsKey, IsTooLong};
ghost use Rattle.replay_cli.specs.Stops.{unread_line, too_long_line, bad_key_line};
ghost use Rattle.replay_cli.specs.Words.{word};
ghost use Rattle.serve_cli.specs.Words.{Fits, IsServedLine, proxy_line, store_line};
ghost use Rattle.serve_cli.specs.Hosts.{Rests};
ghost use Rattle.serve_cli.specs.Serving.{Joined, numbers};
ghost use Rattle.serve_cli.specs.Ends.{HostThen, EndsSo};
ghost use Rattle.serve_cli.specs.Causes.{IsCounterKey, HasBadKey, HasKey, EndsUnder, EndsFor, Said, SaidLine, Says, Ended};

use crate::closing::Close;
use crate::ending::End;
use crate::host::{Host, Server};
use crate::keys::{StoreKeys, load_keys, load_store_keys};
use crate::proxy::Proxy;
use crate::store::serve_all;
use crate::texts::{proxy_text, store_text};
use crate::words::{Command, command_of};
use audit_board::{SharedBoard, Sink};
use counter_enclave::CounterEnclave;
use jute_core::Memory;
use replay_cli::{Files, Status, Stop, complain};
use std::alloc::Global;
use std::sync::{Arc, Wait};
use tree_hall::{Hall, Pass};
use tree_server::TreeServer;

// Tries to say that a write failed, whatever comes of it.
fn write_fault<E: Sink>(err: &mut E) -> Status
    ensures status { result ≡ Status.WriteFault }
    ensures later { E.faults err.old ≤ E.faults err.new }
{
    let _ = err.write(b"cannot write\n");
    Status::WriteFault
}

// How serving ends where no more clients are taken.
fn end_of(close: Close) -> End<'static>
    ensures { EndsSo close result }
{
    match close {
        Close::NoMore => End::Done,
        Close::NumbersUsed => End::Stopped(Stop::NumbersUsed),
        Close::HostFault => End::Stopped(Stop::HostFault),
        Close::Memory => End::Stopped(Stop::Memory),
    }
}

// Listens, and says what is served; `Some` where it cannot.
fn open<H: Host, E: Sink>(
    host: &mut H,
    listen: &str,
    text: &[u8],
    err: &mut E,
) -> Option<End<'static>>
    ensures some { IfSome result (λ end. HostThen end (H.told host.old) (H.told host.new)) }
    ensures none { IfNone result (Rests (H.told host.old) (H.told host.new)) }
    ensures kind { IfSome result (λ end. (end ≡ End.Unsaid) ⊎ (end ≡ End.Stopped Stop.HostFault)) }
    ensures unsaid { result ≡ Some End.Unsaid → Rose (E.faults err.old) (E.faults err.new) }
    ensures quiet { result ≡ Some (End.Stopped Stop.HostFault) → E.taken err.new ≡ E.taken err.old }
    ensures said { IfNone result (Wrote (E.taken err.old) (E.taken err.new) text.now) }
    ensures later { E.faults err.old ≤ E.faults err.new }
{
    if host.listen(listen).is_err() {
        return Some(End::Stopped(Stop::HostFault));
    }
    if err.write(text).is_err() {
        return Some(End::Unsaid);
    }
    None
}

// Relays between clients and a store.
#[tactic(auto, using(crate::proofs::Stopping::at_key, crate::proofs::Stopping::at_close, crate::proofs::Stopping::quiet_at_key, crate::proofs::Stopping::said_at_close, crate::proofs::Stopping::at_opening, crate::proofs::Stopping::said_at_opening))]
fn proxy<'a, H: Host, F: Files, E: Sink>(
    rt: &H::Rt,
    alloc: Global,
    key: &'a str,
    boot: u32,
    listen: &'a str,
    store: &'a str,
    host: &mut H,
    files: &mut F,
    board: SharedBoard<H::Rt>,
    err: &mut E,
) -> End<'a>
    requires boot { boot < 2 ^ 24 }
    requires room { (H.told host.old).accepted ≤ 2 ^ 63 - 1 }
    ensures host { HostThen result (H.told host.old) (H.told host.new) }
    ensures cause { EndsUnder IsKey key.now (F.told files.old key.now) (F.faults files.old) (F.faults files.new) result }
    ensures said { Said (λ text. text ≡ proxy_line listen.now store.now (decimal boot)) result (E.taken err.old) (E.taken err.new)
        (E.faults err.old) (E.faults err.new) }
    ensures later { E.faults err.old ≤ E.faults err.new }
{
    let keys = match load_keys(alloc, key, files) {
        Ok(keys) => keys,
        Err(stop) => return End::Stopped(stop),
    };
    let Ok(text) = proxy_text(alloc, listen, store, boot) else {
        return End::Stopped(Stop::Memory);
    };
    if let Some(end) = open(host, listen, text.as_bytes(), err) {
        return end;
    }
    let proxy = Proxy {
        keys,
        boot,
        store,
        board,
        alloc,
    };
    end_of(proxy.relay_all(rt, host))
}

// A hall round a new store, for the connections of this host.
fn new_hall<H: Host>(
    alloc: Global,
    keys: StoreKeys,
    host: &mut H,
) -> Result<(Arc<Hall<Server, H::Rings>>, Pass), Memory>
    ensures pass { IfOk result (λ h. IsPassOf h.0.value.table.shared.table_id h.1) }
    ensures rests { Rests (H.told host.old) (H.told host.new) }
{
    let enclave = CounterEnclave::new(keys.names);
    let server = TreeServer::forgetting(alloc, enclave, keys.passwords)?;
    let (hall, pass) = Hall::new(alloc, server, host.rings()?)?;
    let hall = Arc::new(alloc, hall)?;
    Ok((hall, pass))
}

// Serves a store.
#[tactic(auto, using(crate::proofs::Stopping::at_key, crate::proofs::Stopping::at_close, crate::proofs::Stopping::quiet_at_key, crate::proofs::Stopping::said_at_close, crate::proofs::Stopping::at_opening, crate::proofs::Stopping::said_at_opening))]
fn store<'a, H: Host, F: Files, E: Sink>(
    rt: &H::Rt,
    alloc: Global,
    key: &'a str,
    listen: &'a str,
    host: &mut H,
    files: &mut F,
    err: &mut E,
) -> End<'a>
    requires room { (H.told host.old).accepted ≤ 2 ^ 63 - 1 }
    ensures host { HostThen result (H.told host.old) (H.told host.new) }
    ensures cause { EndsUnder IsCounterKey key.now (F.told files.old key.now) (F.faults files.old) (F.faults files.new) result }
    ensures said { Said (λ text. text ≡ store_line listen.now) result (E.taken err.old) (E.taken err.new) (E.faults err.old)
        (E.faults err.new) }
    ensures later { E.faults err.old ≤ E.faults err.new }
{
    let keys = match load_store_keys(alloc, key, files) {
        Ok(keys) => keys,
        Err(stop) => return End::Stopped(stop),
    };
    let Ok((hall, pass)) = new_hall(alloc, keys, host) else {
        return End::Stopped(Stop::Memory);
    };
    let Ok(text) = store_text(alloc, listen) else {
        return End::Stopped(Stop::Memory);
    };
    if let Some(end) = open(host, listen, text.as_bytes(), err) {
        return end;
    }
    end_of(serve_all(rt, alloc, &hall, pass, host))
}

// Runs the command that the words name, up to its end.
#[tactic(auto, using(crate::proofs::Stopping::of_proxy, crate::proofs::Stopping::of_store, crate::proofs::Stopping::said_of_proxy, crate::proofs::Stopping::said_of_store))]
fn served<'a, H: Host, F: Files, E: Sink>(
    rt: &H::Rt,
    alloc: Global,
    words: &'a [String],
    host: &mut H,
    files: &mut F,
    board: SharedBoard<H::Rt>,
    err: &mut E,
) -> End<'a>
    requires room { (H.told host.old).accepted ≤ 2 ^ 63 - 1 }
    ensures host { HostThen result (H.told host.old) (H.told host.new) }
    ensures cause { EndsFor words.now (F.told files.old) (F.faults files.old) (F.faults files.new) result }
    ensures no_row { (Fits words.now → ⊥) → (result ≡ End.Stopped Stop.BadWords) × (files.new ≡ files.old) }
    ensures said { Said (IsServedLine words.now) result (E.taken err.old) (E.taken err.new) (E.faults err.old) (E.faults err.new) }
    ensures later { E.faults err.old ≤ E.faults err.new }
{
    match command_of(words) {
        None => End::Stopped(Stop::BadWords),
        Some(
            Command::Proxy {
                key,
                boot,
                listen,
                store,
            },
        ) => proxy(rt, alloc, key, boot, listen, store, host, files, board, err),
        Some(Command::Store { key, listen }) => store(rt, alloc, key, listen, host, files, err),
    }
}

// Says how serving ended, and answers its status.
fn status<E: Sink>(alloc: Global, end: End<'_>, err: &mut E) -> Status
    ensures { Ended end.entry (E.taken err.old) (E.taken err.new) (E.faults err.old) (E.faults err.new) result }
{
    match end {
        End::Done => Status::Done,
        End::Stopped(stop) => complain(alloc, stop, err),
        End::Unsaid => write_fault(err),
    }
}

/// Runs the command that the words name, a proxy or a store, for the connections of a host, and answers its status. A proxy tells its
/// findings to the board.
///
/// Each connection that was accepted went into a job of its own, whatever the status. The key file is read once, before the host
/// listens. `out` is left as it was; `err` takes one line that says what is served, and the line of each status but `Done`. Waits for
/// the host.
pub fn serve<H: Host, F: Files, K: Sink, E: Sink>(
    rt: &H::Rt,
    alloc: Global,
    words: &[String],
    host: &mut H,
    files: &mut F,
    board: SharedBoard<H::Rt>,
    out: &mut K,
    err: &mut E,
) -> Status
    requires { (H.told host.old).accepted ≤ 2 ^ 63 - 1 }
    ensures jobs { (count : ℕ) × Joined (H.told host.old) (H.told host.new) count }
    // No more clients came, after a line that says what is served, under a file that may hold a key of the command.
    ensures done { result ≡ Status.Done → ((H.told host.new).ended ≡ true) × HasKey words.now (F.told files.old (word words.now 1))
        × SaidLine (IsServedLine words.now) (E.taken err.old) (E.taken err.new) }
    // No row of the table of commands fits.
    ensures bad_words { result ≡ Status.BadWords → (Fits words.now → ⊥)
        × Wrote (E.taken err.old) (E.taken err.new) (line (codes "bad words") []) }
    ensures no_row { (Fits words.now → ⊥) → (result ≡ Status.BadWords) ⊎ (result ≡ Status.WriteFault) ⊎ (result ≡ Status.Memory) }
    ensures unread { (Fits words.now → ⊥) → files.new ≡ files.old }
    // The key file was not read, or is too long, or has a length that no key file of the command has; it is named, or its length is.
    ensures read_fault { result ≡ Status.ReadFault → Fits words.now × Rose (F.faults files.old) (F.faults files.new)
        × Wrote (E.taken err.old) (E.taken err.new) (unread_line (word words.now 1)) }
    ensures too_long { result ≡ Status.InputTooLong → Fits words.now × IsTooLong (F.told files.old (word words.now 1))
        × Wrote (E.taken err.old) (E.taken err.new) (too_long_line (word words.now 1)) }
    ensures key_malformed { result ≡ Status.KeyMalformed → (size : ℕ) × HasBadKey words.now (F.told files.old (word words.now 1)) size
        × Wrote (E.taken err.old) (E.taken err.new) (bad_key_line size) }
    ensures script_malformed { result ≡ Status.ScriptMalformed → ⊥ }
    // The host failed, or each number of a connection was given.
    ensures host_fault { result ≡ Status.HostFault → Rose (H.told host.old).faults (H.told host.new).faults
        × HasKey words.now (F.told files.old (word words.now 1))
        × Says words.now (E.taken err.old) (E.taken err.new) (line (codes "host fault") []) }
    ensures numbers_used { result ≡ Status.NumbersUsed → ((H.told host.new).accepted ≡ (H.told host.old).accepted + numbers)
        × HasKey words.now (F.told files.old (word words.now 1))
        × Says words.now (E.taken err.old) (E.taken err.new) (line (codes "connection numbers used") []) }
    ensures all_numbers { (H.told host.new).accepted ≡ (H.told host.old).accepted + numbers
        → (result ≡ Status.NumbersUsed) ⊎ (result ≡ Status.WriteFault) ⊎ (result ≡ Status.Memory) }
    // A write failed, or there was no memory.
    ensures write_fault { result ≡ Status.WriteFault → Rose (E.faults err.old) (E.faults err.new) }
    ensures memory { result ≡ Status.Memory → Says words.now (E.taken err.old) (E.taken err.new) (line (codes "no memory") []) }
    ensures out { out.new ≡ out.old }
{
    let _ = out;
    let end = served(rt, alloc, words, host, files, board, err);
    status(alloc, end, err)
}
