//! Files that a command reads, in the order of its words.

ghost use Rattle.std.specs.Prelude.{◌≡◌, ℕ, ◌≤◌, List, Some, IfOk, IfErr};
ghost use Rattle.jute_core.specs.Faults.{Rose};
ghost use Rattle.audit_board.specs.Counts.{next};
ghost use Rattle.replay_cli.specs.Hostile.{IsKeysOf};
ghost use Rattle.replay_cli.specs.Run.{MayHold, IsTooLong, IsKey, MayBe, IsLongOf, IsBadKey};
ghost use Rattle.replay_cli.specs.Stops.{Because, BecauseOfFile, IsUnreadOf};

use crate::files::{FileFault, Files};
use crate::stops::Stop;
use jute_core::Bytes;
use payload_seal::{EntryKeys, read_keys};
use std::alloc::Global;

/// The most bytes that a file may have.
const FILE_LIMIT: u64 = 268_435_456;

/// The bytes of a file.
pub fn load<'a, F: Files>(alloc: Global, name: &'a str, files: &mut F) -> Result<Bytes, Stop<'a>>
    ensures ok { IfOk result (λ bytes. MayHold (F.told files.old name.now) bytes) }
    ensures err { IfErr result (λ stop. BecauseOfFile stop (λ n. (n ≡ name.now)
        × (F.failed files.new ≡ Some (F.reads files.old))
        × Rose (F.faults files.old) (F.faults files.new)) (λ n. (n ≡ name.now)
        × IsTooLong (F.told files.old n))) }
    ensures counted { F.reads files.new ≡ next (F.reads files.old) }
    ensures same { (other : List ℕ) → F.told files.new other ≡ F.told files.old other }
    ensures later { F.faults files.old ≤ F.faults files.new }
{
    match files.read(alloc, name, FILE_LIMIT) {
        Ok(bytes) => Ok(bytes),
        Err(FileFault::Failed) => Err(Stop::Unread(name)),
        Err(FileFault::TooLong { .. }) => Err(Stop::TooLong(name)),
        Err(FileFault::Memory) => Err(Stop::Memory),
    }
}

/// What a key file and a script hold.
#[derive(Drop)]
pub struct Keyed {
    /// The keys of the one.
    pub keys: EntryKeys,
    /// The bytes of the other.
    pub script: Bytes,
}

/// The keys of a key file, and the bytes of a script; the key is read first.
pub fn load_keyed<'a, F: Files>(
    alloc: Global,
    key: &'a str,
    script: &'a str,
    files: &mut F,
) -> Result<Keyed, Stop<'a>>
    ensures ok { IfOk result (λ loaded. MayBe (F.told files.old key.now) (λ bytes. IsKey bytes
        × IsKeysOf bytes loaded.keys) × MayHold (F.told files.old script.now) loaded.script) }
    ensures err { IfErr result (λ stop. Because stop ⊥ (λ name.
        IsUnreadOf key.now script.now (F.reads files.old) (F.failed files.new) name
        × Rose (F.faults files.old) (F.faults files.new)) (IsLongOf (F.told files.old) key.now
        script.now) (IsBadKey (F.told files.old key.now)) (λ _. ⊥)) }
    ensures later { F.faults files.old ≤ F.faults files.new }
{
    let key = match load(alloc, key, files) {
        Ok(bytes) => bytes,
        Err(stop) => return Err(stop),
    };
    let keys = match read_keys(key.as_slice()) {
        Ok(keys) => keys,
        Err(_) => return Err(Stop::KeyMalformed(key.len())),
    };
    let script = match load(alloc, script, files) {
        Ok(bytes) => bytes,
        Err(stop) => return Err(stop),
    };
    Ok(Keyed { keys, script })
}
