//! The key files of the commands that serve.

ghost use Rattle.std.specs.Prelude.{◌≡◌, ◌≤◌, ◌++◌, codes, take, drop, IfOk, IfErr, Some, List, ℕ};
ghost use Rattle.replay_cli.specs.Run.{IsKey, MayBe};
ghost use Rattle.serve_cli.specs.Causes.{IsCounterKey, StopsAtKey};
ghost use Rattle.sha2.specs.Sha256.{sha256};

use aes_block::Key;
use path_seal::NameKeys;
use payload_seal::{EntryKeys, read_counter_keys, read_keys};
use replay_cli::{Files, Stop, load};
use sha2::{Digest, Sha256};
use std::alloc::Global;

// The keys of a proxy's relays, in a file.
#[tactic(auto, using(crate::proofs::Stopping::of_file))]
pub(crate) fn load_keys<'a, F: Files>(
    alloc: Global,
    name: &'a str,
    files: &mut F,
) -> Result<EntryKeys, Stop<'a>>
    ensures loaded { IfOk result (λ keys. MayBe (F.told files.old name.now) IsKey) }
    ensures stopped { IfErr result (λ stop. StopsAtKey IsKey name.now (F.told files.old name.now) (F.faults files.old)
        (F.faults files.new) stop) }
    ensures later { F.faults files.old ≤ F.faults files.new }
{
    let bytes = match load(alloc, name, files) {
        Ok(bytes) => bytes,
        Err(stop) => return Err(stop),
    };
    match read_keys(bytes.as_slice()) {
        Ok(keys) => Ok(keys),
        Err(_) => Err(Stop::KeyMalformed(bytes.len())),
    }
}

/// The keys of a store.
#[derive(Drop)]
pub(crate) struct StoreKeys {
    /// Those of the enclave that names sequential nodes.
    pub names: NameKeys,
    /// The one of its sessions' passwords.
    pub passwords: Key,
}

// The key of passwords beside a salt.
fn password_key(salt: &[u8]) -> Key
    ensures { result ≡ take 16 (sha256 (salt.now ++ codes "passwd")) }
{
    let mut hasher = Sha256::new();
    hasher.update(salt);
    hasher.update(b"passwd");
    let digest = hasher.finalize();
    let mut key = [0; 16];
    key.copy_from_slice(&digest[..16]);
    Key::new(key)
}

// The keys of a store, in a file.
#[tactic(auto, using(crate::proofs::Stopping::of_file))]
pub(crate) fn load_store_keys<'a, F: Files>(
    alloc: Global,
    name: &'a str,
    files: &mut F,
) -> Result<StoreKeys, Stop<'a>>
    ensures loaded { IfOk result (λ keys. MayBe (F.told files.old name.now) IsCounterKey) }
    ensures stopped { IfErr result (λ stop. StopsAtKey IsCounterKey name.now (F.told files.old name.now) (F.faults files.old)
        (F.faults files.new) stop) }
    ensures later { F.faults files.old ≤ F.faults files.new }
{
    let bytes = match load(alloc, name, files) {
        Ok(bytes) => bytes,
        Err(stop) => return Err(stop),
    };
    match read_counter_keys(bytes.as_slice()) {
        Ok(names) => Ok(StoreKeys {
            names,
            passwords: password_key(&bytes.as_slice()[16..]),
        }),
        Err(_) => Err(Stop::KeyMalformed(bytes.len())),
    }
}
