//! The two commands that serve, over connections in memory.

use crate::{MemoryHost, serve};
use aes_block::Key;
use audit_board::{Board, MemorySink, SharedBoard};
use counter_enclave::CounterEnclave;
use hex::FromHex;
use jute_core::{Bytes, Text};
use path_seal::NameKeys;
use relay_io::{DuoEvent, LineEvent, MemoryDuo, MemoryLine};
use replay_cli::{MemoryFiles, NamedFile, Status};
use std::alloc::{AllocError, Global};
use std::test::Fail;
use store_side::StoreSide;
use tree_server::TreeServer;

// A connect, a create of "/app" with "hello", and a getData of it.
const SENT: &str =
    "0000002d00000000000000000000000000007530000000000000000000000010000000000000000000000000000000000000\
    0000380000000100000001000000042f6170700000000568656c6c6f000000010000001f00000005776f726c640000000661\
    6e796f6e6500000000000000110000000200000004000000042f61707000";

// The same sealed, by connection 1 of boot 0.
const HANDED: &str =
    "0000002d00000000000000000000000000007530000000000000000000000010000000000000000000000000000000000000\
    0000b000000001000000010000003f2f66653435303666303663633365666162376362313961633164626361646438616335\
    65626364333163643537356661353763653333613066323039346665000000420000000000000001000000009bb332b6446a\
    4226dcc6d3c194c4982ca239c3d518f7f01d682d2f5c3533d15e3e2190748156a742a6e20d6f4d0807b2932c613c24f90000\
    00010000001f00000005776f726c6400000006616e796f6e65000000000000004c00000002000000040000003f2f66653435\
    3036663036636333656661623763623139616331646263616464386163356562636433316364353735666135376365333361\
    306632303934666500";

// What a store at time 1000 answers, opened.
const RECEIVED: &str =
    "00000025000000000000753000000000000000010000001058e2fccefa7e3061367f1d57a4e7455a00000000180000000100\
    0000000000000200000000000000042f6170700000005d000000020000000000000002000000000000000568656c6c6f0000\
    000000000002000000000000000200000000000003e800000000000003e80000000000000000000000000000000000000000\
    00000005000000000000000000000002";

// A connect, exists "/" and closeSession.
const CLOSING: &str =
    "0000002d00000000000000000000000000007530000000000000000000000010000000000000000000000000000000000000\
    00000e0000000100000003000000012f000000000800000002fffffff5";

// What a store at time 0 answers to them, up to the password.
const CLOSED_BEFORE: &str = "000000250000000000007530000000000000000100000010";

// The password of session 1 under the key file: AES-128 under the first 16 bytes of SHA-256 over the salt and "passwd".
const PASSWORD: &str = "97c52e0f886ccfea078c7d0bb3577a53";

// The answers behind the password.
const CLOSED_BEHIND: &str =
    "0000000054000000010000000000000001000000000000000000000000000000000000000000000000000000000000000000\
    0000000000000000000000000000000000000000000000000000000000000000000000000000000000001000000002000000\
    000000000200000000";

fn keys_at(file: &[u8]) -> NameKeys {
    let mut key = [0; 16];
    let mut salt = [0; 32];
    for (place, byte) in key.iter_mut().zip(file) {
        *place = *byte;
    }
    for (place, byte) in salt.iter_mut().zip(file.iter().skip(32)) {
        *place = *byte;
    }
    NameKeys::new(key, salt)
}

// The bytes 0 to 63: a name key, a payload key and a salt.
fn key_file() -> [u8; 64] {
    let mut file = [0; 64];
    for (index, place) in file.iter_mut().enumerate() {
        *place = index as u8;
    }
    file
}

// What a store at time 1000 answers to bytes in hex, under a password key of zeros.
fn answered(alloc: Global, handed: &str) -> Result<Vec<u8>, Fail> {
    let enclave = CounterEnclave::new(keys_at(&key_file()));
    let mut store = TreeServer::forgetting(alloc, enclave, Key::new([0; 16]))?;
    let connection = store.admit()?;
    let handed = hex::decode(alloc, handed)?;
    store.feed(connection, 1000, handed.as_slice())?;
    let mut bytes = Vec::new(alloc);
    store.pull(connection, 65_536, &mut bytes)?;
    Ok(bytes)
}

fn words(alloc: Global, of: &[&str]) -> Result<Vec<String>, AllocError> {
    let mut words = Vec::new(alloc);
    for word in of {
        words.push(String::from_str(alloc, word)?)?;
    }
    Ok(words)
}

// A file of this name.
fn files(alloc: Global, name: &str, bytes: &[u8]) -> Result<MemoryFiles, AllocError> {
    let file = NamedFile {
        name: Text::of(String::from_str(alloc, name)?),
        bytes: Bytes::of(Vec::from_slice(alloc, bytes)?),
    };
    Ok(MemoryFiles::new(vec![in alloc; file]?, Vec::new(alloc)))
}

#[test]
fn a_proxy_gives_each_client_what_it_reads_alone(rt: HostRuntime) -> Result<(), Fail> {
    let alloc = rt.alloc();
    let events = vec![in alloc;
        DuoEvent::Client(Bytes::of(hex::decode(alloc, SENT)?)),
        DuoEvent::Store(Bytes::of(answered(alloc, HANDED)?)),
    ]?;
    let duo = MemoryDuo::new(alloc, events, Vec::new(alloc));
    let mut host = MemoryHost::new(
        alloc,
        rt.clone()?,
        vec![in alloc; duo]?,
        Vec::new(alloc),
        Vec::new(alloc),
    );
    let board = SharedBoard::new(alloc, rt.clone()?, Board::new(alloc))?;
    let mut files = files(alloc, "key", &key_file())?;
    let mut out = MemorySink::new(alloc, Vec::new(alloc));
    let mut err = MemorySink::new(alloc, Vec::new(alloc));
    let words = words(alloc, &["proxy", "key", "0", "here", "there"])?;
    let status = serve(
        &rt,
        alloc,
        words.as_slice(),
        &mut host,
        &mut files,
        board,
        &mut out,
        &mut err,
    );
    assert_eq!(rt; status, Status::Done);
    let received = hex::encode(alloc, host.written(1)?.as_slice())?;
    assert_eq!(rt; received.as_str(), RECEIVED);
    assert!(rt; err.taken() == b"proxy: here -> there, boot 0\n".as_slice());
    Ok(())
}

#[test]
fn a_store_answers_with_the_password_of_its_key(rt: HostRuntime) -> Result<(), Fail> {
    let alloc = rt.alloc();
    let bytes = Bytes::of(hex::decode(alloc, CLOSING)?);
    let line = MemoryLine::new(
        alloc,
        vec![in alloc; LineEvent::Bytes { at: 0, bytes }]?,
        Vec::new(alloc),
    );
    let mut host = MemoryHost::new(
        alloc,
        rt.clone()?,
        Vec::new(alloc),
        vec![in alloc; line]?,
        Vec::new(alloc),
    );
    let board = SharedBoard::new(alloc, rt.clone()?, Board::new(alloc))?;
    let file = key_file();
    let mut counter_key = Vec::from_slice(alloc, &file[..16])?;
    counter_key.extend_from_slice(&file[32..])?;
    let mut files = files(alloc, "counterkey", counter_key.as_slice())?;
    let mut out = MemorySink::new(alloc, Vec::new(alloc));
    let mut err = MemorySink::new(alloc, Vec::new(alloc));
    let words = words(alloc, &["store", "counterkey", "here"])?;
    let status = serve(
        &rt,
        alloc,
        words.as_slice(),
        &mut host,
        &mut files,
        board,
        &mut out,
        &mut err,
    );
    assert_eq!(rt; status, Status::Done);
    let received = hex::encode(alloc, host.written(1)?.as_slice())?;
    let mut wanted = String::from_str(alloc, CLOSED_BEFORE)?;
    wanted.push_str(PASSWORD)?;
    wanted.push_str(CLOSED_BEHIND)?;
    assert_eq!(rt; received.as_str(), wanted.as_str());
    Ok(())
}
