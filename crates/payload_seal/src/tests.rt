//! Payloads and digests that other programs give for the keys 10 to 1f of epoch 0 and 40 to 4f of
//! epoch 1 and the IVs below, and each allocating call with ample memory.

use super::*;
use hex::FromHex;
use jute_core::Bytes;
use std::test::Fail;
use zk_path::{Path, read_path, read_stem};

// The bytes from 0 on: a file of keys for the epochs 0 and 1. Its first 64 bytes have one for epoch
// 0 alone.
const FILE: [u8; 80] = [
    0, 1, 2, 3, 4, 5, 6, 7, 8, 9, 10, 11, 12, 13, 14, 15, 16, 17, 18, 19, 20, 21, 22, 23, 24, 25,
    26, 27, 28, 29, 30, 31, 32, 33, 34, 35, 36, 37, 38, 39, 40, 41, 42, 43, 44, 45, 46, 47, 48, 49,
    50, 51, 52, 53, 54, 55, 56, 57, 58, 59, 60, 61, 62, 63, 64, 65, 66, 67, 68, 69, 70, 71, 72, 73,
    74, 75, 76, 77, 78, 79,
];

const IV: [u8; 12] = [0, 0, 0, 0, 0, 0, 0, 1, 0, 0, 0, 0];

// A path, its content and the payload.
const PATHS: [(&str, Option<&str>, &str); 3] = [
    (
        "/app",
        Some("hello"),
        "0000000000000001000000009bb332b6446a4226dcc6d3c194c4982ca239c3d518f7f01d682d2f5c3533d15e3e2190748156a742a6e20d6f4d0807b2932c613c24f9",
    ),
    (
        "/n",
        None,
        "00000000000000010000000099d8224ce63b448a0643fc329fb9f524a403565b585740613e0d781706cbf7826d10a5dfe67bd8da4ee7a16b7ca9713722",
    ),
    (
        "/e",
        Some(""),
        "0000000000000001000000009b18c568b9380baf1dfa7758faf6a606167c4ee7112dbe15a3cbefbfc0e518b0c09302689e7ee0eabb279b17eed42296a9",
    ),
];

// A stem, its content, the payload, and a path that numbers it.
const STEMS: [(&str, Option<&str>, &str, &str); 2] = [
    ("/q/n-", Some("one"), SEQUENTIAL, "/q/n-0000000001"),
    (
        "/",
        None,
        "00000000000000010000000098cc573e5b8500ce749592630538301541768ea2c101880dfc38485823c67aff0c1c70c7185dbada6239f88dabaa6e6579",
        "/0000000007",
    ),
];

const SEQUENTIAL: &str =
    "0000000000000001000000009a4702209d2f41664a4ca9ae5104b79f75739a3e753fdb05e2dda7d7bd5d1fbd10269b7d4e5679e5d034dfec1b49db0bf1a7cf8d";

// "hello" for "/app" with one bit of the tag changed.
const ANOTHER_TAG: &str =
    "0000000000000001000000009bb332b6446a4226dcc6d3c194c4982ca239c3d518f7f01d682d2f5c3533d15e3e2190748156a742a6e20d6f4d0807b2932c613c24f8";

// For "/app" under a flag of 4, and under a flag of 2 with a byte of content.
const FLAG_4: &str =
    "0000000000000001000000009fb332b6446a4226dcc6d3c194c4982ca239c3d518f7f01d682d2f5c3533d15e3ec1d260851f162886f90ced6fc0134492";

const FLAG_2: &str =
    "00000000000000010000000099b332b6446a4226dcc6d3c194c4982ca239c3d518f7f01d682d2f5c3533d15e3e311a05c4da0958223a535b816126e8551e";

// "x" for "/a".
const OF_A: &str =
    "0000000000000001000000009b2c59386c8370a64a513ba61e5d18ea6a92b5868899c895460f9f14a051d065d53125492ebce8411b4b34f29435fd6129bb";

// "hello" for "/app" under the key of epoch 1, with the first IV of its own.
const EPOCH_1: &str =
    "010000000000000100000000a1ae63b10509b6be0e1a137deed916b83e0235b540328669c3442440863407d2c104866497888563348621fa94f021ddf4d9a101edd0";

fn is_same(found: &Option<Bytes>, content: Option<&str>) -> bool {
    match (found, content) {
        (Some(found), Some(content)) => found.as_slice() == content.as_bytes(),
        (None, None) => true,
        _ => false,
    }
}

fn sealed(
    rt: &HostRuntime,
    path: &Path,
    sequential: bool,
    content: Option<&str>,
) -> Result<Bytes, Fail> {
    let keys = read_keys(&FILE[..64])?.payloads;
    let Some(content) = content else {
        return Ok(seal_data(rt.alloc(), &keys, IV, path, sequential, None)?);
    };
    if content.len() >= 32 {
        return Err(Fail::from("a long content"));
    }
    Ok(seal_data(
        rt.alloc(),
        &keys,
        IV,
        path,
        sequential,
        Some(content.as_bytes()),
    )?)
}

fn opened(
    rt: &HostRuntime,
    plain: &str,
    payload: &[u8],
) -> Result<Result<Option<Bytes>, NotOpened>, Fail> {
    let keys = read_keys(&FILE[..64])?.payloads;
    if plain.len() >= 32 || payload.len() >= 256 {
        return Err(Fail::from("a long path or payload"));
    }
    let path = read_path(rt.alloc(), plain)?;
    Ok(open_data(rt.alloc(), &keys, &path, payload))
}

// What is said of a payload in hex at a path.
fn refusal(rt: &HostRuntime, plain: &str, payload: &str) -> Result<Option<NotOpened>, Fail> {
    let payload = hex::decode(rt.alloc(), payload)?;
    Ok(opened(rt, plain, payload.as_slice())?.err())
}

#[test]
fn contents_are_sealed_as_elsewhere_and_opened(rt: HostRuntime) -> Result<(), Fail> {
    for (plain, content, expected) in PATHS {
        assert!(rt; plain.len() < 32);
        let path = read_path(rt.alloc(), plain)?;
        let expected = hex::decode(rt.alloc(), expected)?;
        let payload = sealed(&rt, &path, false, content)?;
        assert!(rt; payload.as_slice() == expected.as_slice());
        let found = opened(&rt, plain, expected.as_slice())??;
        assert!(rt; is_same(&found, content));
    }
    Ok(())
}

#[test]
fn sequential_contents_are_sealed_as_elsewhere_and_opened(rt: HostRuntime) -> Result<(), Fail> {
    for (plain, content, expected, numbered) in STEMS {
        assert!(rt; plain.len() < 32);
        let stem = read_stem(rt.alloc(), plain)?;
        let expected = hex::decode(rt.alloc(), expected)?;
        let payload = sealed(&rt, &stem, true, content)?;
        assert!(rt; payload.as_slice() == expected.as_slice());
        let found = opened(&rt, numbered, expected.as_slice())??;
        assert!(rt; is_same(&found, content));
    }
    Ok(())
}

#[test]
fn each_flaw_has_its_values(rt: HostRuntime) -> Result<(), Fail> {
    let digits = OF_A.get(..120).ok_or("no sixty bytes")?;
    assert!(rt; refusal(&rt, "/a", digits)? == Some(NotOpened::Flawed(Flaw::Short { length: 60 })));
    assert!(rt; refusal(&rt, "/a", "")? == Some(NotOpened::Flawed(Flaw::Short { length: 0 })));
    assert!(rt; refusal(&rt, "/app", ANOTHER_TAG)? == Some(NotOpened::Flawed(Flaw::BadTag)));
    assert!(rt;
        refusal(&rt, "/app", FLAG_4)? == Some(NotOpened::Flawed(Flaw::BadFlag { flag: 4 }))
    );
    assert!(rt;
        refusal(&rt, "/app", FLAG_2)? == Some(NotOpened::Flawed(Flaw::BadFlag { flag: 2 }))
    );
    Ok(())
}

#[test]
fn payloads_of_other_paths_show_both_digests(rt: HostRuntime) -> Result<(), Fail> {
    let table = [
        (
            OF_A,
            "/b",
            "6a50dc8584134c7de537c0052ff6d236bf874355e050c90523e0c5ff2a543a28",
            "9812b0b9d61e09b927d03ff93f64530d8fcf373810b7007129eb4b20962412cb",
        ),
        (
            SEQUENTIAL,
            "/q/m-0000000001",
            "010bc47428228c7df8a5c84a7659a7295ea8fba8464359a1f1d806e2269be2ed",
            "c46a4e133c3e67aa4060008a9a58676a5fe658adb248ac39040896de782f327e",
        ),
    ];
    for (payload, plain, sealed, asked) in table {
        let sealed = <[u8; 32] as FromHex>::from_hex(sealed)?;
        let asked = <[u8; 32] as FromHex>::from_hex(asked)?;
        assert!(rt;
            refusal(&rt, plain, payload)?
                == Some(NotOpened::Flawed(Flaw::WrongPath { sealed, asked }))
        );
    }
    Ok(())
}

#[test]
fn ivs_are_spelled_high_byte_first_to_the_last(rt: HostRuntime) -> Result<(), Fail> {
    let mut first = IvSource::new(0, 0x01_0203, 0x0405_0607);
    assert!(rt; first.next()? == [0, 1, 2, 3, 4, 5, 6, 7, 0, 0, 0, 0]);
    assert!(rt; first.next()? == [0, 1, 2, 3, 4, 5, 6, 7, 0, 0, 0, 1]);
    let mut last = IvSource::starting(0, 0, 1, 4_294_967_295);
    assert!(rt; last.next()? == [0, 0, 0, 0, 0, 0, 0, 1, 255, 255, 255, 255]);
    assert!(rt; last.next().is_err());
    assert!(rt; last.next().is_err());
    Ok(())
}

#[test]
fn payloads_open_under_the_key_of_their_epoch(rt: HostRuntime) -> Result<(), Fail> {
    let keys = read_keys(&FILE)?.payloads;
    let epoch = keys.epoch();
    assert!(rt; epoch == 1);
    let iv = IvSource::new(epoch, 0, 1).next()?;
    assert!(rt; iv == [1, 0, 0, 0, 0, 0, 0, 1, 0, 0, 0, 0]);
    let path = read_path(rt.alloc(), "/app")?;
    let payload = seal_data(rt.alloc(), &keys, iv, &path, false, Some(b"hello"))?;
    let expected = hex::decode(rt.alloc(), EPOCH_1)?;
    assert!(rt; payload.as_slice() == expected.as_slice());
    for plain in [EPOCH_1, PATHS[0].2] {
        let payload = hex::decode(rt.alloc(), plain)?;
        assert!(rt; payload.len() < 256);
        let found = open_data(rt.alloc(), &keys, &path, payload.as_slice())?;
        assert!(rt; is_same(&found, Some("hello")));
    }
    Ok(())
}

#[test]
fn payloads_of_later_epochs_have_no_key(rt: HostRuntime) -> Result<(), Fail> {
    let keys = read_keys(&FILE)?.payloads;
    let path = read_path(rt.alloc(), "/a")?;
    let mut payload = hex::decode(rt.alloc(), OF_A)?;
    assert!(rt; payload.len() == 62);
    let found = open_data(rt.alloc(), &keys, &path, payload.as_slice())?;
    assert!(rt; is_same(&found, Some("x")));
    payload[0] = 2;
    let refused = open_data(rt.alloc(), &keys, &path, payload.as_slice()).err();
    assert!(rt; refused == Some(NotOpened::Flawed(Flaw::UnknownEpoch { epoch: 2 })));
    assert!(rt;
        refusal(&rt, "/app", EPOCH_1)? == Some(NotOpened::Flawed(Flaw::UnknownEpoch { epoch: 1 }))
    );
    Ok(())
}

#[test]
fn files_of_other_lengths_are_no_keys(rt: HostRuntime) -> Result<(), Fail> {
    assert!(rt; read_keys(&FILE[..63]).err() == Some(KeyMalformed { length: 63 }));
    assert!(rt; read_keys(&FILE[..64])?.payloads.epoch() == 0);
    assert!(rt; read_keys(&FILE[..65]).err() == Some(KeyMalformed { length: 65 }));
    assert!(rt; read_keys(&FILE[..72]).err() == Some(KeyMalformed { length: 72 }));
    assert!(rt; read_counter_keys(&FILE[..48]).is_ok());
    assert!(rt; read_counter_keys(&FILE[..64]).err() == Some(KeyMalformed { length: 64 }));
    Ok(())
}

#[test]
fn at_most_256_keys_are_held(rt: HostRuntime) -> Result<(), Fail> {
    let longer = [7; 4160];
    assert!(rt; read_keys(&longer).err() == Some(KeyMalformed { length: 4160 }));
    let most = read_keys(&longer[..4144])?.payloads;
    assert!(rt; most.epoch() == 255);
    assert!(rt; most.with_next([8; 16]).is_none());
    let two = PayloadKeys::new([7; 16])
        .with_next([8; 16])
        .ok_or("no room")?;
    assert!(rt; two.epoch() == 1);
    Ok(())
}
