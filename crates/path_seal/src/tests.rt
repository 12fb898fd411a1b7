//! Sealed forms that other programs give for the key 00 to 0f and the salt 20 to 3f, and each
//! allocating call with ample memory.

use super::*;
use sha2::{Digest, Sha256};
use std::alloc::{AllocError, Global};
use std::test::Fail;
use zk_path::{Path, read_path, read_stem};

fn keys() -> NameKeys {
    NameKeys::new(
        [0, 1, 2, 3, 4, 5, 6, 7, 8, 9, 10, 11, 12, 13, 14, 15],
        [
            32, 33, 34, 35, 36, 37, 38, 39, 40, 41, 42, 43, 44, 45, 46, 47, 48, 49, 50, 51, 52, 53,
            54, 55, 56, 57, 58, 59, 60, 61, 62, 63,
        ],
    )
}

const PATHS: [(&str, &str); 11] = [
    ("/", "/"),
    (
        "/a/a",
        "/a8a6003f2e1d1454a606ec55a44e776c7e0ed81bb2329ff66131bb291b/7259a8d3ee8f5c4a59fdeebe8e1e6217ee6b45e9b115897101e9bed716",
    ),
    (
        "/app",
        "/fe4506f06cc3efab7cb19ac1dbcadd8ac5ebcd31cd575fa57ce33a0f2094fe",
    ),
    (
        "/a",
        "/a8a6003f2e1d1454a606ec55a44e776c7e0ed81bb2329ff66131bb291b",
    ),
    (
        "/b",
        "/a296b980a57b9a9cc271666a3882026e008cfecca5fe7ee43dd4a4f69d",
    ),
    (
        "/\u{e4}",
        "/f8d3a6f88419fa14f3e88c84d976b8cd73fbef0cfce98cff0ce6636a5569",
    ),
    (
        "/q/n-0000000001",
        "/32c8bcbdfdc48170ded594ff87ec2249754ee0ae8dd98814ab8fde07ca/a0854f08f75ce9249636bab1493b9b1ec6ad37350677e13a6b61dbef20fda51eb6fc4cf9d629949c",
    ),
    (
        "/\u{20ac}uro/x",
        "/843582bd9c705157ff1e4502d604de7a8265d5ce75de3f1f923ed3d4677df76b3cd0/42e9c4881dc7f651a01744f8f76d52c26b4ba0eab98fa4dd81783f856e",
    ),
    (
        "/\u{1f512}",
        "/8136eecabc2a8bd68c540e335314631c6d5fa75715dd1c9bfc604b53ba9421af",
    ),
    (
        "/lock/x-0000000000",
        "/13542aa22f730882c143c2cda3284678495b36ce02e422a87b35c6bcd9d1d9e8/ebf80b4eb26ca0c309322b0bf9167902131526b38c2e47aacca863c9bbdfa0e07e4a8d1945a53db7",
    ),
    (
        "/n-0000000000",
        "/b2e1c4e898d858a7e80afd835570700d80c9f8d83edeeeaceac3b891451705c92482dba5869e53bc",
    ),
];

const STEMS: [(&str, &str); 6] = [
    (
        "/",
        "/1f0a1e6581f42efd79fffb9488aa96d787e46fb63d1ed83bc929778a",
    ),
    (
        "/q/",
        "/32c8bcbdfdc48170ded594ff87ec2249754ee0ae8dd98814ab8fde07ca/a2f7f7286ca5b47de4a430e2bea8d4c6ed276a3ccb489cea96c8c1b0",
    ),
    (
        "/q/n-",
        "/32c8bcbdfdc48170ded594ff87ec2249754ee0ae8dd98814ab8fde07ca/04db240379dceee87d45726e93c2e92de5f7fef17c31e1adbef28ca218d4",
    ),
    (
        "/n-",
        "/9271e571fe533e548a6a8370c4452a3294a2e490eb6e22a276b5339abebb",
    ),
    (
        "/a/..",
        "/a8a6003f2e1d1454a606ec55a44e776c7e0ed81bb2329ff66131bb291b/b8dd83ce0cc1a448011f08167afedee78b2b127522d5decf9844c83bbe9c",
    ),
    (
        "/a/",
        "/a8a6003f2e1d1454a606ec55a44e776c7e0ed81bb2329ff66131bb291b/ebd429264a7f10a422f2f558ce1fd00a4aa6c2ece3eee93b60870d2a",
    ),
];

// The same text with one digit in upper case.
const UPPER: &str =
    "/A8a6003f2e1d1454a606ec55a44e776c7e0ed81bb2329ff66131bb291b/7259a8d3ee8f5c4a59fdeebe8e1e6217ee6b45e9b115897101e9bed716";

#[test]
fn paths_are_sealed_as_elsewhere_and_opened(rt: HostRuntime) -> Result<(), Fail> {
    let alloc = rt.alloc();
    for (plain, expected) in PATHS {
        assert!(rt; plain.len() < 32 && expected.len() < 256);
        let path = read_path(alloc, plain)?;
        assert!(rt; path.text().len() < 32);
        let sealed = seal_path(alloc, &keys(), &path)?;
        assert!(rt; sealed.as_str() == expected);
        let opened = open_path(alloc, &keys(), expected)?.ok_or("not opened")?;
        assert!(rt; opened.text() == plain);
    }
    Ok(())
}

#[test]
fn stems_are_sealed_as_elsewhere_and_opened(rt: HostRuntime) -> Result<(), Fail> {
    let alloc = rt.alloc();
    for (plain, expected) in STEMS {
        assert!(rt; plain.len() < 32 && expected.len() < 256);
        let stem = read_stem(alloc, plain)?;
        assert!(rt; stem.text().len() < 32);
        let sealed = seal_path(alloc, &keys(), &stem)?;
        assert!(rt; sealed.as_str() == expected);
        let opened = open_stem(alloc, &keys(), expected)?.ok_or("not opened")?;
        assert!(rt; opened.text() == plain);
    }
    Ok(())
}

#[test]
fn upper_case_and_the_root_as_a_stem_do_not_open(rt: HostRuntime) -> Result<(), Fail> {
    let alloc = rt.alloc();
    assert!(rt; open_path(alloc, &keys(), UPPER)?.is_none());
    assert!(rt; open_stem(alloc, &keys(), UPPER)?.is_none());
    assert!(rt; open_stem(alloc, &keys(), "/")?.is_none());
    Ok(())
}

#[test]
fn names_are_sealed_under_their_parents(rt: HostRuntime) -> Result<(), Fail> {
    let alloc = rt.alloc();
    let root = Path::root(alloc);
    let parent = read_path(alloc, "/a")?;
    assert!(rt; root.text().len() < 32 && parent.text().len() < 32);
    let top = seal_name(alloc, &keys(), &root, "a")?;
    let below = seal_name(alloc, &keys(), &parent, "a")?;
    assert!(rt; top.as_str() == "a8a6003f2e1d1454a606ec55a44e776c7e0ed81bb2329ff66131bb291b");
    assert!(rt; below.as_str() == "7259a8d3ee8f5c4a59fdeebe8e1e6217ee6b45e9b115897101e9bed716");
    assert!(rt; below.len() < 256);
    let opened = open_name(alloc, &keys(), &parent, below.as_str())?.ok_or("not opened")?;
    assert!(rt; opened.as_str() == "a");
    assert!(rt; open_name(alloc, &keys(), &root, below.as_str())?.is_none());
    Ok(())
}

// The path /c0/c1/ and so on, to c99.
fn hundred_components(alloc: Global) -> Result<String, AllocError> {
    let mut plain = String::new(alloc);
    for n in 0..100 {
        let name = format!(in alloc; "/c{n}")?;
        plain.push_str(name.as_str())?;
    }
    Ok(plain)
}

// The path /a/a/ and so on, of two thousand components.
fn two_thousand_components(alloc: Global) -> Result<String, AllocError> {
    let mut plain = String::new(alloc);
    for _ in 0..2000 {
        plain.push_str("/a")?;
    }
    Ok(plain)
}

// One component of a thousand bytes.
fn thousand_bytes(alloc: Global) -> Result<String, AllocError> {
    let mut plain = String::from_str(alloc, "/")?;
    for _ in 0..1000 {
        plain.push('z')?;
    }
    Ok(plain)
}

#[test]
fn long_paths_are_sealed_as_elsewhere_and_opened(rt: HostRuntime) -> Result<(), Fail> {
    let alloc = rt.alloc();
    let table = [
        (
            hundred_components(alloc)?,
            6280,
            "a9aef109df1d851e9f4fdc302c7c69642749fe7757ca81aecf4a1ac401dec64f",
        ),
        (
            thousand_bytes(alloc)?,
            2057,
            "7662e27ca655e0c2993e8d12e9c7d5fabadc794e65f4b6b4bbf594a9d10d5b64",
        ),
        (
            two_thousand_components(alloc)?,
            118_000,
            "623e14e7b2d5368a166093c786bba5cd4f31a670adeee3d0e248be6ae0d4a6c0",
        ),
    ];
    for (plain, length, digest) in table {
        assert!(rt; plain.len() < 8192);
        let path = read_path(alloc, plain.as_str())?;
        assert!(rt; path.text().len() < 8192);
        let sealed = seal_path(alloc, &keys(), &path)?;
        assert!(rt; sealed.len() == length && sealed.len() < 131_072);
        let shown = hex::encode(alloc, Sha256::digest(sealed.as_str()))?;
        assert!(rt; shown.as_str() == digest);
        let opened = open_path(alloc, &keys(), sealed.as_str())?.ok_or("not opened")?;
        assert!(rt; opened.text() == plain.as_str());
    }
    Ok(())
}
