//! Names that other programs give for the key 00 to 0f and the salt 20 to 3f.

ghost use Rattle.std.specs.Prelude.{pos, ◌≤ℤ◌, ◌≤◌, length};

use super::*;
use jute_core::Text;
use path_seal::{NameKeys, seal_path};
use std::alloc::Global;
use std::test::Fail;
use zk_path::{CannotNumber, Numberer, read_path};

fn keys() -> NameKeys {
    NameKeys::new(
        [0, 1, 2, 3, 4, 5, 6, 7, 8, 9, 10, 11, 12, 13, 14, 15],
        [
            32, 33, 34, 35, 36, 37, 38, 39, 40, 41, 42, 43, 44, 45, 46, 47, 48, 49, 50, 51, 52, 53,
            54, 55, 56, 57, 58, 59, 60, 61, 62, 63,
        ],
    )
}

// The stems `/n-` and `/q/n-`, each with a number and its name.
const NAMES: [(&str, i32, &str); 2] = [
    (
        "/9271e571fe533e548a6a8370c4452a3294a2e490eb6e22a276b5339abebb",
        0,
        "/b2e1c4e898d858a7e80afd835570700d80c9f8d83edeeeaceac3b891451705c92482dba5869e53bc",
    ),
    (
        "/32c8bcbdfdc48170ded594ff87ec2249754ee0ae8dd98814ab8fde07ca/04db240379dceee87d45726e93c2e92de5f7fef17c31e1adbef28ca218d4",
        1,
        "/32c8bcbdfdc48170ded594ff87ec2249754ee0ae8dd98814ab8fde07ca/a0854f08f75ce9249636bab1493b9b1ec6ad37350677e13a6b61dbef20fda51eb6fc4cf9d629949c",
    ),
];

fn numbered<N: Numberer>(
    alloc: Global,
    numberer: &mut N,
    stem: &str,
    number: i32,
) -> Result<Text, CannotNumber>
    requires not_negative { pos 0 ≤ℤ number }
    requires short { length stem.now ≤ 134217728 }
{
    numberer.number(alloc, stem, number)
}

#[test]
fn sealed_stems_are_numbered_as_elsewhere(rt: HostRuntime) -> Result<(), Fail> {
    let mut enclave = CounterEnclave::new(keys());
    for (stem, number, expected) in NAMES {
        assert!(rt; stem.len() < 256 && number >= 0);
        let name = numbered(rt.alloc(), &mut enclave, stem, number)?;
        assert!(rt; name.as_str() == expected);
    }
    assert_eq!(rt; enclave.issued(), 2);
    Ok(())
}

#[test]
fn a_plain_stem_is_not_numbered(rt: HostRuntime) {
    let mut enclave = CounterEnclave::new(keys());
    let name = enclave.number(rt.alloc(), "/n-", 0);
    assert!(rt; matches!(name, Err(CannotNumber::CannotOpen)));
    assert_eq!(rt; enclave.issued(), 0);
}

#[test]
fn the_number_alone_stands_under_the_root(rt: HostRuntime) -> Result<(), Fail> {
    let alloc = rt.alloc();
    let mut enclave = CounterEnclave::new(keys());
    let stem = "/1f0a1e6581f42efd79fffb9488aa96d787e46fb63d1ed83bc929778a";
    let name = enclave.number(alloc, stem, 2_147_483_647)?;
    let path = read_path(alloc, "/2147483647")?;
    assert!(rt; path.text().len() < 32);
    let expected = seal_path(alloc, &keys(), &path)?;
    assert!(rt; name.as_str() == expected.as_str());
    Ok(())
}
