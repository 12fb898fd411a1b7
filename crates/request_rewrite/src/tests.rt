//! Sealed forms that other programs give for the key file 00 to 3f, boot 0 and connection 1; the last IV; each type of
//! request once with ample memory; and the worst growth.

ghost use Rattle.std.specs.Prelude.{IfOk, IsTrue};
ghost use Rattle.zk_records.specs.Acls.{AreShortAcls};
ghost use Rattle.zk_messages.specs.Short.{HasShortParts};

use super::*;
use payload_seal::{IvSource, read_keys};
use request_queue::{Asked, Pending};
use std::alloc::Global;
use std::test::Fail;
use zk_messages::{Request, read_request, short_when_read, write_request};
use zk_records::{Acls, CreateRequest};

const FILE: [u8; 64] = [
    0, 1, 2, 3, 4, 5, 6, 7, 8, 9, 10, 11, 12, 13, 14, 15, 16, 17, 18, 19, 20, 21, 22, 23, 24, 25,
    26, 27, 28, 29, 30, 31, 32, 33, 34, 35, 36, 37, 38, 39, 40, 41, 42, 43, 44, 45, 46, 47, 48, 49,
    50, 51, 52, 53, 54, 55, 56, 57, 58, 59, 60, 61, 62, 63,
];

// create "/app" with "hello", and what its path and its content are sealed to.
const CREATE_APP: &str =
    "0000000100000001000000042f6170700000000568656c6c6f000000010000001f00000005776f726c6400000006616e796f6e6500000000";

const SEALED_APP: &str = "/fe4506f06cc3efab7cb19ac1dbcadd8ac5ebcd31cd575fa57ce33a0f2094fe";

const HELLO: &str =
    "0000000000000001000000009bb332b6446a4226dcc6d3c194c4982ca239c3d518f7f01d682d2f5c3533d15e3e2190748156a742a6e20d6f4d0807b2932c613c24f9";

// The whole body that the store is handed for it.
const VEILED_APP: &str =
    "00000001000000010000003f2f6665343530366630366363336566616237636231396163316462636164643861633565626364333163643537356661353763653333613066323039346665000000420000000000000001000000009bb332b6446a4226dcc6d3c194c4982ca239c3d518f7f01d682d2f5c3533d15e3e2190748156a742a6e20d6f4d0807b2932c613c24f9000000010000001f00000005776f726c6400000006616e796f6e6500000000";

// create "/q/n-" with "one", sequential and ephemeral.
const CREATE_STEM: &str =
    "0000000100000001000000052f712f6e2d000000036f6e65000000010000001f00000005776f726c6400000006616e796f6e6500000003";

// The same as a create2.
const CREATE2_STEM: &str =
    "000000010000000f000000052f712f6e2d000000036f6e65000000010000001f00000005776f726c6400000006616e796f6e6500000003";

const SEALED_STEM: &str =
    "/32c8bcbdfdc48170ded594ff87ec2249754ee0ae8dd98814ab8fde07ca/04db240379dceee87d45726e93c2e92de5f7fef17c31e1adbef28ca218d4";

const ONE: &str =
    "0000000000000001000000009a4702209d2f41664a4ca9ae5104b79f75739a3e753fdb05e2dda7d7bd5d1fbd10269b7d4e5679e5d034dfec1b49db0bf1a7cf8d";

// A multi of two creates.
const TWO_CREATES: &str =
    "000000020000000e0000000100ffffffff000000022f610000000131000000010000001f00000005776f726c6400000006616e796f6e65000000000000000100ffffffff000000022f620000000132000000010000001f00000005776f726c6400000006616e796f6e6500000000ffffffff01ffffffff";

// exists of a path of 40 names of one byte.
const DEEP: &str =
    "0000000100000003000000502f612f612f612f612f612f612f612f612f612f612f612f612f612f612f612f612f612f612f612f612f612f612f612f612f612f612f612f612f612f612f612f612f612f612f612f612f612f612f612f6100";

// One of each type, and how many payloads it has.
const EACH_TYPE: [(&str, u8); 15] = [
    (
        "0000000100000001000000042f6170700000000568656c6c6f000000010000001f00000005776f726c6400000006616e796f6e6500000000",
        1,
    ),
    ("0000000100000002000000022f61ffffffff", 0),
    ("0000000100000003000000022f6101", 0),
    ("0000000100000004000000022f6100", 0),
    ("0000000100000005000000022f610000000178ffffffff", 1),
    ("0000000100000006000000022f61", 0),
    (
        "0000000100000007000000022f61000000010000001f00000005776f726c6400000006616e796f6e65ffffffff",
        0,
    ),
    ("0000000100000008000000022f6101", 0),
    ("0000000100000009000000022f61", 0),
    ("fffffffe0000000b", 0),
    ("000000010000000c000000022f6100", 0),
    (
        "000000020000000e0000000100ffffffff000000022f6200000000000000010000001f00000005776f726c6400000006616e796f6e65000000000000000f00ffffffff000000022f6300000000000000010000001f00000005776f726c6400000006616e796f6e65000000000000000500ffffffff000000022f6100000000000000050000000200ffffffff000000022f61ffffffffffffffff01ffffffff",
        3,
    ),
    (
        "000000010000000f000000042f6170700000000568656c6c6f000000010000001f00000005776f726c6400000006616e796f6e6500000000",
        1,
    ),
    (
        "fffffff800000065000000000000000200000001000000022f610000000000000000",
        0,
    ),
    ("00000002fffffff5", 0),
];

fn request_in(alloc: Global, body: &str) -> Result<Request, Fail>
    ensures { IfOk result HasShortParts }
{
    let body = hex::decode(alloc, body)?;
    if body.len() > 1000 {
        return Err("a long body".into());
    }
    short_when_read();
    let (_, request) = read_request(alloc, body.as_slice()).map_err(|_| "no request")?;
    Ok(request)
}

// Under the first IVs of the connection.
fn first_form(alloc: Global, body: &str) -> Result<(Request, Pending), Fail> {
    let keys = read_keys(&FILE)?;
    let mut ivs = IvSource::new(keys.payloads.epoch(), 0, 1);
    let request = request_in(alloc, body)?;
    Ok(veil_request(alloc, &keys, &mut ivs, 7, 56, request)?)
}

fn is_create(veiled: &Request, sealed: &str, payload: &[u8], flags: i32) -> bool {
    match veiled {
        Request::Create(create) => is_sealed(create, sealed, payload, flags),
        _ => false,
    }
}

fn is_create2(veiled: &Request, sealed: &str, payload: &[u8], flags: i32) -> bool {
    match veiled {
        Request::Create2(create) => is_sealed(create, sealed, payload, flags),
        _ => false,
    }
}

fn is_sealed(create: &CreateRequest, sealed: &str, payload: &[u8], flags: i32) -> bool {
    let Some(content) = &create.content else {
        return false;
    };
    create.path.as_str() == sealed && content.as_slice() == payload && create.flags == flags
}

fn asks_create(pending: &Pending, plain: &str, stem: bool) -> bool {
    match &pending.asked {
        Asked::Create { path, sequential } => path.text() == plain && *sequential == stem,
        _ => false,
    }
}

fn are_short(acls: &Acls) -> bool
    ensures { IsTrue result → AreShortAcls acls.now }
{
    let mut texts = acls.as_slice().iter();
    acls.len() < 10 && texts.all(|acl| acl.scheme.len() < 100 && acl.id.len() < 100)
}

// The body that spells a create of short parts with the xid 1.
fn body_of(alloc: Global, create: CreateRequest) -> Result<Vec<u8>, Fail> {
    let are_short = match (&create.content, &create.acls) {
        (Some(content), Some(acls)) => content.len() < 1000 && are_short(acls),
        _ => false,
    };
    if create.path.len() >= 1000 || !are_short {
        return Err("no short create".into());
    }
    let mut body = Vec::new(alloc);
    write_request(1, &Request::Create(create), &mut body)?;
    Ok(body)
}

// 56 bytes become 176: 47, and 63 and 66 that are sealed.
#[test]
fn a_create_is_written_out_as_elsewhere(rt: HostRuntime) -> Result<(), Fail> {
    let alloc = rt.alloc();
    let (veiled, _) = first_form(alloc, CREATE_APP)?;
    let Request::Create(create) = veiled else {
        return Err("no create".into());
    };
    let body = body_of(alloc, create)?;
    assert_eq!(rt; body.len(), 176);
    assert!(rt; body == hex::decode(alloc, VEILED_APP)?);
    Ok(())
}

#[test]
fn a_create_is_sealed_as_elsewhere(rt: HostRuntime) -> Result<(), Fail> {
    let payload = hex::decode(rt.alloc(), HELLO)?;
    let (veiled, pending) = first_form(rt.alloc(), CREATE_APP)?;
    let is_sealed = is_create(&veiled, SEALED_APP, payload.as_slice(), 0);
    let is_asked = asks_create(&pending, "/app", false);
    assert!(rt; is_sealed && is_asked && pending.xid == 7 && pending.bytes == 56);
    Ok(())
}

#[test]
fn a_sequential_create_is_sealed_for_its_stem(rt: HostRuntime) -> Result<(), Fail> {
    let payload = hex::decode(rt.alloc(), ONE)?;
    let (veiled, pending) = first_form(rt.alloc(), CREATE_STEM)?;
    let is_sealed = is_create(&veiled, SEALED_STEM, payload.as_slice(), 3);
    let is_asked = asks_create(&pending, "/q/n-", true);
    assert!(rt; is_sealed && is_asked);
    Ok(())
}

#[test]
fn a_sequential_create2_is_sealed_as_a_create(rt: HostRuntime) -> Result<(), Fail> {
    let payload = hex::decode(rt.alloc(), ONE)?;
    let (veiled, pending) = first_form(rt.alloc(), CREATE2_STEM)?;
    assert!(rt; is_create2(&veiled, SEALED_STEM, payload.as_slice(), 3));
    assert!(rt;
        matches!(&pending.asked, Asked::Create2 { path, sequential: true } if path.text() == "/q/n-")
    );
    Ok(())
}

#[test]
fn the_last_iv_seals_one_create_and_not_two(rt: HostRuntime) -> Result<(), Fail> {
    let alloc = rt.alloc();
    let keys = read_keys(&FILE)?;
    let mut ivs = IvSource::starting(keys.payloads.epoch(), 0, 1, 4_294_967_295);
    let two = request_in(alloc, TWO_CREATES)?;
    let spent = veil_request(alloc, &keys, &mut ivs, 1, 99, two).err();
    assert_eq!(rt; spent, Some(NotVeiled::Spent));
    assert_eq!(rt; ivs.left(), 1);
    let one = request_in(alloc, CREATE_APP)?;
    assert!(rt; veil_request(alloc, &keys, &mut ivs, 2, 56, one).is_ok());
    assert_eq!(rt; ivs.left(), 0);
    Ok(())
}

#[test]
fn each_type_is_veiled(rt: HostRuntime) -> Result<(), Fail> {
    let alloc = rt.alloc();
    let keys = read_keys(&FILE)?;
    for (body, payloads) in EACH_TYPE {
        let mut ivs = IvSource::new(keys.payloads.epoch(), 0, 1);
        let request = request_in(alloc, body)?;
        let kind = request.kind();
        let (veiled, pending) = veil_request(alloc, &keys, &mut ivs, 3, 99, request)?;
        assert!(rt; veiled.kind() == kind);
        assert!(rt; !matches!(&pending.asked, Asked::Refused { .. }));
        assert_eq!(rt; ivs.left(), 4_294_967_296 - u64::from(payloads));
    }
    Ok(())
}

// The worst growth: 59 bytes for each two.
#[test]
fn names_of_one_byte_grow_most(rt: HostRuntime) -> Result<(), Fail> {
    let (veiled, _) = first_form(rt.alloc(), DEEP)?;
    assert!(rt; matches!(&veiled, Request::Exists(request) if request.path.len() == 2360));
    Ok(())
}
