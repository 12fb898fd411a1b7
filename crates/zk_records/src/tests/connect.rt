//! Connect frames of real clients, and connect records spelled by hand.

use crate::{ConnectRequest, ConnectResponse, read_connect, read_connected};
use jute_core::{Bytes, NotRead, Reason, Refusal};
use std::test::Fail;

// What kazoo 2.8, and the C and Java clients of ZooKeeper 3.8, send first, all three the same
// bytes: protocol 0, seen 0, timeout 4000, session 0, a password of 16 zero bytes, read_only false.
// Without the last byte it is the older form.
const CONNECT: &[u8] =
    b"\0\0\0\0\0\0\0\0\0\0\0\0\0\0\x0f\xa0\0\0\0\0\0\0\0\0\0\0\0\x10\0\0\0\0\0\0\0\0\0\0\0\0\0\0\0\0\0";

// A response: protocol 0, timeout 4000, session 7, the password "ab", read_only true.
const CONNECTED: &[u8] = b"\0\0\0\0\0\0\x0f\xa0\0\0\0\0\0\0\0\x07\0\0\0\x02ab\x01";

fn is_first_connect(request: &ConnectRequest, read_only: Option<bool>) -> bool {
    request.protocol == 0
        && request.seen == 0
        && request.timeout == 4000
        && request.session == 0
        && request.read_only == read_only
        && request
            .password
            .as_ref()
            .is_some_and(|p| p.as_slice() == [0u8; 16].as_slice())
}

#[test]
fn connect_frames_of_clients_are_read_and_written_back(rt: HostRuntime) -> Result<(), Fail> {
    let (older, _) = CONNECT.split_at(44);
    for (body, read_only) in [(CONNECT, Some(false)), (older, None)] {
        assert!(rt; body.len() < 100);
        let request = read_connect(rt.alloc(), body)?;
        assert!(rt; is_first_connect(&request, read_only));
        let mut into = Vec::new(rt.alloc());
        assert!(rt; request.password.as_ref().is_some_and(|p| p.len() == 16));
        request.write(&mut into)?;
        assert_eq!(rt; into.as_slice(), body);
    }
    Ok(())
}

#[test]
fn a_reconnect_with_a_null_password_is_written_in_order(rt: HostRuntime) -> Result<(), Fail> {
    let body: &[u8] =
        b"\0\0\0\x01\0\0\0\0\0\0\0\x02\0\0\0\x03\0\0\0\0\0\0\0\x04\xff\xff\xff\xff\x01";
    let request = read_connect(rt.alloc(), body)?;
    assert_eq!(rt; (request.protocol, request.seen), (1, 2));
    assert_eq!(rt; (request.timeout, request.session), (3, 4));
    assert_eq!(rt; request.read_only, Some(true));
    assert!(rt; request.password.is_none());
    let request = ConnectRequest {
        protocol: 1,
        seen: 2,
        timeout: 3,
        session: 4,
        password: None,
        read_only: Some(true),
    };
    let mut into = Vec::new(rt.alloc());
    request.write(&mut into)?;
    assert_eq!(rt; into.as_slice(), body);
    Ok(())
}

#[test]
fn a_response_is_written_back_in_both_forms(rt: HostRuntime) -> Result<(), Fail> {
    let (older, _) = CONNECTED.split_at(22);
    for (body, short, read_only) in [(CONNECTED, false, Some(true)), (older, true, None)] {
        assert!(rt; body.len() < 100);
        let given = read_connected(rt.alloc(), short, body)?;
        assert_eq!(rt;
            (given.protocol, given.timeout, given.session),
            (0, 4000, 7)
        );
        assert_eq!(rt; given.read_only, read_only);
        assert!(rt;
            given
                .password
                .is_some_and(|p| p.as_slice() == b"ab".as_slice())
        );
        let given = ConnectResponse {
            protocol: 0,
            timeout: 4000,
            session: 7,
            password: Some(Bytes::copy_of(rt.alloc(), b"ab")?),
            read_only,
        };
        let mut into = Vec::new(rt.alloc());
        given.write(&mut into)?;
        assert_eq!(rt; into.as_slice(), body);
    }
    Ok(())
}

// The older form of an answer ends where the newer one goes on, so each is refused as the other.
#[test]
fn a_response_in_the_other_form_is_refused(rt: HostRuntime) {
    let (older, _) = CONNECTED.split_at(22);
    let table = [
        (CONNECTED, true, Reason::Trailing),
        (older, false, Reason::Short),
    ];
    for (body, short, reason) in table {
        assert!(rt; body.len() < 100);
        let refusal = Refusal { place: 22, reason };
        assert_eq!(rt;
            read_connected(rt.alloc(), short, body).err(),
            Some(NotRead::Refused(refusal))
        );
    }
}

#[test]
fn refuses_a_request_at_its_first_bad_field(rt: HostRuntime) {
    let table: [(&[u8], u32, Reason); 10] = [
        (b"\0\0\0", 0, Reason::Short),
        (b"\0\0\0\0\0\0\0\0\0\0\0", 4, Reason::Short),
        (b"\0\0\0\0\0\0\0\0\0\0\0\0\0\0\x0f", 12, Reason::Short),
        (b"\0\0\0\0\0\0\0\0\0\0\0\0\0\0\x0f\xa0\0", 16, Reason::Short),
        (
            b"\0\0\0\0\0\0\0\0\0\0\0\0\0\0\x0f\xa0\0\0\0\0\0\0\0\0\0\0\0",
            24,
            Reason::Short,
        ),
        (
            b"\0\0\0\0\0\0\0\0\0\0\0\0\0\0\x0f\xa0\0\0\0\0\0\0\0\0\0\0\0\x02a",
            28,
            Reason::Short,
        ),
        (
            b"\0\0\0\0\0\0\0\0\0\0\0\0\0\0\x0f\xa0\0\0\0\0\0\0\0\0\xff\xff\xff\xfe",
            24,
            Reason::BadLength,
        ),
        (
            b"\0\0\0\0\0\0\0\0\0\0\0\0\0\0\x0f\xa0\0\0\0\0\0\0\0\0\xff\xff\xff\xff\x02",
            28,
            Reason::BadBool,
        ),
        (
            b"\0\0\0\0\0\0\0\0\0\0\0\0\0\0\x0f\xa0\0\0\0\0\0\0\0\0\xff\xff\xff\xff\x01\0",
            29,
            Reason::Trailing,
        ),
        (
            b"\0\0\0\0\0\0\0\0\0\0\0\0\0\0\x0f\xa0\0\0\0\0\0\0\0\0\0\0\0\x02ab\x01\0",
            31,
            Reason::Trailing,
        ),
    ];
    for (body, place, reason) in table {
        assert!(rt; body.len() < 100);
        let refusal = read_connect(rt.alloc(), body).err();
        assert_eq!(rt;
            refusal,
            Some(NotRead::Refused(Refusal { place, reason })),
            "{body:?}"
        );
    }
}

#[test]
fn refuses_a_response_at_its_first_bad_field(rt: HostRuntime) {
    let table: [(bool, &[u8], u32, Reason); 10] = [
        (true, b"\0\0\0", 0, Reason::Short),
        (true, b"\0\0\0\0\0\0\x0f", 4, Reason::Short),
        (
            true,
            b"\0\0\0\0\0\0\x0f\xa0\0\0\0\0\0\0\0",
            8,
            Reason::Short,
        ),
        (
            true,
            b"\0\0\0\0\0\0\x0f\xa0\0\0\0\0\0\0\0\x07\0\0\0",
            16,
            Reason::Short,
        ),
        (
            true,
            b"\0\0\0\0\0\0\x0f\xa0\0\0\0\0\0\0\0\x07\0\0\0\x02a",
            20,
            Reason::Short,
        ),
        (
            true,
            b"\0\0\0\0\0\0\x0f\xa0\0\0\0\0\0\0\0\x07\xff\xff\xff\xfe",
            16,
            Reason::BadLength,
        ),
        (
            true,
            b"\0\0\0\0\0\0\x0f\xa0\0\0\0\0\0\0\0\x07\xff\xff\xff\xff\0",
            20,
            Reason::Trailing,
        ),
        (
            false,
            b"\0\0\0\0\0\0\x0f\xa0\0\0\0\0\0\0\0\x07\xff\xff\xff\xff",
            20,
            Reason::Short,
        ),
        (
            false,
            b"\0\0\0\0\0\0\x0f\xa0\0\0\0\0\0\0\0\x07\xff\xff\xff\xff\x02",
            20,
            Reason::BadBool,
        ),
        (
            false,
            b"\0\0\0\0\0\0\x0f\xa0\0\0\0\0\0\0\0\x07\xff\xff\xff\xff\0\0",
            21,
            Reason::Trailing,
        ),
    ];
    for (short, body, place, reason) in table {
        assert!(rt; body.len() < 100);
        let refusal = read_connected(rt.alloc(), short, body).err();
        assert_eq!(rt;
            refusal,
            Some(NotRead::Refused(Refusal { place, reason })),
            "{body:?}"
        );
    }
}
