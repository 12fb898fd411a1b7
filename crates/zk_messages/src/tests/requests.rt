//! Requests, read and written back.

use super::back::request_back;
use super::frames::{C, JAVA, KAZOO};
use crate::{Kind, OpKind, Request};
use std::test::Fail;

#[test]
fn requests_of_clients_are_read_and_written_back(rt: HostRuntime) -> Result<(), Fail> {
    let mut bodies = Vec::new(rt.alloc());
    bodies.extend_from_slice(&KAZOO)?;
    bodies.extend_from_slice(&C)?;
    bodies.extend_from_slice(&JAVA)?;
    assert_eq!(rt; bodies.len(), 59);
    for (kind, xid, body) in bodies {
        assert!(rt; body.len() < 200);
        let (found, request, into) = request_back(rt.alloc(), body)?;
        assert_eq!(rt; (found, request.kind()), (xid, Some(kind)), "{body:?}");
        assert_eq!(rt; into.as_slice(), body);
    }
    Ok(())
}

// exists and closeSession of a first run; a create and a getData; a multi that fails; setACL and
// create2, alone and in a multi, which no client here sends.
#[test]
fn requests_by_hand_are_read_and_written_back(rt: HostRuntime) -> Result<(), Fail> {
    let table: [(Kind, i32, &[u8]); 10] = [
        (Kind::Exists, 1, b"\0\0\0\x01\0\0\0\x03\0\0\0\x01/\0"),
        (Kind::Close, 2, b"\0\0\0\x02\xff\xff\xff\xf5"),
        (
            Kind::Create,
            1,
            b"\0\0\0\x01\0\0\0\x01\0\0\0\x04/app\0\0\0\x05hello\
                \0\0\0\x01\0\0\0\x1f\0\0\0\x05world\0\0\0\x06anyone\0\0\0\0",
        ),
        (Kind::GetContent, 2, b"\0\0\0\x02\0\0\0\x04\0\0\0\x04/app\0"),
        (
            Kind::Create,
            1,
            b"\0\0\0\x01\0\0\0\x01\0\0\0\x02/a\xff\xff\xff\xff\
                \0\0\0\x01\0\0\0\x1f\0\0\0\x05world\0\0\0\x06anyone\0\0\0\0",
        ),
        (
            Kind::Multi,
            2,
            b"\0\0\0\x02\0\0\0\x0e\0\0\0\x01\0\xff\xff\xff\xff\0\0\0\x02/b\0\0\0\0\
                \0\0\0\x01\0\0\0\x1f\0\0\0\x05world\0\0\0\x06anyone\0\0\0\0\
                \0\0\0\x05\0\xff\xff\xff\xff\0\0\0\x02/a\0\0\0\0\0\0\0\x05\
                \0\0\0\x02\0\xff\xff\xff\xff\0\0\0\x02/a\xff\xff\xff\xff\
                \xff\xff\xff\xff\x01\xff\xff\xff\xff",
        ),
        (
            Kind::Multi,
            7,
            b"\0\0\0\x07\0\0\0\x0e\xff\xff\xff\xff\x01\xff\xff\xff\xff",
        ),
        (
            Kind::SetAcl,
            3,
            b"\0\0\0\x03\0\0\0\x07\0\0\0\x02/a\
                \0\0\0\x01\0\0\0\x1f\0\0\0\x05world\0\0\0\x06anyone\xff\xff\xff\xff",
        ),
        (
            Kind::Create2,
            1,
            b"\0\0\0\x01\0\0\0\x0f\0\0\0\x04/app\0\0\0\x05hello\
                \0\0\0\x01\0\0\0\x1f\0\0\0\x05world\0\0\0\x06anyone\0\0\0\0",
        ),
        (
            Kind::Multi,
            2,
            b"\0\0\0\x02\0\0\0\x0e\0\0\0\x0f\0\xff\xff\xff\xff\0\0\0\x02/b\xff\xff\xff\xff\
                \0\0\0\x01\0\0\0\x1f\0\0\0\x05world\0\0\0\x06anyone\0\0\0\0\
                \0\0\0\x0d\0\xff\xff\xff\xff\0\0\0\x02/b\0\0\0\0\
                \xff\xff\xff\xff\x01\xff\xff\xff\xff",
        ),
    ];
    for (kind, xid, body) in table {
        assert!(rt; body.len() < 200);
        let (found, request, into) = request_back(rt.alloc(), body)?;
        assert_eq!(rt; (found, request.kind()), (xid, Some(kind)), "{body:?}");
        assert_eq!(rt; into.as_slice(), body);
    }
    Ok(())
}

fn op_kind(request: &Request, index: usize) -> Option<OpKind> {
    match request {
        Request::Multi(ops) => ops.get(index).map(|op| op.kind()),
        _ => None,
    }
}

#[test]
fn a_multi_of_a_client_has_its_operations_in_order(rt: HostRuntime) -> Result<(), Fail> {
    let (_, _, body) = KAZOO[12];
    assert!(rt; body.len() < 200);
    let (_, request, _) = request_back(rt.alloc(), body)?;
    let table = [
        (0, Some(OpKind::Check)),
        (1, Some(OpKind::SetContent)),
        (2, Some(OpKind::Create)),
        (3, Some(OpKind::Delete)),
        (4, None),
    ];
    for (index, kind) in table {
        assert_eq!(rt; op_kind(&request, index), kind);
    }
    Ok(())
}

// Type 999, and auth: the body is kept as it is, and may be empty.
#[test]
fn bodies_that_are_not_read_are_kept(rt: HostRuntime) -> Result<(), Fail> {
    let table: [(Option<Kind>, i32, &[u8]); 4] = [
        (None, 2, b"\0\0\0\x02\0\0\x03\xe7abc"),
        (None, 2, b"\0\0\0\x02\0\0\x03\xe7"),
        (Some(Kind::Auth), -4, b"\xff\xff\xff\xfc\0\0\0\x64\0\0\0\0"),
        (Some(Kind::Auth), 5, b"\0\0\0\x05\0\0\0\x64"),
    ];
    for (kind, xid, body) in table {
        assert!(rt; body.len() < 200);
        let (found, request, into) = request_back(rt.alloc(), body)?;
        assert_eq!(rt; (found, request.kind()), (xid, kind), "{body:?}");
        let (_, rest) = body.split_at(8);
        let kept = match &request {
            Request::Auth(body) => body.as_slice() == rest,
            Request::Unknown { kind, body } => *kind == 999 && body.as_slice() == rest,
            _ => false,
        };
        assert!(rt; kept, "{body:?}");
        assert_eq!(rt; into.as_slice(), body);
    }
    Ok(())
}
