//! Which requests are refused before a store sees them, and with which code.

use super::back::refusal_back;
use super::frames::{C, JAVA, KAZOO};
use std::test::Fail;

#[test]
fn no_request_of_a_client_is_refused(rt: HostRuntime) -> Result<(), Fail> {
    let mut bodies = Vec::new(rt.alloc());
    bodies.extend_from_slice(&KAZOO)?;
    bodies.extend_from_slice(&C)?;
    bodies.extend_from_slice(&JAVA)?;
    for (_, _, body) in bodies {
        assert!(rt; body.len() < 200);
        assert_eq!(rt; refusal_back(rt.alloc(), body)?, None, "{body:?}");
    }
    Ok(())
}

#[test]
fn a_type_or_a_path_is_refused(rt: HostRuntime) -> Result<(), Fail> {
    let table: [(&[u8], Option<i32>); 12] = [
        // auth, and type 999, whatever follows
        (b"\xff\xff\xff\xfc\0\0\0\x64\0\0", Some(-115)),
        (b"\0\0\0\x01\0\0\x03\xe7/", Some(-6)),
        // exists of an illegal path, and of the root
        (b"\0\0\0\x01\0\0\0\x03\0\0\0\x03/a/\0", Some(-8)),
        (b"\0\0\0\x01\0\0\0\x03\0\0\0\x01/\0", None),
        // getData, setData and delete of the root
        (b"\0\0\0\x01\0\0\0\x04\0\0\0\x01/\0", Some(-8)),
        (
            b"\0\0\0\x01\0\0\0\x05\0\0\0\x01/\0\0\0\0\xff\xff\xff\xff",
            Some(-8),
        ),
        (b"\0\0\0\x01\0\0\0\x02\0\0\0\x01/\xff\xff\xff\xff", Some(-8)),
        // getChildren, getACL and sync of the root
        (b"\0\0\0\x01\0\0\0\x08\0\0\0\x01/\x01", None),
        (b"\0\0\0\x01\0\0\0\x06\0\0\0\x01/", None),
        (b"\0\0\0\x01\0\0\0\x09\0\0\0\x01/", None),
        // setWatches whose second list has an illegal path, and one whose lists are null
        (
            b"\0\0\0\x01\0\0\0\x65\0\0\0\0\0\0\0\0\0\0\0\x01\0\0\0\x02/a\0\0\0\x01\0\0\0\x01a\0\0\0\0",
            Some(-8),
        ),
        (
            b"\0\0\0\x01\0\0\0\x65\0\0\0\0\0\0\0\0\xff\xff\xff\xff\xff\xff\xff\xff\xff\xff\xff\xff",
            None,
        ),
    ];
    for (body, code) in table {
        assert!(rt; body.len() < 200);
        assert_eq!(rt; refusal_back(rt.alloc(), body)?, code, "{body:?}");
    }
    Ok(())
}

#[test]
fn a_create_is_refused_by_its_name_flags_and_acls(rt: HostRuntime) -> Result<(), Fail> {
    let table: [(&[u8], Option<i32>); 8] = [
        // the root; as a stem; an illegal stem
        (
            b"\0\0\0\x01\0\0\0\x01\0\0\0\x01/\0\0\0\0\0\0\0\x01\0\0\0\x1f\0\0\0\x05world\0\0\0\x06anyone\0\0\0\x01",
            Some(-8),
        ),
        (
            b"\0\0\0\x01\0\0\0\x01\0\0\0\x01/\0\0\0\0\0\0\0\x01\0\0\0\x1f\0\0\0\x05world\0\0\0\x06anyone\0\0\0\x02",
            None,
        ),
        (
            b"\0\0\0\x01\0\0\0\x01\0\0\0\x01a\0\0\0\0\0\0\0\x01\0\0\0\x1f\0\0\0\x05world\0\0\0\x06anyone\0\0\0\x03",
            Some(-8),
        ),
        // flags 4
        (
            b"\0\0\0\x01\0\0\0\x01\0\0\0\x02/a\0\0\0\0\0\0\0\x01\0\0\0\x1f\0\0\0\x05world\0\0\0\x06anyone\0\0\0\x04",
            Some(-8),
        ),
        // a null list; an empty one; other perms; and the path is judged before the list
        (
            b"\0\0\0\x01\0\0\0\x01\0\0\0\x02/a\0\0\0\0\xff\xff\xff\xff\0\0\0\0",
            Some(-114),
        ),
        (
            b"\0\0\0\x01\0\0\0\x01\0\0\0\x02/a\0\0\0\0\0\0\0\0\0\0\0\0",
            Some(-114),
        ),
        (
            b"\0\0\0\x01\0\0\0\x01\0\0\0\x02/a\0\0\0\0\0\0\0\x01\0\0\0\x01\0\0\0\x05world\0\0\0\x06anyone\0\0\0\0",
            Some(-114),
        ),
        (
            b"\0\0\0\x01\0\0\0\x01\0\0\0\x02//\0\0\0\0\xff\xff\xff\xff\0\0\0\0",
            Some(-8),
        ),
    ];
    for (body, code) in table {
        assert!(rt; body.len() < 200);
        assert_eq!(rt; refusal_back(rt.alloc(), body)?, code, "{body:?}");
    }
    Ok(())
}

// check of the root is allowed; a create with a null list, and then setData of the root.
#[test]
fn a_multi_has_its_first_refusal(rt: HostRuntime) -> Result<(), Fail> {
    let table: [(&[u8], Option<i32>); 2] = [
        (
            b"\0\0\0\x01\0\0\0\x0e\0\0\0\x0d\0\xff\xff\xff\xff\0\0\0\x01/\xff\xff\xff\xff\xff\xff\xff\xff\x01\xff\xff\xff\xff",
            None,
        ),
        (
            b"\0\0\0\x01\0\0\0\x0e\0\0\0\x0d\0\xff\xff\xff\xff\0\0\0\x01/\xff\xff\xff\xff\0\0\0\x01\0\xff\xff\xff\xff\0\0\0\x02/a\0\0\0\0\xff\xff\xff\xff\0\0\0\0\0\0\0\x05\0\xff\xff\xff\xff\0\0\0\x01/\0\0\0\0\xff\xff\xff\xff\xff\xff\xff\xff\x01\xff\xff\xff\xff",
            Some(-114),
        ),
    ];
    for (body, code) in table {
        assert!(rt; body.len() < 200);
        assert_eq!(rt; refusal_back(rt.alloc(), body)?, code, "{body:?}");
    }
    Ok(())
}
