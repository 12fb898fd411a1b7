//! Where a message is refused, and why.

use crate::{Shape, read_event, read_reply, read_request, reply_xid};
use jute_core::{NotRead, Reason, Refusal};

#[test]
fn refuses_a_request_at_its_first_bad_field(rt: HostRuntime) {
    let table: [(&[u8], u32, Reason); 16] = [
        (b"\0\0\0", 0, Reason::Short),
        (b"\0\0\0\0\0\0", 4, Reason::Short),
        // exists: watch 2; a length of -2; a byte behind it
        (b"\0\0\0\x01\0\0\0\x03\0\0\0\x01/\x02", 13, Reason::BadBool),
        (
            b"\0\0\0\x01\0\0\0\x03\xff\xff\xff\xfe",
            8,
            Reason::BadLength,
        ),
        (b"\0\0\0\x01\0\0\0\x03\0\0\0\x01/\0\0", 14, Reason::Trailing),
        // a ping and a closeSession with a byte behind them
        (b"\0\0\0\x01\0\0\0\x0b\0", 8, Reason::Trailing),
        (b"\0\0\0\x01\xff\xff\xff\xf5\0", 8, Reason::Trailing),
        // the xid of events; the xid of pings, with a closeSession and with a type that is none;
        // it is judged before the body
        (b"\xff\xff\xff\xff\0\0\0\x0b", 0, Reason::BadXid),
        (b"\xff\xff\xff\xfe\xff\xff\xff\xf5", 0, Reason::BadXid),
        (b"\xff\xff\xff\xfe\0\0\x03\xe7", 0, Reason::BadXid),
        (b"\xff\xff\xff\xff\0\0\0\x03", 0, Reason::BadXid),
        // multis whose first header is (3, 0, -1), (1, 1, -1), (1, 0, 0), (-1, 1, 0), (-1, 0, -1)
        (
            b"\0\0\0\x01\0\0\0\x0e\0\0\0\x03\0\xff\xff\xff\xff",
            8,
            Reason::BadType,
        ),
        (
            b"\0\0\0\x01\0\0\0\x0e\0\0\0\x01\x01\xff\xff\xff\xff",
            12,
            Reason::BadHeader,
        ),
        (
            b"\0\0\0\x01\0\0\0\x0e\0\0\0\x01\0\0\0\0\0",
            13,
            Reason::BadHeader,
        ),
        (
            b"\0\0\0\x01\0\0\0\x0e\xff\xff\xff\xff\x01\0\0\0\0",
            13,
            Reason::BadHeader,
        ),
        (
            b"\0\0\0\x01\0\0\0\x0e\xff\xff\xff\xff\0\xff\xff\xff\xff",
            12,
            Reason::BadHeader,
        ),
    ];
    for (body, place, reason) in table {
        assert!(rt; body.len() < 100);
        assert_eq!(rt;
            read_request(rt.alloc(), body).err(),
            Some(NotRead::Refused(Refusal { place, reason })),
            "{body:?}"
        );
    }
}

// Behind an operation, a further header and what stands behind the end.
#[test]
fn refuses_a_multi_behind_its_first_operation(rt: HostRuntime) {
    let table: [(&[u8], u32, Reason); 4] = [
        (
            b"\0\0\0\x01\0\0\0\x0e\0\0\0\x0d\0\xff\xff\xff\xff\0\0\0\x01/\0\0\0",
            22,
            Reason::Short,
        ),
        (
            b"\0\0\0\x01\0\0\0\x0e\0\0\0\x0d\0\xff\xff\xff\xff\0\0\0\x01/\0\0\0\0",
            26,
            Reason::Short,
        ),
        (
            b"\0\0\0\x01\0\0\0\x0e\0\0\0\x0d\0\xff\xff\xff\xff\0\0\0\x01/\0\0\0\0\0\0\0\x0e\0\xff\xff\xff\xff",
            26,
            Reason::BadType,
        ),
        (
            b"\0\0\0\x01\0\0\0\x0e\xff\xff\xff\xff\x01\xff\xff\xff\xff\0",
            17,
            Reason::Trailing,
        ),
    ];
    for (body, place, reason) in table {
        assert!(rt; body.len() < 100);
        assert_eq!(rt;
            read_request(rt.alloc(), body).err(),
            Some(NotRead::Refused(Refusal { place, reason })),
            "{body:?}"
        );
    }
}

#[test]
fn refuses_a_reply_at_its_first_bad_field(rt: HostRuntime) {
    let table: [(Shape, &[u8], u32, Reason); 9] = [
        (Shape::Empty, b"\0\0\0\x01\0\0\0", 4, Reason::Short),
        // an error, and a reply with nothing to tell, with a byte behind them
        (
            Shape::Stat,
            b"\0\0\0\x01\0\0\0\0\0\0\0\x02\xff\xff\xff\x9b\0",
            16,
            Reason::Trailing,
        ),
        (
            Shape::Empty,
            b"\0\0\0\x01\0\0\0\0\0\0\0\x02\0\0\0\0\0",
            16,
            Reason::Trailing,
        ),
        (
            Shape::Path,
            b"\0\0\0\x01\0\0\0\0\0\0\0\x02\0\0\0\0\xff\xff\xff\xff",
            16,
            Reason::BadLength,
        ),
        // a code that is -2 in the header and -1 behind it
        (
            Shape::Multi,
            b"\0\0\0\x01\0\0\0\0\0\0\0\x02\0\0\0\0\xff\xff\xff\xff\0\xff\xff\xff\xfe\xff\xff\xff\xff",
            25,
            Reason::BadHeader,
        ),
        // headers (1, 0, 5), (2, 1, 0), (-1, 1, 0) and (3, 0, 0)
        (
            Shape::Multi,
            b"\0\0\0\x01\0\0\0\0\0\0\0\x02\0\0\0\0\0\0\0\x01\0\0\0\0\x05",
            21,
            Reason::BadHeader,
        ),
        (
            Shape::Multi,
            b"\0\0\0\x01\0\0\0\0\0\0\0\x02\0\0\0\0\0\0\0\x02\x01\0\0\0\0",
            20,
            Reason::BadHeader,
        ),
        (
            Shape::Multi,
            b"\0\0\0\x01\0\0\0\0\0\0\0\x02\0\0\0\0\xff\xff\xff\xff\x01\0\0\0\0",
            21,
            Reason::BadHeader,
        ),
        (
            Shape::Multi,
            b"\0\0\0\x01\0\0\0\0\0\0\0\x02\0\0\0\0\0\0\0\x03\0\0\0\0\0",
            16,
            Reason::BadType,
        ),
    ];
    for (shape, body, place, reason) in table {
        assert!(rt; body.len() < 100);
        assert_eq!(rt;
            read_reply(rt.alloc(), shape, body).err(),
            Some(NotRead::Refused(Refusal { place, reason })),
            "{body:?}"
        );
    }
}

// Each field of an event's header is judged before the next one is read.
#[test]
fn refuses_an_event_at_its_first_bad_field(rt: HostRuntime) {
    let table: [(&[u8], u32, Reason); 8] = [
        (b"\xff\xff\xff", 0, Reason::Short),
        (b"\0\0\0\x01", 0, Reason::BadHeader),
        (b"\xff\xff\xff\xff\0\0\0\0\0\0\0", 4, Reason::Short),
        (b"\xff\xff\xff\xff\0\0\0\0\0\0\0\0", 4, Reason::BadHeader),
        (
            b"\xff\xff\xff\xff\xff\xff\xff\xff\xff\xff\xff\xff\0\0\0\x01",
            12,
            Reason::BadHeader,
        ),
        (
            b"\xff\xff\xff\xff\xff\xff\xff\xff\xff\xff\xff\xff\0\0\0\0\0\0\0\x01\0\0\0\x03\xff\xff\xff\xff",
            24,
            Reason::BadLength,
        ),
        (
            b"\xff\xff\xff\xff\xff\xff\xff\xff\xff\xff\xff\xff\0\0\0\0\0\0\0\x01\0\0\0\x03\0\0\0\x01/\0",
            29,
            Reason::Trailing,
        ),
        (
            b"\xff\xff\xff\xff\xff\xff\xff\xff\xff\xff\xff\xff\0\0\0\0\0\0\0\x01\0\0\0\x03\0\0\0\x02/\xff",
            28,
            Reason::BadUtf8,
        ),
    ];
    for (body, place, reason) in table {
        assert!(rt; body.len() < 100);
        assert_eq!(rt;
            read_event(rt.alloc(), body).err(),
            Some(NotRead::Refused(Refusal { place, reason })),
            "{body:?}"
        );
    }
}

#[test]
fn no_xid_is_read_from_three_bytes(rt: HostRuntime) {
    let reason = Reason::Short;
    assert_eq!(rt;
        reply_xid(b"\0\0\0").err(),
        Some(Refusal { place: 0, reason })
    );
}
