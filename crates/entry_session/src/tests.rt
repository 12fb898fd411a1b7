//! A session from its connect request to its close, each call that takes memory with ample memory.

use crate::{Ending, Session};
use path_seal::NameKeys;
use payload_seal::{EntryKeys, PayloadKeys};
use std::test::Fail;

// A connect, exists "/" and closeSession.
const CONNECT: &[u8] =
    b"\0\0\0\x2d\0\0\0\0\0\0\0\0\0\0\0\0\0\0\x75\x30\0\0\0\0\0\0\0\0\0\0\0\x10\0\0\0\0\0\0\0\0\0\0\0\0\0\0\0\0\0";

const EXISTS: &[u8] = b"\0\0\0\x0e\0\0\0\x01\0\0\0\x03\0\0\0\x01/\0";

const CLOSE: &[u8] = b"\0\0\0\x08\0\0\0\x02\xff\xff\xff\xf5";

// What a store answers to them: a session, the Stat of the root, and nothing.
const CONNECTED: &[u8] =
    b"\0\0\0\x25\0\0\0\0\0\0\x75\x30\0\0\0\0\0\0\0\x01\0\0\0\x10\0\0\0\0\0\0\0\0\0\0\0\0\0\0\0\0\0";

const FOUND: &[u8] = b"\0\0\0\x54\0\0\0\x01\0\0\0\0\0\0\0\x01\0\0\0\0\
    \0\0\0\0\0\0\0\0\0\0\0\0\0\0\0\0\0\0\0\0\0\0\0\0\0\0\0\0\0\0\0\0\0\0\
    \0\0\0\0\0\0\0\0\0\0\0\0\0\0\0\0\0\0\0\0\0\0\0\0\0\0\0\0\0\0\0\0\0\0";

const CLOSED: &[u8] = b"\0\0\0\x10\0\0\0\x02\0\0\0\0\0\0\0\x02\0\0\0\0";

#[test]
fn a_session_hands_all_up_and_down_until_it_is_closed(rt: HostRuntime) -> Result<(), Fail> {
    let alloc = rt.alloc();
    let keys = EntryKeys {
        names: NameKeys::new([0; 16], [0; 32]),
        payloads: PayloadKeys::new([1; 16]),
    };
    let mut session = Session::new(alloc, keys, 0, 1);
    let mut out = Vec::new(alloc);
    let mut findings = Vec::new(alloc);
    for (asked, answer) in [(CONNECT, CONNECTED), (EXISTS, FOUND)] {
        assert_eq!(rt; session.from_client(asked, &mut out), Ok(()));
        assert!(rt; out.as_slice() == asked);
        out.clear();
        assert_eq!(rt; session.from_store(answer, &mut out, &mut findings), Ok(()));
        assert!(rt; out.as_slice() == answer);
        out.clear();
        assert_eq!(rt; session.held(), 0);
    }
    assert_eq!(rt; session.from_client(CLOSE, &mut out), Ok(()));
    assert_eq!(rt; (out.len(), session.held()), (12, 72));
    let closed = session.from_store(CLOSED, &mut out, &mut findings);
    assert_eq!(rt; closed, Err(Ending::Closed));
    assert_eq!(rt; (out.len(), findings.len()), (32, 0));
    assert_eq!(rt; session.ending(), Some(Ending::Closed));
    Ok(())
}
