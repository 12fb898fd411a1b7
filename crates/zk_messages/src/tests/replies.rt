//! Replies and events, read and written back.

use super::back::{event_back, reply_back};
use crate::{Event, OpResult, Outcome, Shape, reply_xid, write_event};
use jute_core::Text;
use std::test::Fail;
use zk_records::Stat;

// The Stat of a node of 5 bytes that the change with zxid 2 made at 1000.
const STAT: Stat = Stat {
    czxid: 2,
    mzxid: 2,
    ctime: 1000,
    mtime: 1000,
    version: 0,
    cversion: 0,
    aversion: 0,
    owner: 0,
    length: 5,
    children: 0,
    pzxid: 2,
};

// The reply to a getData of "/app".
const CONTENT: &[u8] =
    b"\0\0\0\x02\0\0\0\0\0\0\0\x02\0\0\0\0\0\0\0\x05hello\0\0\0\0\0\0\0\x02\0\0\0\0\0\0\
        \0\x02\0\0\0\0\0\0\x03\xe8\0\0\0\0\0\0\x03\xe8\0\0\0\0\0\0\0\0\0\0\0\0\0\0\0\0\0\0\0\
        \0\0\0\0\x05\0\0\0\0\0\0\0\0\0\0\0\x02";

// A create, a setData and a delete, of which the second has the wrong version.
const FAILED_MULTI: &[u8] =
    b"\0\0\0\x02\0\0\0\0\0\0\0\x02\0\0\0\0\xff\xff\xff\xff\0\0\0\0\0\0\0\0\0\xff\xff\xff\
        \xff\0\xff\xff\xff\x99\xff\xff\xff\x99\xff\xff\xff\xff\0\xff\xff\xff\xfe\xff\xff\xff\
        \xfe\xff\xff\xff\xff\x01\xff\xff\xff\xff";

// A delete, a create, a setData and a check.
const DONE_MULTI: &[u8] =
    b"\0\0\0\x02\0\0\0\0\0\0\0\x04\0\0\0\0\0\0\0\x02\0\0\0\0\0\0\0\0\x01\0\0\0\0\0\0\0\0\
        \x02/x\0\0\0\x05\0\0\0\0\0\0\0\0\0\0\0\0\x02\0\0\0\0\0\0\0\x02\0\0\0\0\0\0\x03\xe8\0\
        \0\0\0\0\0\x03\xe8\0\0\0\0\0\0\0\0\0\0\0\0\0\0\0\0\0\0\0\0\0\0\0\x05\0\0\0\0\0\0\0\0\
        \0\0\0\x02\0\0\0\x0d\0\0\0\0\0\xff\xff\xff\xff\x01\xff\xff\xff\xff";

// The reply to a create2 of "/app".
const CREATED2: &[u8] = b"\0\0\0\x01\0\0\0\0\0\0\0\x02\0\0\0\0\0\0\0\x04/app\
        \0\0\0\0\0\0\0\x02\0\0\0\0\0\0\0\x02\0\0\0\0\0\0\x03\xe8\0\0\0\0\0\0\x03\xe8\
        \0\0\0\0\0\0\0\0\0\0\0\0\0\0\0\0\0\0\0\0\0\0\0\x05\0\0\0\0\0\0\0\0\0\0\0\x02";

// A create2 and a check.
const CREATED2_MULTI: &[u8] =
    b"\0\0\0\x02\0\0\0\0\0\0\0\x02\0\0\0\0\0\0\0\x0f\0\0\0\0\0\0\0\0\x02/b\
        \0\0\0\0\0\0\0\x02\0\0\0\0\0\0\0\x02\
        \0\0\0\0\0\0\0\0\0\0\0\0\0\0\0\0\0\0\0\0\0\0\
        \0\0\0\0\0\0\0\0\0\0\0\0\0\0\0\0\0\0\0\0\0\0\
        \0\0\0\0\0\0\0\x02\
        \0\0\0\x0d\0\0\0\0\0\xff\xff\xff\xff\x01\xff\xff\xff\xff";

const NO_CHILDREN: &[u8] = b"\0\0\0\x02\0\0\0\0\0\0\0\x03\0\0\0\0\0\0\0\0";

const NULL_CHILDREN: &[u8] = b"\0\0\0\x02\0\0\0\0\0\0\0\x03\0\0\0\0\xff\xff\xff\xff";

// An exists where there is no node.
const NO_NODE: &[u8] = b"\0\0\0\x01\0\0\0\0\0\0\0\x02\xff\xff\xff\x9b";

// What a store answers on a first run, to a create and a getData, and to multis; null lists and empty
// ones; a ping; and errors.
const REPLIES: [(Shape, i32, i64, &[u8]); 18] = [
    (
        Shape::Stat,
        1,
        1,
        b"\0\0\0\x01\0\0\0\0\0\0\0\x01\0\0\0\0\0\0\0\0\0\0\0\0\0\0\0\0\0\0\0\0\0\0\0\0\0\0\0\
            \0\0\0\0\0\0\0\0\0\0\0\0\0\0\0\0\0\0\0\0\0\0\0\0\0\0\0\0\0\0\0\0\0\0\0\0\0\0\0\0\0\0\
            \0\0\0",
    ),
    (Shape::Empty, 2, 2, b"\0\0\0\x02\0\0\0\0\0\0\0\x02\0\0\0\0"),
    (
        Shape::Path,
        1,
        2,
        b"\0\0\0\x01\0\0\0\0\0\0\0\x02\0\0\0\0\0\0\0\x04/app",
    ),
    (Shape::Content, 2, 2, CONTENT),
    (
        Shape::Content,
        1,
        3,
        b"\0\0\0\x01\0\0\0\0\0\0\0\x03\0\0\0\0\xff\xff\xff\xff\0\0\0\0\0\0\0\x03\0\0\0\0\0\0\
            \0\x03\0\0\0\0\0\0\0\0\0\0\0\0\0\0\0\0\0\0\0\0\0\0\0\0\0\0\0\0\0\0\0\0\0\0\0\0\0\0\0\
            \0\0\0\0\0\0\0\0\0\0\0\0\x03",
    ),
    (Shape::Multi, 2, 2, FAILED_MULTI),
    (Shape::Multi, 2, 4, DONE_MULTI),
    (Shape::Created2, 1, 2, CREATED2),
    (Shape::Multi, 2, 2, CREATED2_MULTI),
    (
        Shape::Multi,
        1,
        2,
        b"\0\0\0\x01\0\0\0\0\0\0\0\x02\0\0\0\0\xff\xff\xff\xff\x01\xff\xff\xff\xff",
    ),
    (
        Shape::Children,
        2,
        5,
        b"\0\0\0\x02\0\0\0\0\0\0\0\x05\0\0\0\0\0\0\0\x02\0\0\0\x0cx-0000000000\0\0\0\x0cx-00\
            00000001",
    ),
    (Shape::Children, 2, 3, NO_CHILDREN),
    (Shape::Children, 2, 3, NULL_CHILDREN),
    (
        Shape::Children2,
        10,
        4,
        b"\0\0\0\x0a\0\0\0\0\0\0\0\x04\0\0\0\0\0\0\0\x01\0\0\0\x04lock\0\0\0\0\0\0\0\x02\0\0\
            \0\0\0\0\0\x02\0\0\0\0\0\0\x03\xe8\0\0\0\0\0\0\x03\xe8\0\0\0\0\0\0\0\0\0\0\0\0\0\0\0\
            \0\0\0\0\0\0\0\0\x05\0\0\0\0\0\0\0\0\0\0\0\x02",
    ),
    (
        Shape::Acls,
        14,
        3,
        b"\0\0\0\x0e\0\0\0\0\0\0\0\x03\0\0\0\0\0\0\0\x01\0\0\0\x1f\0\0\0\x05world\0\0\0\x06a\
            nyone\0\0\0\0\0\0\0\x02\0\0\0\0\0\0\0\x02\0\0\0\0\0\0\x03\xe8\0\0\0\0\0\0\x03\xe8\0\
            \0\0\0\0\0\0\0\0\0\0\0\0\0\0\0\0\0\0\0\0\0\0\x05\0\0\0\0\0\0\0\0\0\0\0\x02",
    ),
    (
        Shape::Empty,
        -2,
        3,
        b"\xff\xff\xff\xfe\0\0\0\0\0\0\0\x03\0\0\0\0",
    ),
    (Shape::Stat, 1, 2, NO_NODE),
    (
        Shape::Multi,
        3,
        7,
        b"\0\0\0\x03\0\0\0\0\0\0\0\x07\xff\xff\xff\xf8",
    ),
];

#[test]
fn replies_are_read_and_written_back(rt: HostRuntime) -> Result<(), Fail> {
    for (shape, xid, zxid, body) in REPLIES {
        assert!(rt; body.len() < 200);
        assert_eq!(rt; reply_xid(body)?, xid);
        let (reply, into) = reply_back(rt.alloc(), shape, body)?;
        assert_eq!(rt; (reply.xid, reply.zxid), (xid, zxid), "{body:?}");
        assert_eq!(rt; into.as_slice(), body);
    }
    Ok(())
}

fn is_hello(outcome: &Outcome) -> bool {
    match outcome {
        Outcome::Content { content, stat } => {
            *stat == STAT
                && content
                    .as_ref()
                    .is_some_and(|bytes| bytes.as_slice() == b"hello".as_slice())
        }
        _ => false,
    }
}

#[test]
fn a_reply_tells_the_content_and_its_stat(rt: HostRuntime) -> Result<(), Fail> {
    let (reply, _) = reply_back(rt.alloc(), Shape::Content, CONTENT)?;
    assert!(rt; is_hello(&reply.outcome));
    Ok(())
}

#[test]
fn a_creation_tells_the_path_and_its_stat(rt: HostRuntime) -> Result<(), Fail> {
    let (reply, _) = reply_back(rt.alloc(), Shape::Created2, CREATED2)?;
    assert!(rt;
        matches!(&reply.outcome,
        Outcome::Created2 { path, stat } if path.as_str() == "/app" && *stat == STAT)
    );
    Ok(())
}

// An error has no body, whatever the shape.
#[test]
fn an_error_tells_its_code(rt: HostRuntime) -> Result<(), Fail> {
    for shape in [Shape::Stat, Shape::Empty, Shape::Multi] {
        let (reply, into) = reply_back(rt.alloc(), shape, NO_NODE)?;
        assert!(rt; matches!(reply.outcome, Outcome::Error { code: -101 }));
        assert_eq!(rt; into.as_slice(), NO_NODE);
    }
    Ok(())
}

#[test]
fn null_and_empty_lists_of_children_are_kept_apart(rt: HostRuntime) -> Result<(), Fail> {
    let (empty, _) = reply_back(rt.alloc(), Shape::Children, NO_CHILDREN)?;
    assert!(rt; matches!(&empty.outcome, Outcome::Children(Some(names)) if names.len() == 0));
    let (null, _) = reply_back(rt.alloc(), Shape::Children, NULL_CHILDREN)?;
    assert!(rt; matches!(&null.outcome, Outcome::Children(None)));
    Ok(())
}

fn result_at(outcome: &Outcome, index: usize) -> Option<&OpResult> {
    match outcome {
        Outcome::Multi(results) => results.get(index),
        _ => None,
    }
}

#[test]
fn a_multi_that_failed_tells_an_error_for_each(rt: HostRuntime) -> Result<(), Fail> {
    let (reply, _) = reply_back(rt.alloc(), Shape::Multi, FAILED_MULTI)?;
    for (index, wanted) in [(0, Some(0)), (1, Some(-103)), (2, Some(-2)), (3, None)] {
        let found = match result_at(&reply.outcome, index) {
            Some(OpResult::Error { code }) => Some(*code),
            _ => None,
        };
        assert_eq!(rt; found, wanted);
    }
    Ok(())
}

#[test]
fn a_multi_that_was_done_tells_each_result(rt: HostRuntime) -> Result<(), Fail> {
    let (reply, _) = reply_back(rt.alloc(), Shape::Multi, DONE_MULTI)?;
    let outcome = &reply.outcome;
    assert!(rt; matches!(result_at(outcome, 0), Some(OpResult::Deleted)));
    assert!(rt;
        matches!(result_at(outcome, 1), Some(OpResult::Created(path)) if path.as_str() == "/x")
    );
    assert!(rt; matches!(result_at(outcome, 2), Some(OpResult::Changed(stat)) if *stat == STAT));
    assert!(rt; matches!(result_at(outcome, 3), Some(OpResult::Checked)));
    assert!(rt; result_at(outcome, 4).is_none());
    Ok(())
}

// A watch of a connected client tells that "/x" was made.
#[test]
fn an_event_is_read_and_written_back(rt: HostRuntime) -> Result<(), Fail> {
    let body: &[u8] = b"\xff\xff\xff\xff\xff\xff\xff\xff\xff\xff\xff\xff\0\0\0\0\
        \0\0\0\x01\0\0\0\x03\0\0\0\x02/x";
    assert_eq!(rt; reply_xid(body)?, -1);
    let (event, into) = event_back(rt.alloc(), body)?;
    assert_eq!(rt; (event.kind, event.state), (1, 3));
    assert_eq!(rt; event.path.as_str(), "/x");
    assert_eq!(rt; into.as_slice(), body);
    let event = Event {
        kind: 1,
        state: 3,
        path: Text::copy_of(rt.alloc(), "/x")?,
    };
    let mut into = Vec::new(rt.alloc());
    write_event(&event, &mut into)?;
    assert_eq!(rt; into.as_slice(), body);
    Ok(())
}
