//! What watches tell, and when they go.

use super::{Ask, Outputs, PASSWORD, Plain, asked_by, code_of, connect, opened, opened_twice};
use crate::message::Message;
use std::alloc::Global;
use std::test::Fail;
use zk_messages::{Outcome, Reply};

// Whether the output at the index tells the connection of this event.
pub(super) fn tells(outputs: &Outputs, index: usize, to: u32, kind: i32, path: &str) -> bool {
    let Some(output) = outputs.get(index) else {
        return false;
    };
    match &output.message {
        Message::Event(event) => {
            output.connection == to
                && event.kind == kind
                && event.state == 3
                && event.path.as_str() == path
        }
        _ => false,
    }
}

// Whether the last output, behind so many events, replies to the connection after this zxid.
pub(super) fn replies(outputs: &Outputs, events: usize, to: u32, after: i64) -> bool {
    let Some(output) = outputs.get(events) else {
        return false;
    };
    match &output.message {
        Message::Reply(Reply { xid: 5, zxid, .. }) => {
            output.connection == to && *zxid == after && outputs.len() == events + 1
        }
        _ => false,
    }
}

#[test]
fn a_watch_on_a_missing_node_fires_once_when_it_is_made(rt: HostRuntime) -> Result<(), Fail> {
    let alloc = rt.alloc();
    let mut tree = opened_twice(alloc)?;
    let missing = asked_by(alloc, &mut tree, 0, 1, Ask::WatchNode("/x"))?;
    assert_eq!(rt; code_of(&missing), -101);
    let made = asked_by(alloc, &mut tree, 0, 2, Ask::Create("/x", None, 0))?;
    assert!(rt; tells(&made, 0, 1, 1, "/x") && replies(&made, 1, 2, 3));
    let set = asked_by(alloc, &mut tree, 0, 2, Ask::Set("/x", b"new", -1))?;
    assert!(rt; replies(&set, 0, 2, 4));
    Ok(())
}

#[test]
fn a_deletion_is_told_once_to_each_connection(rt: HostRuntime) -> Result<(), Fail> {
    let alloc = rt.alloc();
    let mut tree = opened_twice(alloc)?;
    asked_by(alloc, &mut tree, 0, 2, Ask::Create("/x", Some(b"d"), 0))?;
    asked_by(alloc, &mut tree, 0, 1, Ask::WatchContent("/x"))?;
    asked_by(alloc, &mut tree, 0, 1, Ask::WatchChildren("/x"))?;
    asked_by(alloc, &mut tree, 0, 2, Ask::WatchChildren("/"))?;
    let gone = asked_by(alloc, &mut tree, 0, 2, Ask::Delete("/x", -1))?;
    assert!(rt; tells(&gone, 0, 1, 2, "/x") && tells(&gone, 1, 2, 4, "/"));
    assert!(rt; replies(&gone, 2, 2, 4));
    asked_by(alloc, &mut tree, 0, 2, Ask::Create("/x", None, 0))?;
    let child = asked_by(alloc, &mut tree, 0, 2, Ask::Create("/x/y", None, 0))?;
    assert!(rt; replies(&child, 0, 2, 6));
    Ok(())
}

#[test]
fn connections_are_told_in_ascending_order(rt: HostRuntime) -> Result<(), Fail> {
    let alloc = rt.alloc();
    let mut tree = opened_twice(alloc)?;
    for connection in [2, 1] {
        asked_by(alloc, &mut tree, 0, connection, Ask::WatchChildren("/"))?;
        asked_by(alloc, &mut tree, 0, connection, Ask::WatchNode("/x"))?;
    }
    let made = asked_by(alloc, &mut tree, 0, 1, Ask::Create("/x", None, 0))?;
    assert!(rt; tells(&made, 0, 1, 1, "/x") && tells(&made, 1, 2, 1, "/x"));
    assert!(rt; tells(&made, 2, 1, 4, "/") && tells(&made, 3, 2, 4, "/"));
    assert!(rt; replies(&made, 4, 1, 3));
    Ok(())
}

#[test]
fn ephemerals_of_a_closing_session_are_told_in_their_order(rt: HostRuntime) -> Result<(), Fail> {
    let alloc = rt.alloc();
    let mut tree = opened_twice(alloc)?;
    asked_by(alloc, &mut tree, 0, 1, Ask::Create("/z", None, 1))?;
    asked_by(alloc, &mut tree, 0, 1, Ask::Create("/y", None, 1))?;
    asked_by(alloc, &mut tree, 0, 1, Ask::WatchNode("/y"))?;
    asked_by(alloc, &mut tree, 0, 2, Ask::WatchNode("/z"))?;
    asked_by(alloc, &mut tree, 0, 2, Ask::WatchNode("/y"))?;
    asked_by(alloc, &mut tree, 0, 2, Ask::WatchChildren("/"))?;
    let closed = asked_by(alloc, &mut tree, 0, 1, Ask::Close)?;
    assert!(rt; tells(&closed, 0, 2, 2, "/z") && tells(&closed, 1, 2, 4, "/"));
    assert!(rt; tells(&closed, 2, 1, 2, "/y") && tells(&closed, 3, 2, 2, "/y"));
    assert!(rt; replies(&closed, 4, 1, 5));
    let root = tree.stat("/");
    assert!(rt;
        root.is_some_and(|stat| stat.cversion == 4 && stat.children == 0 && stat.pzxid == 5)
    );
    Ok(())
}

#[test]
fn the_next_in_line_for_a_lock_is_told(rt: HostRuntime) -> Result<(), Fail> {
    let alloc = rt.alloc();
    let mut tree = opened_twice(alloc)?;
    asked_by(alloc, &mut tree, 0, 1, Ask::Create("/lock", None, 0))?;
    asked_by(alloc, &mut tree, 0, 1, Ask::Create("/lock/x-", None, 3))?;
    asked_by(alloc, &mut tree, 0, 2, Ask::Create("/lock/x-", None, 3))?;
    let first = Ask::WatchNode("/lock/x-0000000000");
    let watched = asked_by(alloc, &mut tree, 0, 2, first)?;
    assert_eq!(rt; code_of(&watched), 0);
    let closed = asked_by(alloc, &mut tree, 0, 1, Ask::Close)?;
    assert!(rt; tells(&closed, 0, 2, 2, "/lock/x-0000000000") && replies(&closed, 1, 1, 6));
    assert!(rt; tree.stat("/lock/x-0000000001").is_some());
    Ok(())
}

#[test]
fn watches_are_set_again_where_a_session_moves(rt: HostRuntime) -> Result<(), Fail> {
    let alloc = rt.alloc();
    let mut tree = opened(alloc, 0)?;
    asked_by(alloc, &mut tree, 0, 1, Ask::Create("/a", None, 0))?;
    asked_by(alloc, &mut tree, 0, 1, Ask::WatchContent("/a"))?;
    tree.lose(1);
    connect(alloc, &mut tree, 2, 4_000, 1, &PASSWORD, 2)?;
    let again = Ask::SetWatches(2, Some("/a"), None, None);
    let kept = asked_by(alloc, &mut tree, 0, 2, again)?;
    assert!(rt; replies(&kept, 0, 2, 3));
    let set = asked_by(alloc, &mut tree, 0, 2, Ask::Set("/a", b"new", -1))?;
    assert!(rt; tells(&set, 0, 2, 3, "/a") && replies(&set, 1, 2, 4));
    Ok(())
}

// Over "/a", which was made by zxid 2 and changed by 3, and got a child by 4: the zxid that was seen, a path of each list, and the
// kinds of the events.
const NOTICES: [(Ask, &[i32]); 4] = [
    (
        Ask::SetWatches(2, Some("/a"), Some("/a"), Some("/a")),
        &[3, 1, 4],
    ),
    (Ask::SetWatches(3, Some("/a"), Some("/b"), Some("/a")), &[4]),
    (Ask::SetWatches(4, Some("/a"), Some("/b"), Some("/a")), &[]),
    (
        Ask::SetWatches(4, Some("/b"), Some("/a"), Some("/b")),
        &[2, 1, 2],
    ),
];

// Whether the first outputs are events of these kinds.
fn begins_with(outputs: &Outputs, kinds: &[i32]) -> bool {
    for (kind, output) in kinds.iter().zip(outputs.as_slice()) {
        match &output.message {
            Message::Event(event) if event.kind == *kind => {}
            _ => return false,
        }
    }
    true
}

#[test]
fn set_watches_tells_what_changed_and_watches_the_rest(rt: HostRuntime) -> Result<(), Fail> {
    let alloc = rt.alloc();
    for (ask, kinds) in NOTICES {
        let mut tree = opened(alloc, 0)?;
        asked_by(alloc, &mut tree, 0, 1, Ask::Create("/a", None, 0))?;
        asked_by(alloc, &mut tree, 0, 1, Ask::Set("/a", b"new", -1))?;
        asked_by(alloc, &mut tree, 0, 1, Ask::Create("/a/c", None, 0))?;
        let set = asked_by(alloc, &mut tree, 0, 1, ask)?;
        assert!(rt; begins_with(&set, kinds) && replies(&set, kinds.len(), 1, 4));
    }
    Ok(())
}

#[test]
fn an_event_of_set_watches_leaves_no_watch(rt: HostRuntime) -> Result<(), Fail> {
    let alloc = rt.alloc();
    let mut tree = opened(alloc, 0)?;
    asked_by(alloc, &mut tree, 0, 1, Ask::Create("/a", None, 0))?;
    let stale = Ask::SetWatches(1, Some("/a"), None, Some("/a"));
    let told = asked_by(alloc, &mut tree, 0, 1, stale)?;
    assert!(rt; tells(&told, 0, 1, 3, "/a") && tells(&told, 1, 1, 4, "/a"));
    let set = asked_by(alloc, &mut tree, 0, 1, Ask::Set("/a", b"new", -1))?;
    assert!(rt; replies(&set, 0, 1, 3));
    Ok(())
}

#[test]
fn an_expired_session_is_told_to_others_alone(rt: HostRuntime) -> Result<(), Fail> {
    let alloc = rt.alloc();
    let mut tree = opened_twice(alloc)?;
    asked_by(alloc, &mut tree, 0, 1, Ask::Create("/e", None, 1))?;
    asked_by(alloc, &mut tree, 0, 1, Ask::WatchNode("/e"))?;
    asked_by(alloc, &mut tree, 0, 2, Ask::WatchNode("/e"))?;
    tree.lose(1);
    assert!(rt; tree.held.last == 3);
    let gone = tree.expire(alloc, 5_000, 1)?;
    assert!(rt; gone.len() == 1 && tells(&gone, 0, 2, 2, "/e"));
    Ok(())
}
