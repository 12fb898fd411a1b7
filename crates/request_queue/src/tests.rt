//! The worked limit of a queue, the order of unlike requests, and each call that takes memory with ample memory.

ghost use Rattle.std.specs.Prelude.{◌≡◌};
ghost use Rattle.request_queue.specs.Asking.{IsAsked};

use crate::{Asked, AskedOp, AskedOps, NotPushed, Pending, Queue};
use std::test::Fail;
use zk_path::{read_path, read_stem};

fn ping(bytes: u32) -> Pending
    ensures { IsAsked result.asked }
{
    Pending {
        xid: -2,
        bytes,
        asked: Asked::Empty,
    }
}

fn pending(xid: i32, asked: Asked) -> Pending
    ensures { result.asked ≡ asked }
{
    Pending {
        xid,
        bytes: 10,
        asked,
    }
}

// Two requests weigh exactly 67,108,864, and one of no bytes weighs 64 more.
#[test]
fn a_full_queue_takes_no_request_of_no_bytes(rt: HostRuntime) -> Result<(), Fail> {
    let mut queue = Queue::new(rt.alloc());
    queue.push(ping(33_554_300))?;
    queue.push(ping(33_554_436))?;
    assert_eq!(rt; queue.weight(), 67_108_864);
    let full = NotPushed::Full { weight: 67_108_928 };
    assert_eq!(rt; queue.push(ping(0)), Err(full));
    assert_eq!(rt; queue.weight(), 67_108_864);
    Ok(())
}

#[test]
fn the_first_in_is_the_first_out(rt: HostRuntime) -> Result<(), Fail> {
    let alloc = rt.alloc();
    let mut queue = Queue::new(alloc);
    let path = read_path(alloc, "/a")?;
    queue.push(pending(7, Asked::Content { path }))?;
    let path = read_stem(alloc, "/a/n-")?;
    let sequential = true;
    queue.push(pending(3, Asked::Create { path, sequential }))?;
    queue.push(pending(5, Asked::Refused { code: -8 }))?;
    assert_eq!(rt; queue.front().map(|first| first.xid), Some(7));
    let first = queue.pop().ok_or("no first")?;
    assert!(rt; matches!(&first.asked, Asked::Content { path } if path.text() == "/a"));
    let second = queue.pop().ok_or("no second")?;
    assert_eq!(rt; (first.xid, second.xid, queue.weight()), (7, 3, 74));
    assert!(rt;
        matches!(&second.asked, Asked::Create { path, sequential: true } if path.text() == "/a/n-")
    );
    let third = queue.pop().ok_or("no third")?;
    assert!(rt; matches!(&third.asked, Asked::Refused { code: -8 }));
    assert!(rt; queue.pop().is_none() && queue.front().is_none());
    Ok(())
}

#[test]
fn the_operations_of_a_multi_keep_their_order(rt: HostRuntime) -> Result<(), Fail> {
    let path = read_path(rt.alloc(), "/a")?;
    let items = [
        AskedOp::SetContent { path },
        AskedOp::Delete,
        AskedOp::Check,
    ];
    let asked = AskedOps::of(Vec::from_array(rt.alloc(), items)?);
    assert_eq!(rt; (asked.len(), asked.as_slice().len()), (3, 3));
    assert!(rt; matches!(asked.get(1), Some(AskedOp::Delete)));
    assert!(rt; asked.get(3).is_none());
    Ok(())
}
