//! Records read from bytes, and written to the same bytes. The frames of clients are those that
//! kazoo 2.8, and the C and Java clients of ZooKeeper 3.8, sent.

ghost use Rattle.std.specs.Prelude.{IfOk, IfSome};
ghost use Rattle.zk_records.specs.Acls.{AreShortAcls};

use crate::{
    Acl, Acls, CheckRequest, CreateRequest, DeleteRequest, PathOnly, PathWatch, ReplyHeader,
    RequestHeader, SetAclRequest, SetContentRequest, SetWatches, Stat,
};
use jute_core::{Bytes, Cursor, Memory, Text, Texts};
use std::alloc::Global;
use std::test::Fail;

// What clients send where a node is for all: perms 31, world, anyone.
fn open_acls(alloc: Global) -> Result<Option<Acls>, Memory>
    ensures { IfOk result (λ list. IfSome list AreShortAcls) }
{
    let mut items = Vec::new(alloc);
    items.push(Acl {
        perms: 31,
        scheme: Text::copy_of(alloc, "world")?,
        id: Text::copy_of(alloc, "anyone")?,
    })?;
    Ok(Some(Acls::of(items)))
}

fn are_open(acls: &Option<Acls>) -> bool {
    let Some(list) = acls else {
        return false;
    };
    list.len() == 1
        && list.get(0).is_some_and(|a| a.perms == 31
            && a.scheme.as_str() == "world"
            && a.id.as_str() == "anyone")
}

fn holds(content: &Option<Bytes>, want: &[u8]) -> bool {
    content.as_ref().is_some_and(|b| b.as_slice() == want)
}

fn is_one_path(list: &Option<Texts>, want: &str) -> bool {
    let Some(list) = list else {
        return false;
    };
    list.len() == 1 && list.get(0).is_some_and(|t| t.as_str() == want)
}

#[test]
fn headers_and_a_path_are_spelled_in_order(rt: HostRuntime) -> Result<(), Fail> {
    // exists, xid 3, of the root, as kazoo sends it
    let body: &[u8] = b"\0\0\0\x03\0\0\0\x03\0\0\0\x01/\0";
    let mut cursor = Cursor::new(body);
    let header = RequestHeader::read(&mut cursor)?;
    assert_eq!(rt; header, RequestHeader { xid: 3, kind: 3 });
    let asked = PathWatch::read(rt.alloc(), &mut cursor)?;
    cursor.end()?;
    assert_eq!(rt; (asked.path.as_str(), asked.watch), ("/", false));
    let mut into = Vec::new(rt.alloc());
    header.write(&mut into)?;
    let root = PathWatch {
        path: Text::copy_of(rt.alloc(), "/")?,
        watch: false,
    };
    root.write(&mut into)?;
    assert_eq!(rt; into.as_slice(), body);
    Ok(())
}

#[test]
fn a_reply_header_and_a_stat_are_spelled_in_order(rt: HostRuntime) -> Result<(), Fail> {
    let body: &[u8] = b"\0\0\0\x01\0\0\0\0\0\0\0\x02\xff\xff\xff\x9b\
        \0\0\0\0\0\0\0\x01\0\0\0\0\0\0\0\x02\0\0\0\0\0\0\0\x03\0\0\0\0\0\0\0\x04\
        \0\0\0\x05\0\0\0\x06\0\0\0\x07\0\0\0\0\0\0\0\x08\0\0\0\x09\0\0\0\x0a\0\0\0\0\0\0\0\x0b";
    let mut cursor = Cursor::new(body);
    let header = ReplyHeader::read(&mut cursor)?;
    assert_eq!(rt;
        header,
        ReplyHeader {
            xid: 1,
            zxid: 2,
            err: -101
        }
    );
    let stat = Stat::read(&mut cursor)?;
    cursor.end()?;
    assert_eq!(rt;
        stat,
        Stat {
            czxid: 1,
            mzxid: 2,
            ctime: 3,
            mtime: 4,
            version: 5,
            cversion: 6,
            aversion: 7,
            owner: 8,
            length: 9,
            children: 10,
            pzxid: 11
        }
    );
    let mut into = Vec::new(rt.alloc());
    header.write(&mut into)?;
    stat.write(&mut into)?;
    assert_eq!(rt; into.as_slice(), body);
    Ok(())
}

#[test]
fn creates_of_clients_are_read_and_written_back(rt: HostRuntime) -> Result<(), Fail> {
    // the Java client: an ephemeral node with a number, and one with a null content
    let numbered: &[u8] = b"\0\0\0\x0c/cap-java/s-\0\0\0\x05hello\
        \0\0\0\x01\0\0\0\x1f\0\0\0\x05world\0\0\0\x06anyone\0\0\0\x03";
    let mut cursor = Cursor::new(numbered);
    let asked = CreateRequest::read(rt.alloc(), &mut cursor)?;
    cursor.end()?;
    assert_eq!(rt; (asked.path.as_str(), asked.flags), ("/cap-java/s-", 3));
    assert!(rt; holds(&asked.content, b"hello") && are_open(&asked.acls));
    let request = CreateRequest {
        path: Text::copy_of(rt.alloc(), "/cap-java/s-")?,
        content: Some(Bytes::copy_of(rt.alloc(), b"hello")?),
        acls: open_acls(rt.alloc())?,
        flags: 3,
    };
    let mut into = Vec::new(rt.alloc());
    request.write(&mut into)?;
    assert_eq!(rt; into.as_slice(), numbered);
    let plain: &[u8] = b"\0\0\0\x09/cap-java\xff\xff\xff\xff\
        \0\0\0\x01\0\0\0\x1f\0\0\0\x05world\0\0\0\x06anyone\0\0\0\0";
    let mut cursor = Cursor::new(plain);
    let asked = CreateRequest::read(rt.alloc(), &mut cursor)?;
    cursor.end()?;
    assert_eq!(rt; (asked.path.as_str(), asked.flags), ("/cap-java", 0));
    assert!(rt; asked.content.is_none() && are_open(&asked.acls));
    Ok(())
}

#[test]
fn a_delete_and_a_check_are_read_and_written_back(rt: HostRuntime) -> Result<(), Fail> {
    // kazoo deletes any version; the check is one of its multi
    let body: &[u8] = b"\0\0\0\x0a/cap-kazoo\xff\xff\xff\xff\0\0\0\x0c/cap-kazoo/a\0\0\0\x01";
    let mut cursor = Cursor::new(body);
    let delete = DeleteRequest::read(rt.alloc(), &mut cursor)?;
    let check = CheckRequest::read(rt.alloc(), &mut cursor)?;
    cursor.end()?;
    assert_eq!(rt; (delete.path.as_str(), delete.version), ("/cap-kazoo", -1));
    assert_eq!(rt; (check.path.as_str(), check.version), ("/cap-kazoo/a", 1));
    let mut into = Vec::new(rt.alloc());
    let delete = DeleteRequest {
        path: Text::copy_of(rt.alloc(), "/cap-kazoo")?,
        version: -1,
    };
    delete.write(&mut into)?;
    let check = CheckRequest {
        path: Text::copy_of(rt.alloc(), "/cap-kazoo/a")?,
        version: 1,
    };
    check.write(&mut into)?;
    assert_eq!(rt; into.as_slice(), body);
    Ok(())
}

#[test]
fn a_content_and_a_path_are_read_and_written_back(rt: HostRuntime) -> Result<(), Fail> {
    // setData and sync of the C client
    let body: &[u8] = b"\0\0\0\x08/cap-c/a\0\0\0\x04data\xff\xff\xff\xff\0\0\0\x06/cap-c";
    let mut cursor = Cursor::new(body);
    let set = SetContentRequest::read(rt.alloc(), &mut cursor)?;
    let sync = PathOnly::read(rt.alloc(), &mut cursor)?;
    cursor.end()?;
    assert_eq!(rt; (set.path.as_str(), set.version), ("/cap-c/a", -1));
    assert!(rt; holds(&set.content, b"data"));
    assert_eq!(rt; sync.path.as_str(), "/cap-c");
    let mut into = Vec::new(rt.alloc());
    let set = SetContentRequest {
        path: Text::copy_of(rt.alloc(), "/cap-c/a")?,
        content: Some(Bytes::copy_of(rt.alloc(), b"data")?),
        version: -1,
    };
    set.write(&mut into)?;
    let sync = PathOnly {
        path: Text::copy_of(rt.alloc(), "/cap-c")?,
    };
    sync.write(&mut into)?;
    assert_eq!(rt; into.as_slice(), body);
    Ok(())
}

#[test]
fn a_set_acl_is_read_and_written_back(rt: HostRuntime) -> Result<(), Fail> {
    let body: &[u8] = b"\0\0\0\x02/a\
        \0\0\0\x01\0\0\0\x1f\0\0\0\x05world\0\0\0\x06anyone\0\0\0\x07";
    let mut cursor = Cursor::new(body);
    let asked = SetAclRequest::read(rt.alloc(), &mut cursor)?;
    cursor.end()?;
    assert_eq!(rt; (asked.path.as_str(), asked.version), ("/a", 7));
    assert!(rt; are_open(&asked.acls));
    let request = SetAclRequest {
        path: Text::copy_of(rt.alloc(), "/a")?,
        acls: open_acls(rt.alloc())?,
        version: 7,
    };
    let mut into = Vec::new(rt.alloc());
    request.write(&mut into)?;
    assert_eq!(rt; into.as_slice(), body);
    Ok(())
}

#[test]
fn watches_of_a_client_are_read_and_written_back(rt: HostRuntime) -> Result<(), Fail> {
    // setWatches of the C client, which sends empty lists and no null ones
    let body: &[u8] = b"\0\0\0\0\0\0\0\x12\0\0\0\0\0\0\0\x01\0\0\0\x0b/cap-c/none\0\0\0\0";
    let mut cursor = Cursor::new(body);
    let asked = SetWatches::read(rt.alloc(), &mut cursor)?;
    cursor.end()?;
    assert_eq!(rt; asked.seen, 18);
    assert!(rt; is_one_path(&asked.exist_paths, "/cap-c/none"));
    assert!(rt; asked.content_paths.is_some_and(|t| t.len() == 0));
    assert!(rt; asked.child_paths.is_some_and(|t| t.len() == 0));
    let mut paths = Vec::new(rt.alloc());
    paths.push(Text::copy_of(rt.alloc(), "/cap-c/none")?)?;
    let watches = SetWatches {
        seen: 18,
        content_paths: Some(Texts::of(Vec::new(rt.alloc()))),
        exist_paths: Some(Texts::of(paths)),
        child_paths: Some(Texts::of(Vec::new(rt.alloc()))),
    };
    let mut into = Vec::new(rt.alloc());
    watches.write(&mut into)?;
    assert_eq!(rt; into.as_slice(), body);
    Ok(())
}
