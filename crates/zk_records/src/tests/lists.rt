//! Lists: a null one and an empty one are two values, and a count takes no memory.

use crate::{Acls, CreateRequest, SetWatches, put_acls, read_acls};
use jute_core::{Cursor, NotRead, Reason, Refusal, Text, Texts, read_texts};
use std::test::Fail;

#[test]
fn null_and_empty_lists_of_watches_are_kept_apart(rt: HostRuntime) -> Result<(), Fail> {
    let body: &[u8] = b"\0\0\0\0\0\0\0\x01\xff\xff\xff\xff\0\0\0\0\0\0\0\x01\0\0\0\x02/a";
    let mut cursor = Cursor::new(body);
    let asked = SetWatches::read(rt.alloc(), &mut cursor)?;
    cursor.end()?;
    assert!(rt; asked.content_paths.is_none());
    assert!(rt; asked.exist_paths.is_some_and(|t| t.len() == 0));
    assert!(rt; asked.child_paths.is_some_and(|t| t.len() == 1));
    let mut paths = Vec::new(rt.alloc());
    paths.push(Text::copy_of(rt.alloc(), "/a")?)?;
    let watches = SetWatches {
        seen: 1,
        content_paths: None,
        exist_paths: Some(Texts::of(Vec::new(rt.alloc()))),
        child_paths: Some(Texts::of(paths)),
    };
    let mut into = Vec::new(rt.alloc());
    watches.write(&mut into)?;
    assert_eq!(rt; into.as_slice(), body);
    Ok(())
}

#[test]
fn null_and_empty_acls_are_kept_apart(rt: HostRuntime) -> Result<(), Fail> {
    let null: &[u8] = b"\0\0\0\x02/a\0\0\0\x01x\xff\xff\xff\xff\0\0\0\0";
    let empty: &[u8] = b"\0\0\0\x02/a\0\0\0\x01x\0\0\0\0\0\0\0\0";
    let mut cursor = Cursor::new(null);
    let asked = CreateRequest::read(rt.alloc(), &mut cursor)?;
    cursor.end()?;
    assert!(rt; asked.acls.is_none());
    let mut cursor = Cursor::new(empty);
    let asked = CreateRequest::read(rt.alloc(), &mut cursor)?;
    cursor.end()?;
    assert!(rt; asked.acls.is_some_and(|acls| acls.len() == 0));
    let mut into = Vec::new(rt.alloc());
    put_acls(&mut into, &None)?;
    assert_eq!(rt; into.as_slice(), b"\xff\xff\xff\xff".as_slice());
    put_acls(&mut into, &Some(Acls::of(Vec::new(rt.alloc()))))?;
    assert_eq!(rt; into.as_slice(), b"\xff\xff\xff\xff\0\0\0\0".as_slice());
    Ok(())
}

// Where the items end before the count does, the next one is cut short behind the last byte.
#[test]
fn a_count_over_a_short_body_is_refused_behind_it(rt: HostRuntime) {
    let texts: [(&[u8], u32); 3] = [
        (b"\x7f\xff\xff\xff", 4),
        (b"\x7f\xff\xff\xff\0\0\0\x02/a", 10),
        (b"\x7f\xff\xff\xff\0\0\0\x02/a\0\0\0\0", 14),
    ];
    for (body, place) in texts {
        assert!(rt; body.len() < 100);
        let mut cursor = Cursor::new(body);
        let reason = Reason::Short;
        let list = read_texts(rt.alloc(), &mut cursor);
        assert_eq!(rt;
            list.err(),
            Some(NotRead::Refused(Refusal { place, reason }))
        );
        assert_eq!(rt; cursor.place(), 0);
    }
    let acls: [(&[u8], u32); 2] = [
        (b"\x7f\xff\xff\xff", 4),
        (
            b"\x7f\xff\xff\xff\0\0\0\x1f\0\0\0\x05world\0\0\0\x06anyone",
            27,
        ),
    ];
    for (body, place) in acls {
        assert!(rt; body.len() < 100);
        let mut cursor = Cursor::new(body);
        let reason = Reason::Short;
        let list = read_acls(rt.alloc(), &mut cursor);
        assert_eq!(rt;
            list.err(),
            Some(NotRead::Refused(Refusal { place, reason }))
        );
        assert_eq!(rt; cursor.place(), 0);
    }
}
