//! Frames of a client, cut at every place, and frames about the limit.

use crate::{FrameFault, Framer, write_frame};
use jute_core::Bytes;
use std::test::Fail;

// A connect, exists "/" and closeSession: frames of 45, 14 and 8 bytes.
const CLIENT: &[u8] =
    b"\0\0\0\x2d\0\0\0\0\0\0\0\0\0\0\0\0\0\0\x75\x30\0\0\0\0\0\0\0\0\0\0\0\x10\0\0\0\0\0\0\0\0\0\0\0\0\0\0\0\0\0\
    \0\0\0\x0e\0\0\0\x01\0\0\0\x03\0\0\0\x01/\0\0\0\0\x08\0\0\0\x02\xff\xff\xff\xf5";

// Feeds a piece, taking each frame as it waits.
fn pour(framer: &mut Framer, piece: &[u8], bodies: &mut Vec<Bytes>) -> Result<(), Fail> {
    let mut rest = piece;
    for _ in 0..4 {
        let taken = framer.feed(rest)?;
        let (_, after) = rest.split_at(taken);
        rest = after;
        if let Some(body) = framer.take() {
            bodies.push(body)?;
        }
    }
    Ok(())
}

#[test]
fn the_same_frames_come_however_the_bytes_are_cut(rt: HostRuntime) -> Result<(), Fail> {
    for cut in 0..CLIENT.len() {
        let (front, back) = CLIENT.split_at(cut);
        let mut framer = Framer::new(rt.alloc(), 45);
        let mut bodies = Vec::new(rt.alloc());
        pour(&mut framer, front, &mut bodies)?;
        pour(&mut framer, back, &mut bodies)?;
        assert_eq!(rt; framer.held(), 0, "cut at {cut}");
        let mut again = Vec::new(rt.alloc());
        for body in bodies.iter() {
            assert!(rt; body.len() < 100);
            write_frame(body.as_slice(), &mut again)?;
        }
        assert_eq!(rt; bodies.len(), 3, "cut at {cut}");
        assert_eq!(rt; again.as_slice(), CLIENT, "cut at {cut}");
    }
    Ok(())
}

#[test]
fn a_length_beyond_the_limit_is_refused_and_stays_so(rt: HostRuntime) -> Result<(), Fail> {
    let table: [(&[u8], i32); 2] = [(b"\0\0\0\x03abc", 3), (b"\xff\xff\xff\xffabc", -1)];
    for (bytes, length) in table {
        let mut framer = Framer::new(rt.alloc(), 2);
        assert_eq!(rt; framer.feed(bytes), Err(FrameFault::TooLong { length }));
        assert_eq!(rt; framer.held(), 4);
        assert!(rt; framer.take().is_none());
        assert_eq!(rt; framer.feed(b""), Err(FrameFault::TooLong { length }));
        assert_eq!(rt; framer.feed(bytes), Err(FrameFault::TooLong { length }));
    }
    Ok(())
}

#[test]
fn a_frame_of_exactly_the_limit_waits_until_it_is_taken(rt: HostRuntime) -> Result<(), Fail> {
    let mut framer = Framer::new(rt.alloc(), 2);
    assert_eq!(rt; framer.feed(b"\0\0"), Ok(2));
    assert!(rt; framer.take().is_none());
    assert_eq!(rt; framer.feed(b"\0\x02a"), Ok(3));
    assert_eq!(rt; framer.feed(b"b\0"), Ok(1));
    assert_eq!(rt; framer.held(), 6);
    assert_eq!(rt; framer.feed(b"\0"), Ok(0));
    assert!(rt;
        framer
            .take()
            .is_some_and(|body| body.as_slice() == b"ab".as_slice())
    );
    assert_eq!(rt; framer.feed(b""), Ok(0));
    assert_eq!(rt; framer.held(), 0);
    Ok(())
}
