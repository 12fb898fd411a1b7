//! Boards whose members fail or are taken out, a board that two threads tell, and the lines of findings as another program printed them.

ghost use Rattle.std.specs.Prelude.{◌≡◌, ◌+◌, ◌<◌, OnOk, None};

use super::*;
use payload_seal::Flaw;
use reply_rewrite::{Cause, Finding};
use std::alloc::{AllocError, Global};
use std::sync::Arc;
use std::sync::atomic::{AtomicU64, Ordering};
use std::test::*;
use std::thread;

// A finding of this number.
fn numbered(number: u64) -> Finding {
    Finding {
        connection: 1,
        reply: number,
        xid: -2,
        cause: Cause::NullChildren,
    }
}

fn add(board: &mut Board, member: Box<dyn Observer + Send>) -> Result<(), AllocError>
    requires { board.old.added < 4294967295 }
    ensures { OnOk result (board.new.added ≡ board.old.added + 1) }
{
    match board.add(member) {
        Ok(_) => Ok(()),
        Err(_) => Err(AllocError),
    }
}

// How many findings the member of this number notes, which is taken out.
fn noted(board: &mut Board, number: u32, findings: &[Finding]) -> Option<bool> {
    let member = board.remove(number)?;
    let mut same = member.noted(findings.len()).is_none();
    for (place, finding) in findings.iter().enumerate() {
        same = same && member.noted(place) == Some(*finding);
    }
    Some(same)
}

#[test]
fn a_member_that_fails_goes_and_the_next_is_told_all(rt: HostRuntime) -> Result<(), Fail> {
    let alloc = rt.alloc();
    let findings = [numbered(0), numbered(1), numbered(2)];
    let mut board = Board::new(alloc);
    add(
        &mut board,
        Box::new(alloc, ListObserver::new(alloc, vec![in alloc; 1]?))?,
    )?;
    add(
        &mut board,
        Box::new(alloc, ListObserver::new(alloc, Vec::new(alloc)))?,
    )?;
    assert_eq!(rt; board.tell(&findings[0]), 0);
    assert_eq!(rt; board.tell(&findings[1]), 1);
    assert_eq!(rt; board.tell(&findings[2]), 0);
    assert_eq!(rt; board.members(), 1);
    assert_eq!(rt; noted(&mut board, 0, &findings), None);
    assert_eq!(rt; noted(&mut board, 1, &findings), Some(true));
    assert_eq!(rt; board.members(), 0);
    Ok(())
}

#[test]
fn a_member_that_was_taken_out_is_not_told(rt: HostRuntime) -> Result<(), Fail> {
    let alloc = rt.alloc();
    let findings = [numbered(0)];
    let mut board = Board::new(alloc);
    add(
        &mut board,
        Box::new(alloc, ListObserver::new(alloc, Vec::new(alloc)))?,
    )?;
    add(
        &mut board,
        Box::new(alloc, ListObserver::new(alloc, Vec::new(alloc)))?,
    )?;
    add(
        &mut board,
        Box::new(alloc, ListObserver::new(alloc, Vec::new(alloc)))?,
    )?;
    let middle = board.remove(1);
    assert_eq!(rt; board.tell(&findings[0]), 0);
    assert!(rt; board.remove(1).is_none());
    assert_eq!(rt; board.members(), 2);
    assert_eq!(rt; noted(&mut board, 0, &findings), Some(true));
    assert_eq!(rt; noted(&mut board, 2, &findings), Some(true));
    if let Some(member) = middle {
        assert_eq!(rt; member.noted(0), None);
    }
    Ok(())
}

const SEALED: [u8; 32] = [
    0x6a, 0x50, 0xdc, 0x85, 0x84, 0x13, 0x4c, 0x7d, 0xe5, 0x37, 0xc0, 0x05, 0x2f, 0xf6, 0xd2, 0x36,
    0xbf, 0x87, 0x43, 0x55, 0xe0, 0x50, 0xc9, 0x05, 0x23, 0xe0, 0xc5, 0xff, 0x2a, 0x54, 0x3a, 0x28,
];

const ASKED: [u8; 32] = [
    0x98, 0x12, 0xb0, 0xb9, 0xd6, 0x1e, 0x09, 0xb9, 0x27, 0xd0, 0x3f, 0xf9, 0x3f, 0x64, 0x53, 0x0d,
    0x8f, 0xcf, 0x37, 0x38, 0x10, 0xb7, 0x00, 0x71, 0x29, 0xeb, 0x4b, 0x20, 0x96, 0x24, 0x12, 0xcb,
];

// Whether an observer's line of this cause, of the reply 0 with xid 1 on connection 1, is `finding 1 reply 0 xid 1`, a space, the text and
// a line feed. The sink fails at its second write, so that the line is one write.
fn prints(alloc: Global, cause: Cause, text: &str) -> Result<bool, AllocError> {
    let mut observer = LineObserver::new(MemorySink::new(alloc, vec![in alloc; 1]?));
    let told = observer.note(&Finding {
        connection: 1,
        reply: 0,
        xid: 1,
        cause,
    });
    let sink = observer.into_sink();
    let line = format!(in alloc; "finding 1 reply 0 xid 1 {text}\n")?;
    Ok(told.is_ok() && sink.taken() == line.as_bytes())
}

#[test]
fn the_lines_of_worked_rows(rt: HostRuntime) -> Result<(), Fail> {
    let alloc = rt.alloc();
    assert!(rt; prints(alloc, Cause::Child { index: 0 }, "child 0")?);
    assert!(rt; prints(alloc, Cause::Doubled { index: 1 }, "doubled 1")?);
    assert!(rt; prints(alloc, Cause::Length { stored: 60 }, "length 60")?);
    assert!(rt; prints(alloc, Cause::Payload(Flaw::BadTag), "payload bad-tag")?);
    assert!(rt;
        prints(
            alloc,
            Cause::Payload(Flaw::Short { length: 60 }),
            "payload short 60"
        )?
    );
    assert!(rt;
        prints(
            alloc,
            Cause::Payload(Flaw::UnknownEpoch { epoch: 2 }),
            "payload unknown-epoch 2"
        )?
    );
    let wrong = Flaw::WrongPath {
        sealed: SEALED,
        asked: ASKED,
    };
    let digests =
        "payload wrong-path 6a50dc8584134c7de537c0052ff6d236bf874355e050c90523e0c5ff2a543a28 \
        9812b0b9d61e09b927d03ff93f64530d8fcf373810b7007129eb4b20962412cb";
    assert!(rt; prints(alloc, Cause::Payload(wrong), digests)?);
    Ok(())
}

#[test]
fn the_lines_of_the_other_causes(rt: HostRuntime) -> Result<(), Fail> {
    let alloc = rt.alloc();
    assert!(rt;
        prints(
            alloc,
            Cause::Payload(Flaw::BadFlag { flag: 255 }),
            "payload bad-flag 255"
        )?
    );
    assert!(rt; prints(alloc, Cause::NullChildren, "null-children")?);
    assert!(rt; prints(alloc, Cause::Created, "created")?);
    assert!(rt; prints(alloc, Cause::SyncPath, "sync-path")?);
    assert!(rt; prints(alloc, Cause::Acl, "acl")?);
    assert!(rt;
        prints(
            alloc,
            Cause::MultiCount { asked: 3, got: 2 },
            "multi-count 3 2"
        )?
    );
    assert!(rt; prints(alloc, Cause::MultiKind { index: 4 }, "multi-kind 4")?);
    assert!(rt; prints(alloc, Cause::MultiCreated { index: 5 }, "multi-created 5")?);
    assert!(rt; prints(alloc, Cause::MultiLength { index: 6 }, "multi-length 6")?);
    assert!(rt; prints(alloc, Cause::Length { stored: -1 }, "length -1")?);
    Ok(())
}

// Adds up 1,000 and the reply's number for each finding.
#[derive(Drop)]
struct Counting {
    sum: Arc<AtomicU64>,
}

impl Observer for Counting {
    ghost list = { λ o. None };

    ghost faults = { λ o. 0 };

    fn note(&mut self, finding: &Finding) -> Result<(), Failed> {
        self.sum
            .fetch_add(finding.reply.wrapping_add(1000), Ordering::SeqCst);
        Ok(())
    }

    fn noted(&self, _index: usize) -> Option<Finding> {
        None
    }

    fn faults(&self) -> u64 {
        0
    }
}

#[test]
fn two_holders_tell_one_board(rt: HostRuntime) -> Result<(), Fail> {
    let alloc = rt.alloc();
    let sum = Arc::new(alloc, AtomicU64::new(0))?;
    let theirs = Arc::try_clone(&sum)?;
    let mut board = Board::new(alloc);
    add(&mut board, Box::new(alloc, Counting { sum: theirs })?)?;
    let mut one = SharedBoard::new(alloc, rt.clone()?, board)?;
    let other = one.split()?;
    let teller = thread::spawn(&rt, move || {
        let mut other = other;
        other.tell(&numbered(1))
    })?;
    assert_eq!(rt; one.tell(&numbered(20)), 0);
    assert_eq!(rt; teller.join(&rt), 0);
    assert_eq!(rt; sum.load(Ordering::SeqCst), 2021);
    Ok(())
}
