use super::*;
use jute_core::{Bytes, Text};
use std::alloc::{AllocError, Global};
use std::test::*;

const OPENED: &[u8] = b"order 0\nconnection 1\nending open\nstore open\nreceived -\nhanded -\n";

const CUT: &[u8] = b"order 0\nconnection 1\nending client-end\nstore lost\nreceived -\nhanded -\n";

fn words(alloc: Global, of: &[&str]) -> Result<Vec<String>, AllocError> {
    let mut words = Vec::new(alloc);
    for word in of {
        words.push(String::from_str(alloc, word)?)?;
    }
    Ok(words)
}

fn file(alloc: Global, name: &str, of: &[u8]) -> Result<NamedFile, AllocError> {
    Ok(NamedFile {
        name: Text::of(String::from_str(alloc, name)?),
        bytes: Bytes::of(Vec::from_slice(alloc, of)?),
    })
}

// A key of so many bytes, and a script.
fn files(alloc: Global, key: usize, script: &[u8]) -> Result<Vec<NamedFile>, AllocError> {
    let key = vec![in alloc; 7u8; key]?;
    Ok(vec![in alloc;
        file(alloc, "key", key.as_slice())?,
        file(alloc, "script", script)?,
    ]?)
}

#[derive(Drop)]
struct Outcome {
    status: Status,
    out: MemorySink,
    err: MemorySink,
}

// Runs `replay key script`, where the reads and writes so numbered fail.
fn replayed(
    alloc: Global,
    script: &[u8],
    reads: &[u64],
    outs: &[u64],
    errs: &[u64],
) -> Result<Outcome, AllocError> {
    let words = words(alloc, &["replay", "key", "script"])?;
    let mut files = MemoryFiles::new(files(alloc, 64, script)?, Vec::from_slice(alloc, reads)?);
    let mut out = MemorySink::new(alloc, Vec::from_slice(alloc, outs)?);
    let mut err = MemorySink::new(alloc, Vec::from_slice(alloc, errs)?);
    let status = run(alloc, words.as_slice(), &mut files, &mut out, &mut err);
    Ok(Outcome { status, out, err })
}

// Runs other words over a key of so many bytes and an empty script.
fn ran(alloc: Global, of: &[&str], key: usize) -> Result<Outcome, AllocError> {
    let words = words(alloc, of)?;
    let mut files = MemoryFiles::new(files(alloc, key, b"")?, Vec::new(alloc));
    let mut out = MemorySink::new(alloc, Vec::new(alloc));
    let mut err = MemorySink::new(alloc, Vec::new(alloc));
    let status = run(alloc, words.as_slice(), &mut files, &mut out, &mut err);
    Ok(Outcome { status, out, err })
}

#[test]
fn scripts_that_send_nothing(rt: HostRuntime) -> Result<(), Fail> {
    let alloc = rt.alloc();
    for (script, printed) in [
        (b"".as_slice(), b"order 0\n".as_slice()),
        (b"drain".as_slice(), b"order 0\n".as_slice()),
        (b"open".as_slice(), OPENED),
        (b"# a comment\n\nopen\ndrain\n".as_slice(), OPENED),
        (b"drain\nopen\n#\n".as_slice(), OPENED),
        (b"open\nup 1 4294967295 0\n".as_slice(), OPENED),
        (b"open\ndown 1 7\n".as_slice(), OPENED),
        (b"open\ncut 1\n".as_slice(), CUT),
        (
            b"time 4611686018427387903\n".as_slice(),
            b"order 0\n".as_slice(),
        ),
        (b"tick\n".as_slice(), b"order 0\n".as_slice()),
    ] {
        let ran = replayed(alloc, script, &[], &[], &[])?;
        assert!(rt; ran.status == Status::Done);
        assert_eq!(rt; ran.out.taken(), printed);
        assert_eq!(rt; ran.err.taken().len(), 0);
    }
    Ok(())
}

#[test]
fn lines_outside_the_grammar(rt: HostRuntime) -> Result<(), Fail> {
    let alloc = rt.alloc();
    for (script, complaint) in [
        (b"open \n".as_slice(), b"script line 1\n".as_slice()),
        (b"drain all\n".as_slice(), b"script line 1\n".as_slice()),
        (b"open\r\n".as_slice(), b"script line 1\n".as_slice()),
        (b"send 1 00\n".as_slice(), b"script line 1\n".as_slice()),
        (
            b"open\nsend 2 00\n".as_slice(),
            b"script line 2\n".as_slice(),
        ),
        (
            b"open\nsend 01 00\n".as_slice(),
            b"script line 2\n".as_slice(),
        ),
        (
            b"open\nsend 0 00\n".as_slice(),
            b"script line 2\n".as_slice(),
        ),
        (
            b"open\nsend 1  00\n".as_slice(),
            b"script line 2\n".as_slice(),
        ),
        (
            b"open\nsend 1 0A\n".as_slice(),
            b"script line 2\n".as_slice(),
        ),
        (b"open\nsend 1 \n".as_slice(), b"script line 2\n".as_slice()),
        (b"#\n\nup 1 0 0\n".as_slice(), b"script line 3\n".as_slice()),
        (
            b"open\nup 1 0 4294967296".as_slice(),
            b"script line 2\n".as_slice(),
        ),
        (
            b"time 4611686018427387904\n".as_slice(),
            b"script line 1\n".as_slice(),
        ),
        (b" open\n".as_slice(), b"script line 1\n".as_slice()),
        (b"\xff\n".as_slice(), b"script line 1\n".as_slice()),
    ] {
        let ran = replayed(alloc, script, &[], &[], &[])?;
        assert!(rt; ran.status == Status::ScriptMalformed);
        assert_eq!(rt; ran.out.taken().len(), 0);
        assert_eq!(rt; ran.err.taken(), complaint);
    }
    Ok(())
}

#[test]
fn words_of_no_row(rt: HostRuntime) -> Result<(), Fail> {
    let alloc = rt.alloc();
    let none: &[&str] = &[];
    for words in [
        none,
        &["replay", "key"],
        &["replay", "key", "script", "more"],
        &["Replay", "key", "script"],
        &["stress", "07", "1", "1"],
        &["stress", "+7", "1", "1"],
        &["stress", "7", "0", "1"],
        &["stress", "7", "65", "1"],
        &["stress", "7", "1", "100001"],
        &["stress", "18446744073709551616", "1", "1"],
    ] {
        let ran = ran(alloc, words, 64)?;
        assert!(rt; ran.status == Status::BadWords);
        assert_eq!(rt; ran.out.taken().len(), 0);
        assert_eq!(rt; ran.err.taken(), b"bad words\n".as_slice());
    }
    Ok(())
}

#[test]
fn a_workload_without_steps(rt: HostRuntime) -> Result<(), Fail> {
    let alloc = rt.alloc();
    let ran = ran(alloc, &["stress", "7", "1", "0"], 64)?;
    assert!(rt; ran.status == Status::Done);
    let text = b"sessions 1\nsteps 0\nentries 2\nevents 0\nreplies 1\nerrors 0\n\
        digest ca756c347b355eb6ec9023888d25c5beb0c2d5be9ca4fe4cc89c0347b7647bf2\n";
    assert_eq!(rt; ran.out.taken(), text.as_slice());
    Ok(())
}

#[test]
fn keys_of_no_key_file(rt: HostRuntime) -> Result<(), Fail> {
    let alloc = rt.alloc();
    for (command, key, complaint) in [
        ("replay", 63, b"key of 63 bytes\n".as_slice()),
        ("replay", 65, b"key of 65 bytes\n".as_slice()),
        ("hostile", 0, b"key of 0 bytes\n".as_slice()),
        ("hostile", 4160, b"key of 4160 bytes\n".as_slice()),
    ] {
        let ran = ran(alloc, &[command, "key", "absent"], key)?;
        assert!(rt; ran.status == Status::KeyMalformed);
        assert_eq!(rt; ran.out.taken().len(), 0);
        assert_eq!(rt; ran.err.taken(), complaint);
    }
    Ok(())
}

#[test]
fn reads_that_fail(rt: HostRuntime) -> Result<(), Fail> {
    let alloc = rt.alloc();
    for (call, complaint) in [
        (0, b"cannot read key\n".as_slice()),
        (1, b"cannot read script\n".as_slice()),
    ] {
        let ran = replayed(alloc, b"open\n", &[call], &[], &[])?;
        assert!(rt; ran.status == Status::ReadFault);
        assert_eq!(rt; ran.out.taken().len(), 0);
        assert_eq!(rt; ran.err.taken(), complaint);
    }
    let ran = ran(alloc, &["replay", "key", "absent"], 64)?;
    assert!(rt; ran.status == Status::ReadFault);
    assert_eq!(rt; ran.err.taken(), b"cannot read absent\n".as_slice());
    Ok(())
}

#[test]
fn writes_that_fail(rt: HostRuntime) -> Result<(), Fail> {
    let alloc = rt.alloc();
    let out = replayed(alloc, b"open\n", &[], &[0], &[])?;
    assert!(rt; out.status == Status::WriteFault);
    assert_eq!(rt; out.err.taken(), b"cannot write\n".as_slice());
    let both = replayed(alloc, b"open\n", &[], &[0], &[0])?;
    assert!(rt; both.status == Status::WriteFault);
    let err = replayed(alloc, b"close\n", &[], &[], &[0])?;
    assert!(rt; err.status == Status::WriteFault);
    assert_eq!(rt; err.err.taken(), b"cannot write\n".as_slice());
    assert_eq!(rt; err.err.faults(), 1);
    Ok(())
}

const CONNECT: &str =
    "0000002d000000000000000000000000000075300000000000000000000000100000000000000000000000000000000000";

// Frames of requests, and the part of the line behind the frame's length.
const REQUESTS: [(&str, &str, &str); 18] = [
    (
        "0000001a0000000100000001000000022f61ffffffff0000000000000000",
        "26",
        "create xid 1 path 2f61",
    ),
    (
        "000000120000000200000002000000022f61ffffffff",
        "18",
        "delete xid 2 path 2f61",
    ),
    (
        "0000000f0000000300000003000000022f6101",
        "15",
        "exists xid 3 path 2f61",
    ),
    (
        "0000000f0000000400000004000000022f6100",
        "15",
        "getData xid 4 path 2f61",
    ),
    (
        "000000160000000500000005000000022f61ffffffff00000000",
        "22",
        "setData xid 5 path 2f61",
    ),
    (
        "0000000e0000000600000006000000022f61",
        "14",
        "getACL xid 6 path 2f61",
    ),
    (
        "000000160000000700000007000000022f610000000000000000",
        "22",
        "setACL xid 7 path 2f61",
    ),
    (
        "0000000f0000000800000008000000022f6100",
        "15",
        "getChildren xid 8 path 2f61",
    ),
    (
        "0000000e0000000900000009000000022f61",
        "14",
        "sync xid 9 path 2f61",
    ),
    (
        "0000000f0000000a0000000c000000022f6100",
        "15",
        "getChildren2 xid 10 path 2f61",
    ),
    (
        "0000000d0000000b000000030000000000",
        "13",
        "exists xid 11 path -",
    ),
    (
        "000000240000000c0000000e0000000200ffffffff000000022f61ffffffffffffffff01ffffffff",
        "36",
        "multi xid 12 path -",
    ),
    (
        "0000001a0000000e0000000f000000022f61ffffffff0000000000000000",
        "26",
        "create2 xid 14 path 2f61",
    ),
    ("00000008fffffffe0000000b", "8", "ping xid -2 path -"),
    ("0000000bfffffffc00000064000000", "11", "auth xid -4 path -"),
    (
        "00000022fffffff800000065000000000000000000000001000000022f610000000000000000",
        "34",
        "setWatches xid -8 path -",
    ),
    (
        "0000000e0000000d0000000d000000022f61",
        "14",
        "unknown xid 13 path -",
    ),
    (
        "0000000880000000fffffff5",
        "8",
        "closeSession xid -2147483648 path -",
    ),
];

// Bytes behind a connect request, and the last line.
const ENDS: [(&str, &str); 19] = [
    ("", "end"),
    ("00", "rest 1"),
    ("0000000800000001", "rest 8"),
    ("003fffff", "rest 4"),
    ("00400000", "too-long 4194304"),
    ("72756f6b", "too-long 1920298859"),
    ("ffffffff00", "too-long -1"),
    ("0000000000000000", "malformed 0 short"),
    ("0000000400000001", "malformed 4 short"),
    ("00000008ffffffff00000003", "malformed 0 bad-xid"),
    ("00000008fffffffe00000003", "malformed 0 bad-xid"),
    ("0000000c0000000100000009fffffffe", "malformed 8 bad-length"),
    ("0000000c0000000100000009ffffffff", "malformed 8 bad-length"),
    ("0000000d0000000100000009000000022f", "malformed 12 short"),
    (
        "0000000d000000010000000900000001ff",
        "malformed 12 bad-utf8",
    ),
    (
        "0000000f0000000100000003000000022f6102",
        "malformed 14 bad-bool",
    ),
    ("0000000900000001fffffff500", "malformed 8 trailing"),
    (
        "00000011000000010000000e0000000300ffffffff",
        "malformed 8 bad-type",
    ),
    (
        "00000011000000010000000effffffff0100000000",
        "malformed 13 bad-header",
    ),
];

// Runs `show bytes` over bytes given in hex.
fn shown(alloc: Global, digits: &[&str]) -> Result<Outcome, Fail> {
    let words = words(alloc, &["show", "bytes"])?;
    let mut bytes = Vec::new(alloc);
    for part in digits {
        bytes.extend_from_slice(hex::decode(alloc, part)?.as_slice())?;
    }
    let held = vec![in alloc; file(alloc, "bytes", bytes.as_slice())?]?;
    let mut files = MemoryFiles::new(held, Vec::new(alloc));
    let mut out = MemorySink::new(alloc, Vec::new(alloc));
    let mut err = MemorySink::new(alloc, Vec::new(alloc));
    let status = run(alloc, words.as_slice(), &mut files, &mut out, &mut err);
    Ok(Outcome { status, out, err })
}

// A text of these parts.
fn joined(alloc: Global, parts: &[&str]) -> Result<String, AllocError> {
    let mut text = String::new(alloc);
    for part in parts {
        text.push_str(part)?;
    }
    Ok(text)
}

#[test]
fn a_line_for_each_type_of_request(rt: HostRuntime) -> Result<(), Fail> {
    let alloc = rt.alloc();
    for (frame, size, said) in REQUESTS {
        let ran = shown(alloc, &[CONNECT, frame])?;
        let first = "0 at 0 bytes 45 connect\n1 at 49 bytes ";
        let printed = joined(alloc, &[first, size, " ", said, "\nend\n"])?;
        assert!(rt; ran.status == Status::Done);
        assert_eq!(rt; ran.out.taken(), printed.as_bytes());
        assert_eq!(rt; ran.err.taken().len(), 0);
    }
    Ok(())
}

#[test]
fn a_last_line_for_each_end(rt: HostRuntime) -> Result<(), Fail> {
    let alloc = rt.alloc();
    for (bytes, said) in ENDS {
        let ran = shown(alloc, &[CONNECT, bytes])?;
        let printed = joined(alloc, &["0 at 0 bytes 45 connect\n", said, "\n"])?;
        assert!(rt; ran.status == Status::Done);
        assert_eq!(rt; ran.out.taken(), printed.as_bytes());
    }
    Ok(())
}

#[test]
fn a_first_frame_that_is_no_connect(rt: HostRuntime) -> Result<(), Fail> {
    let alloc = rt.alloc();
    let ran = shown(alloc, &["00000008fffffffe0000000b", CONNECT])?;
    assert_eq!(rt; ran.out.taken(), b"malformed 4 short\n".as_slice());
    let older = shown(
        alloc,
        &["0000001c00000000000000000000000000000000000000000000000000000000"],
    )?;
    assert_eq!(rt;
        older.out.taken(),
        b"0 at 0 bytes 28 connect\nend\n".as_slice()
    );
    let nothing = shown(alloc, &[])?;
    assert_eq!(rt; nothing.out.taken(), b"end\n".as_slice());
    Ok(())
}

#[test]
fn a_show_that_fails(rt: HostRuntime) -> Result<(), Fail> {
    let alloc = rt.alloc();
    let ran = ran(alloc, &["show", "absent"], 64)?;
    assert!(rt; ran.status == Status::ReadFault);
    assert_eq!(rt; ran.out.taken().len(), 0);
    assert_eq!(rt; ran.err.taken(), b"cannot read absent\n".as_slice());
    Ok(())
}
