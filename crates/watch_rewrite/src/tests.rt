//! Sealed forms that other programs give for the key 00 to 0f and the salt 20 to 3f.

ghost use Rattle.std.specs.Prelude.{◌≤◌, ◌^◌, length, IfOk};
ghost use Rattle.zk_path.specs.Paths.{IsPathText};
ghost use Rattle.zk_messages.specs.Short.{IsShort};

use super::*;
use jute_core::{Text, Texts};
use path_seal::NameKeys;
use std::alloc::Global;
use std::test::Fail;
use zk_messages::Event;
use zk_path::check_path;
use zk_records::SetWatches;

const SEALED_A: &str = "/a8a6003f2e1d1454a606ec55a44e776c7e0ed81bb2329ff66131bb291b";

const SEALED_A_A: &str =
    "/a8a6003f2e1d1454a606ec55a44e776c7e0ed81bb2329ff66131bb291b/7259a8d3ee8f5c4a59fdeebe8e1e6217ee6b45e9b115897101e9bed716";

const SEALED_B: &str = "/a296b980a57b9a9cc271666a3882026e008cfecca5fe7ee43dd4a4f69d";

fn keys() -> NameKeys {
    NameKeys::new(
        [0, 1, 2, 3, 4, 5, 6, 7, 8, 9, 10, 11, 12, 13, 14, 15],
        [
            32, 33, 34, 35, 36, 37, 38, 39, 40, 41, 42, 43, 44, 45, 46, 47, 48, 49, 50, 51, 52, 53,
            54, 55, 56, 57, 58, 59, 60, 61, 62, 63,
        ],
    )
}

// The text of a legal path.
fn path_text(alloc: Global, text: &str) -> Result<Text, Fail>
    requires { length text.now ≤ 2 ^ 27 }
    ensures legal { IfOk result IsPathText }
    ensures short { IfOk result IsShort }
{
    if check_path(text).is_some() {
        return Err("no legal path".into());
    }
    Ok(Text::copy_of(alloc, text)?)
}

#[test]
fn watches_are_sealed_as_elsewhere_and_in_order(rt: HostRuntime) -> Result<(), Fail> {
    let alloc = rt.alloc();
    let content = vec![in alloc; path_text(alloc, "/b")?, path_text(alloc, "/a/a")?]?;
    let child = vec![in alloc; path_text(alloc, "/a")?]?;
    let watches = SetWatches {
        seen: 7,
        content_paths: Some(Texts::of(content)),
        exist_paths: None,
        child_paths: Some(Texts::of(child)),
    };
    let veiled = veil_set_watches(alloc, &keys(), &watches)?;
    assert_eq!(rt; veiled.seen, 7);
    let content = veiled.content_paths.ok_or("no content paths")?;
    assert_eq!(rt; content.len(), 2);
    assert!(rt; content.get(0).is_some_and(|text| text.as_str() == SEALED_B));
    assert!(rt;
        content
            .get(1)
            .is_some_and(|text| text.as_str() == SEALED_A_A)
    );
    assert!(rt; veiled.exist_paths.is_none());
    let child = veiled.child_paths.ok_or("no child paths")?;
    assert_eq!(rt; child.len(), 1);
    assert!(rt; child.get(0).is_some_and(|text| text.as_str() == SEALED_A));
    Ok(())
}

fn event(alloc: Global, kind: i32, state: i32, path: &str) -> Result<Event, Fail> {
    Ok(Event {
        kind,
        state,
        path: Text::copy_of(alloc, path)?,
    })
}

#[test]
fn events_are_opened(rt: HostRuntime) -> Result<(), Fail> {
    let alloc = rt.alloc();
    for (kind, sealed, plain) in [
        (1, SEALED_A, "/a"),
        (2, SEALED_B, "/b"),
        (3, SEALED_A_A, "/a/a"),
        (4, "/", "/"),
    ] {
        let told = event(alloc, kind, 3, sealed)?;
        assert!(rt; told.path.len() < 256);
        let opened = unveil_event(alloc, &keys(), &told).map_err(|_| "not opened")?;
        assert_eq!(rt; (opened.kind, opened.state), (kind, 3));
        assert!(rt; opened.path.as_str() == plain);
    }
    Ok(())
}

#[test]
fn the_first_flaw_of_an_event_is_told(rt: HostRuntime) -> Result<(), Fail> {
    let alloc = rt.alloc();
    for (kind, state, path, flaw) in [
        (0, 2, SEALED_A, EventFlaw::Kind { kind: 0 }),
        (5, 3, SEALED_A, EventFlaw::Kind { kind: 5 }),
        (-1, 0, "/x", EventFlaw::Kind { kind: -1 }),
        (1, 0, "/x", EventFlaw::State { state: 0 }),
        (4, 5, SEALED_A, EventFlaw::State { state: 5 }),
        (3, 3, "/x", EventFlaw::Path),
        (3, 3, "", EventFlaw::Path),
    ] {
        let told = event(alloc, kind, state, path)?;
        assert!(rt; told.path.len() < 256);
        let found = unveil_event(alloc, &keys(), &told).err();
        assert_eq!(rt; found, Some(NotEvent::Bad(flaw)));
    }
    Ok(())
}
