//! Texts with the places of their first faults, and each allocating call with ample memory.

use super::*;
use jute_core::{Memory, Text};
use std::alloc::Global;
use std::test::Fail;

#[test]
fn paths_and_their_places(rt: HostRuntime) {
    let table = [
        ("/", None),
        ("", Some(0)),
        ("a", Some(0)),
        ("a/b", Some(0)),
        ("//", Some(1)),
        ("//a", Some(1)),
        ("/a/", Some(3)),
        ("/a//b", Some(3)),
        ("/.", Some(1)),
        ("/a/./b", Some(3)),
        ("/a/..", Some(3)),
        ("/../..", Some(1)),
        ("/a/.../b", None),
        ("/a/..b", None),
        ("/ab/c/d", None),
        ("/é/\u{1}", Some(4)),
        ("/ok/a\u{1f}", Some(4)),
        ("/a\u{20}b", None),
        ("/a\u{7e}", None),
        ("/a\u{7f}", Some(1)),
        ("/a\u{9f}", Some(1)),
        ("/a\u{a0}", None),
        ("/a\u{d7ff}", None),
        ("/a\u{e000}", Some(1)),
        ("/a\u{f8ff}", Some(1)),
        ("/a\u{f900}", None),
        ("/a\u{ffef}", None),
        ("/a\u{fff0}", Some(1)),
        ("/a\u{ffff}", Some(1)),
        ("/a\u{10000}", None),
        ("/a/\u{1f512}", None),
    ];
    for (text, place) in table {
        assert!(rt; text.len() < 16);
        assert_eq!(rt; check_path(text), place, "at {text}");
    }
}

#[test]
fn stems_and_their_places(rt: HostRuntime) {
    let table = [
        ("/", None),
        ("", Some(0)),
        ("a/", Some(0)),
        ("/a/", None),
        ("/a/.", None),
        ("/a/..", None),
        ("//", Some(1)),
        ("/a/./x", Some(3)),
        ("/a/../", Some(3)),
        ("/a/b\u{fff0}", Some(3)),
        ("/a/\u{1f512}-", None),
    ];
    for (text, place) in table {
        assert!(rt; text.len() < 16);
        assert_eq!(rt; check_stem(text), place, "at {text}");
    }
}

// The text, the last component, the parent's text and the text of the child `x`.
fn described(alloc: Global, path: &Path) -> Result<String, Memory> {
    let parent = path.parent()?;
    let above = match &parent {
        Some(parent) => parent.text(),
        None => "none",
    };
    let child = path.joined("x")?;
    let last = path.last().unwrap_or("none");
    let same = path.same(path) && !path.same(&child);
    let line = format!(in alloc;
        "{} {last} {above} {} {} {same}",
        path.text(),
        child.text(),
        path.is_root()
    )?;
    Ok(line)
}

#[test]
fn a_path_and_its_neighbours(rt: HostRuntime) -> Result<(), Fail> {
    let alloc = rt.alloc();
    let table = [
        ("/", "/ none none /x true true"),
        ("/a", "/a a / /a/x false true"),
        (
            "/a/b\u{1f512}",
            "/a/b\u{1f512} b\u{1f512} /a /a/b\u{1f512}/x false true",
        ),
    ];
    for (text, line) in table {
        let path = read_path(alloc, text)?;
        assert_eq!(rt; described(alloc, &path)?.as_str(), line);
    }
    Ok(())
}

#[test]
fn a_stem_is_not_the_root(rt: HostRuntime) -> Result<(), Fail> {
    let alloc = rt.alloc();
    let stem = read_stem(alloc, "/")?;
    assert_eq!(rt; described(alloc, &stem)?.as_str(), "/  / //x false true");
    assert!(rt; !stem.same(&Path::root(alloc)));
    Ok(())
}

#[test]
fn a_number_is_taken_off(rt: HostRuntime) -> Result<(), Fail> {
    let alloc = rt.alloc();
    let table = [
        ("/", None),
        ("/0000000001", Some("/")),
        ("/a/item-0000000007", Some("/a/item-")),
        ("/a/item-123456789", None),
        ("/a/item-123456789x", None),
        ("/a/12345678901", Some("/a/1")),
        ("/a/0000000001/b", None),
    ];
    for (text, stem) in table {
        let found = read_path(alloc, text)?.without_number()?;
        assert_eq!(rt; found.as_ref().map(|path| path.text()), stem);
    }
    Ok(())
}

fn numbered<N: Numberer>(alloc: Global, numberer: &mut N) -> Result<Text, CannotNumber> {
    numberer.number(alloc, "/a/item-", 42)
}

#[test]
fn digits_follow_the_stem(rt: HostRuntime) -> Result<(), Fail> {
    let text = numbered(rt.alloc(), &mut PlainNumberer)?;
    assert_eq!(rt; text.as_str(), "/a/item-0000000042");
    assert_eq!(rt; digits(i32::MAX), *b"2147483647");
    Ok(())
}

#[test]
fn many_components_are_read_once(rt: HostRuntime) -> Result<(), Fail> {
    let alloc = rt.alloc();
    let mut text = String::new(alloc);
    for _ in 0..100_000 {
        text.push_str("/a")?;
    }
    let legal = text.as_str();
    assert!(rt; legal.len() == 200_000);
    assert_eq!(rt; check_path(legal), None);
    text.push_str("/..")?;
    let illegal = text.as_str();
    assert!(rt; illegal.len() == 200_003);
    assert_eq!(rt; check_path(illegal), Some(200_001));
    Ok(())
}
