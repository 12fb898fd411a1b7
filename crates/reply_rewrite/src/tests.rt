//! A case for each row and for each cause, under the key file 00 to 3f; some sealed forms are those that other programs give.

ghost use Rattle.std.specs.Prelude.{◌≤◌, ◌<◌, ◌^◌, length, All, IfSome, IsTrue};
ghost use Rattle.zk_messages.specs.Replies.{HasShape};
ghost use Rattle.reply_rewrite.specs.Shapes.{shape_for};
ghost use Rattle.request_queue.specs.Short.{HasShortPath, IsShortPath};
ghost use Rattle.zk_messages.specs.Short.{IsShort};
ghost use Rattle.reply_rewrite.specs.Short.{AreShortNames, HasShortParts, IsShortResult};

use super::*;
use jute_core::{Bytes, Text, Texts};
use path_seal::{seal_name, seal_path};
use payload_seal::{EntryKeys, Flaw, read_keys, seal_data};
use request_queue::{Asked, AskedOp, AskedOps};
use std::alloc::Global;
use std::test::Fail;
use zk_messages::{OpResult, Outcome, Reply, Results, Shape};
use zk_path::{Path, read_path, read_stem};
use zk_records::{Acl, Acls, Stat};

const FILE: [u8; 64] = [
    0, 1, 2, 3, 4, 5, 6, 7, 8, 9, 10, 11, 12, 13, 14, 15, 16, 17, 18, 19, 20, 21, 22, 23, 24, 25,
    26, 27, 28, 29, 30, 31, 32, 33, 34, 35, 36, 37, 38, 39, 40, 41, 42, 43, 44, 45, 46, 47, 48, 49,
    50, 51, 52, 53, 54, 55, 56, 57, 58, 59, 60, 61, 62, 63,
];

const SEALED_APP: &str = "/fe4506f06cc3efab7cb19ac1dbcadd8ac5ebcd31cd575fa57ce33a0f2094fe";

// "/q/n-0000000001".
const SEALED_NUMBERED: &str =
    "/32c8bcbdfdc48170ded594ff87ec2249754ee0ae8dd98814ab8fde07ca/a0854f08f75ce9249636bab1493b9b1ec6ad37350677e13a6b61dbef20fda51eb6fc4cf9d629949c";

// "hello" for "/app".
const HELLO: &str =
    "0000000000000001000000009bb332b6446a4226dcc6d3c194c4982ca239c3d518f7f01d682d2f5c3533d15e3e2190748156a742a6e20d6f4d0807b2932c613c24f9";

// The same with another tag, and a payload for "/app" with the flag 4.
const ANOTHER_TAG: &str =
    "0000000000000001000000009bb332b6446a4226dcc6d3c194c4982ca239c3d518f7f01d682d2f5c3533d15e3e2190748156a742a6e20d6f4d0807b2932c613c24f8";

const FLAG_4: &str =
    "0000000000000001000000009fb332b6446a4226dcc6d3c194c4982ca239c3d518f7f01d682d2f5c3533d15e3ec1d260851f162886f90ced6fc0134492";

// "one" for the stem "/q/n-".
const ONE: &str =
    "0000000000000001000000009a4702209d2f41664a4ca9ae5104b79f75739a3e753fdb05e2dda7d7bd5d1fbd10269b7d4e5679e5d034dfec1b49db0bf1a7cf8d";

// ---- what may be passed to `unveil_reply`

fn has_shape(shape: Shape, outcome: &Outcome) -> bool
    ensures { IsTrue result → HasShape shape outcome.now }
{
    match (shape, outcome) {
        (_, Outcome::Error { code: _ }) => true,
        (Shape::Empty, Outcome::Empty) => true,
        (Shape::Path, Outcome::Path(_)) => true,
        (Shape::Created2, Outcome::Created2 { path: _, stat: _ }) => true,
        (Shape::Stat, Outcome::Stat(_)) => true,
        (
            Shape::Content,
            Outcome::Content {
                content: _,
                stat: _,
            },
        ) => true,
        (Shape::Acls, Outcome::Acls { acls: _, stat: _ }) => true,
        (Shape::Children, Outcome::Children(_)) => true,
        (
            Shape::Children2,
            Outcome::Children2 {
                children: _,
                stat: _,
            },
        ) => true,
        (Shape::Multi, Outcome::Multi(_)) => true,
        _ => false,
    }
}

fn are_short_names(list: &Option<Texts>) -> bool
    ensures { IsTrue result → AreShortNames list.now }
{
    match list {
        Some(texts) => {
            texts.len() < 100_000 && texts.as_slice().iter().all(|text| text.len() < 1000)
        }
        None => true,
    }
}

#[tactic(auto, unfolding(crate::specs::Short::IsShortResult))]
fn is_short_result(stored: &OpResult) -> bool
    ensures { IsTrue result → IsShortResult stored.now }
{
    match stored {
        OpResult::Created(text) => text.len() < 1000,
        OpResult::Created2 { path, stat: _ } => path.len() < 1000,
        _ => true,
    }
}

fn are_short_results(stored: &Results) -> bool
    ensures short { IsTrue result → All IsShortResult stored.now }
    ensures few { IsTrue result → length stored.now < 2 ^ 32 }
{
    stored.len() < 100
        && stored
            .as_slice()
            .iter()
            .all(|stored| is_short_result(stored))
}

#[tactic(auto, unfolding(crate::specs::Short::HasShortParts))]
fn is_short(outcome: &Outcome) -> bool
    ensures { IsTrue result → HasShortParts outcome.now }
{
    match outcome {
        Outcome::Path(text) => text.len() < 1000,
        Outcome::Created2 { path, stat: _ } => path.len() < 1000,
        Outcome::Content {
            content: Some(bytes),
            stat: _,
        } => bytes.len() < 1000,
        Outcome::Children(list) => are_short_names(list),
        Outcome::Children2 { children, stat: _ } => are_short_names(children),
        Outcome::Multi(stored) => are_short_results(stored),
        _ => true,
    }
}

#[tactic(auto, unfolding(request_queue::specs::Short::HasShortPath))]
fn has_short_path(asked: &Asked) -> bool
    ensures { IsTrue result → HasShortPath asked.now }
{
    match asked {
        Asked::Children { path } | Asked::Children2 { path } => path.text().len() < 1000,
        Asked::Multi(ops) => ops.len() < 100,
        _ => true,
    }
}

// ---- requests

fn path_of(alloc: Global, text: &str) -> Result<Path, Fail> {
    if text.len() > 1000 {
        return Err("a long path".into());
    }
    Ok(read_path(alloc, text).map_err(|_| "no path")?)
}

fn create(alloc: Global, text: &str) -> Result<Asked, Fail> {
    let path = path_of(alloc, text)?;
    Ok(Asked::Create {
        path,
        sequential: false,
    })
}

fn sequential(alloc: Global, text: &str) -> Result<Asked, Fail> {
    if text.len() > 1000 {
        return Err("a long stem".into());
    }
    let path = read_stem(alloc, text).map_err(|_| "no stem")?;
    Ok(Asked::Create {
        path,
        sequential: true,
    })
}

fn create2(alloc: Global, text: &str) -> Result<Asked, Fail> {
    let path = path_of(alloc, text)?;
    Ok(Asked::Create2 {
        path,
        sequential: false,
    })
}

fn stat_of(alloc: Global, text: &str) -> Result<Asked, Fail> {
    let path = path_of(alloc, text)?;
    Ok(Asked::StatOf { path })
}

fn get_content(alloc: Global, text: &str) -> Result<Asked, Fail> {
    let path = path_of(alloc, text)?;
    Ok(Asked::Content { path })
}

fn get_acl(alloc: Global, text: &str) -> Result<Asked, Fail> {
    let path = path_of(alloc, text)?;
    Ok(Asked::AclOf { path })
}

fn get_children(alloc: Global, text: &str) -> Result<Asked, Fail> {
    let path = path_of(alloc, text)?;
    Ok(Asked::Children { path })
}

fn get_children2(alloc: Global, text: &str) -> Result<Asked, Fail> {
    let path = path_of(alloc, text)?;
    Ok(Asked::Children2 { path })
}

fn sync(alloc: Global, text: &str) -> Result<Asked, Fail> {
    let path = path_of(alloc, text)?;
    Ok(Asked::SyncOf { path })
}

// Four operations: create "/app", delete, setData "/app", check.
fn four(alloc: Global) -> Result<Asked, Fail> {
    let made = path_of(alloc, "/app")?;
    let changed = path_of(alloc, "/app")?;
    let create = AskedOp::Create {
        path: made,
        sequential: false,
    };
    let ops = vec![in alloc;
        create,
        AskedOp::Delete,
        AskedOp::SetContent { path: changed },
        AskedOp::Check,
    ]?;
    Ok(Asked::Multi(AskedOps::of(ops)))
}

// Two operations: create2 "/app", check.
fn two(alloc: Global) -> Result<Asked, Fail> {
    let create2 = AskedOp::Create2 {
        path: path_of(alloc, "/app")?,
        sequential: false,
    };
    let ops = vec![in alloc; create2, AskedOp::Check]?;
    Ok(Asked::Multi(AskedOps::of(ops)))
}

// ---- answers

fn stat(length: i32) -> Stat {
    Stat {
        czxid: 1,
        mzxid: 2,
        ctime: 3,
        mtime: 4,
        version: 5,
        cversion: 6,
        aversion: 7,
        owner: 8,
        length,
        children: 9,
        pzxid: 10,
    }
}

fn text(alloc: Global, text: &str) -> Result<Outcome, Fail> {
    Ok(Outcome::Path(Text::copy_of(alloc, text)?))
}

fn made(alloc: Global, path: &str, length: i32) -> Result<Outcome, Fail> {
    Ok(Outcome::Created2 {
        path: Text::copy_of(alloc, path)?,
        stat: stat(length),
    })
}

// A payload in hex, or null.
fn content(alloc: Global, payload: Option<&str>, length: i32) -> Result<Outcome, Fail> {
    let content = match payload {
        Some(payload) => Some(Bytes::of(hex::decode(alloc, payload)?)),
        None => None,
    };
    Ok(Outcome::Content {
        content,
        stat: stat(length),
    })
}

fn acls(alloc: Global, perms: i32, length: i32) -> Result<Outcome, Fail> {
    let acl = Acl {
        perms,
        scheme: Text::copy_of(alloc, "world")?,
        id: Text::copy_of(alloc, "anyone")?,
    };
    let acls = Some(Acls::of(vec![in alloc; acl]?));
    Ok(Outcome::Acls {
        acls,
        stat: stat(length),
    })
}

// A name that is sealed under a path.
fn sealed_name(alloc: Global, parent: &str, name: &str) -> Result<Text, Fail> {
    let keys = read_keys(&FILE)?;
    let parent = path_of(alloc, parent)?;
    if parent.text().len() > 1000 || name.len() > 1000 {
        return Err("a long name".into());
    }
    Ok(seal_name(alloc, &keys.names, &parent, name)?)
}

// The names that are sealed under a path, in this order.
fn sealed_names(alloc: Global, parent: &str, names: &[&str]) -> Result<Texts, Fail> {
    let mut sealed = Vec::new(alloc);
    for name in names {
        sealed.push(sealed_name(alloc, parent, name)?)?;
    }
    Ok(Texts::of(sealed))
}

fn children(alloc: Global, parent: &str, names: &[&str]) -> Result<Outcome, Fail> {
    Ok(Outcome::Children(Some(sealed_names(alloc, parent, names)?)))
}

fn children2(alloc: Global, parent: &str, names: &[&str], length: i32) -> Result<Outcome, Fail> {
    Ok(Outcome::Children2 {
        children: Some(sealed_names(alloc, parent, names)?),
        stat: stat(length),
    })
}

// The results of the four operations: these, in order.
fn done(alloc: Global, made: &str, length: i32) -> Result<Outcome, Fail> {
    let made = OpResult::Created(Text::copy_of(alloc, made)?);
    let changed = OpResult::Changed(stat(length));
    let results = vec![in alloc; made, OpResult::Deleted, changed, OpResult::Checked]?;
    Ok(Outcome::Multi(Results::of(results)))
}

// The results of the two operations.
fn done_two(alloc: Global, made: OpResult) -> Result<Outcome, Fail> {
    let results = vec![in alloc; made, OpResult::Checked]?;
    Ok(Outcome::Multi(Results::of(results)))
}

fn made_in_multi(alloc: Global, path: &str, length: i32) -> Result<Outcome, Fail> {
    let made = OpResult::Created2 {
        path: Text::copy_of(alloc, path)?,
        stat: stat(length),
    };
    done_two(alloc, made)
}

// ---- what a client is told

fn told(alloc: Global, asked: &Asked, outcome: Outcome) -> Result<(Outcome, Option<Cause>), Fail> {
    let keys = read_keys(&FILE)?;
    if let Asked::Refused { code: 0 } = asked {
        return Err("a refusal without a code".into());
    }
    if !has_shape(shape_of(asked), &outcome) || !has_short_path(asked) || !is_short(&outcome) {
        return Err("no case".into());
    }
    let reply = Reply {
        xid: 7,
        zxid: 9,
        outcome,
    };
    let (reply, cause) = unveil_reply(alloc, &keys, asked, reply)?;
    if reply.xid != 7 || reply.zxid != 9 {
        return Err("another header".into());
    }
    Ok((reply.outcome, cause))
}

// The cause of an error of code -5.
fn cause_of(alloc: Global, asked: &Asked, outcome: Outcome) -> Result<Cause, Fail> {
    let (outcome, cause) = told(alloc, asked, outcome)?;
    let Outcome::Error { code: -5 } = outcome else {
        return Err("no error".into());
    };
    Ok(cause.ok_or("no cause")?)
}

// An answer without a cause.
fn plain_of(alloc: Global, asked: &Asked, outcome: Outcome) -> Result<Outcome, Fail> {
    let (outcome, cause) = told(alloc, asked, outcome)?;
    if cause.is_some() {
        return Err("a cause".into());
    }
    Ok(outcome)
}

// What the text of a path becomes.
fn path_told(alloc: Global, asked: &Asked, stored: &str) -> Result<Text, Fail> {
    let stored = text(alloc, stored)?;
    match plain_of(alloc, asked, stored)? {
        Outcome::Path(path) => Ok(path),
        _ => Err("no path".into()),
    }
}

fn is_created(alloc: Global, asked: &str, stored: &str) -> Result<bool, Fail> {
    let asked_path = create(alloc, asked)?;
    let told = path_told(alloc, &asked_path, stored)?;
    Ok(told.as_str() == asked)
}

fn is_numbered(alloc: Global, stem: &str, stored: &str, number: &str) -> Result<bool, Fail> {
    let asked = sequential(alloc, stem)?;
    let told = path_told(alloc, &asked, stored)?;
    Ok(told.as_str().strip_prefix(stem) == Some(number))
}

fn is_synced(alloc: Global, asked: &str, stored: &str) -> Result<bool, Fail> {
    let asked_path = sync(alloc, asked)?;
    let told = path_told(alloc, &asked_path, stored)?;
    Ok(told.as_str() == asked)
}

#[test]
fn paths_are_opened(rt: HostRuntime) -> Result<(), Fail> {
    let alloc = rt.alloc();
    assert!(rt; is_created(alloc, "/app", SEALED_APP)?);
    assert!(rt; is_numbered(alloc, "/q/n-", SEALED_NUMBERED, "0000000001")?);
    assert!(rt; is_synced(alloc, "/app", SEALED_APP)?);
    Ok(())
}

#[test]
fn a_create2_is_told_its_path_and_its_stat(rt: HostRuntime) -> Result<(), Fail> {
    let alloc = rt.alloc();
    let asked = create2(alloc, "/app")?;
    let stored = made(alloc, SEALED_APP, 66)?;
    let told = plain_of(alloc, &asked, stored)?;
    assert!(rt;
        matches!(&told, Outcome::Created2 { path, stat: plain } if path.as_str() == "/app" && *plain == stat(5))
    );
    Ok(())
}

#[test]
fn a_create2_in_a_multi_is_told_its_path_and_its_stat(rt: HostRuntime) -> Result<(), Fail> {
    let alloc = rt.alloc();
    let asked = two(alloc)?;
    let stored = made_in_multi(alloc, SEALED_APP, 66)?;
    let Outcome::Multi(results) = plain_of(alloc, &asked, stored)? else {
        return Err("no results".into());
    };
    assert!(rt;
        matches!(results.get(0), Some(OpResult::Created2 { path, stat: plain }) if path.as_str() == "/app" && *plain == stat(5))
    );
    Ok(())
}

// The Stat that a Stat of this length becomes.
fn stat_told(alloc: Global, asked: &str, length: i32) -> Result<Stat, Fail> {
    let asked = stat_of(alloc, asked)?;
    match plain_of(alloc, &asked, Outcome::Stat(stat(length)))? {
        Outcome::Stat(told) => Ok(told),
        _ => Err("no Stat".into()),
    }
}

// The same beside a list of ACLs.
fn acl_told(alloc: Global, asked: &str, length: i32) -> Result<Stat, Fail> {
    let asked = get_acl(alloc, asked)?;
    let stored = acls(alloc, 31, length)?;
    let told = plain_of(alloc, &asked, stored)?;
    match &told {
        Outcome::Acls { acls: _, stat } => Ok(*stat),
        _ => Err("no ACLs".into()),
    }
}

#[test]
fn lengths_are_those_of_contents(rt: HostRuntime) -> Result<(), Fail> {
    let alloc = rt.alloc();
    for (path, stored, plain) in [("/a", 66, 5), ("/a", 61, 0), ("/", 0, 0)] {
        assert!(rt; stat_told(alloc, path, stored)? == stat(plain));
        assert!(rt; acl_told(alloc, path, stored)? == stat(plain));
    }
    Ok(())
}

// Whether a payload with a stored length becomes this content with this length.
fn is_content(
    alloc: Global,
    asked: &str,
    (payload, stored): (&str, i32),
    (plain, wanted): (&str, i32),
) -> Result<bool, Fail> {
    let asked = get_content(alloc, asked)?;
    let stored = content(alloc, Some(payload), stored)?;
    let told = plain_of(alloc, &asked, stored)?;
    let Outcome::Content {
        content: bytes,
        stat: length,
    } = &told
    else {
        return Ok(false);
    };
    let is_plain = match bytes {
        Some(bytes) => bytes.as_slice() == plain.as_bytes(),
        None => false,
    };
    Ok(is_plain && *length == stat(wanted))
}

#[test]
fn contents_are_opened(rt: HostRuntime) -> Result<(), Fail> {
    let alloc = rt.alloc();
    assert!(rt; is_content(alloc, "/app", (HELLO, 66), ("hello", 5))?);
    assert!(rt; is_content(alloc, "/q/n-0000000001", (ONE, 64), ("one", 3))?);
    Ok(())
}

fn are_names(list: &Option<Texts>, names: &[&str]) -> bool {
    let Some(texts) = list else {
        return false;
    };
    texts.len() == names.len()
        && texts
            .as_slice()
            .iter()
            .zip(names)
            .all(|(text, name)| text.as_str() == *name)
}

fn are_children(alloc: Global, stored: &[&str], plain: &[&str]) -> Result<bool, Fail> {
    let asked = get_children(alloc, "/a")?;
    let stored = children(alloc, "/a", stored)?;
    match plain_of(alloc, &asked, stored)? {
        Outcome::Children(list) => Ok(are_names(&list, plain)),
        _ => Err("no children".into()),
    }
}

fn are_children2(alloc: Global, stored: &[&str], plain: &[&str]) -> Result<bool, Fail> {
    let asked = get_children2(alloc, "/")?;
    let stored = children2(alloc, "/", stored, 0)?;
    let told = plain_of(alloc, &asked, stored)?;
    let Outcome::Children2 {
        children: list,
        stat: length,
    } = &told
    else {
        return Ok(false);
    };
    Ok(are_names(list, plain) && *length == stat(0))
}

#[test]
fn children_are_opened_in_byte_order(rt: HostRuntime) -> Result<(), Fail> {
    let alloc = rt.alloc();
    let stored = ["b", "ä", "B", "ab", "a"];
    let plain = ["B", "a", "ab", "b", "ä"];
    assert!(rt; are_children(alloc, &stored, &plain)?);
    assert!(rt; are_children2(alloc, &stored, &plain)?);
    assert!(rt; are_children(alloc, &[], &[])?);
    Ok(())
}

fn are_four(results: &Results) -> bool {
    let made = matches!(results.get(0), Some(OpResult::Created(path)) if path.as_str() == "/app");
    let removed = matches!(results.get(1), Some(OpResult::Deleted));
    let changed = matches!(results.get(2), Some(OpResult::Changed(told)) if *told == stat(5));
    let checked = matches!(results.get(3), Some(OpResult::Checked));
    results.len() == 4 && made && removed && changed && checked
}

fn results_told(alloc: Global, stored: Outcome) -> Result<Results, Fail> {
    let asked = four(alloc)?;
    match plain_of(alloc, &asked, stored)? {
        Outcome::Multi(results) => Ok(results),
        _ => Err("no results".into()),
    }
}

#[test]
fn results_are_opened(rt: HostRuntime) -> Result<(), Fail> {
    let stored = done(rt.alloc(), SEALED_APP, 66)?;
    let results = results_told(rt.alloc(), stored)?;
    assert!(rt; are_four(&results));
    Ok(())
}

// The results of a multi of which the second operation failed.
fn failed(alloc: Global) -> Result<Outcome, Fail> {
    let mut codes = Vec::new(alloc);
    for code in [0, -101, -2, -2] {
        codes.push(OpResult::Error { code })?;
    }
    Ok(Outcome::Multi(Results::of(codes)))
}

#[test]
fn errors_in_a_multi_are_passed_on(rt: HostRuntime) -> Result<(), Fail> {
    let stored = failed(rt.alloc())?;
    let results = results_told(rt.alloc(), stored)?;
    assert!(rt; matches!(results.get(0), Some(OpResult::Error { code: 0 })));
    assert!(rt; matches!(results.get(1), Some(OpResult::Error { code: -101 })));
    Ok(())
}

// The code of the error that a client is told.
fn code_told(alloc: Global, asked: &Asked, stored: Outcome) -> Result<i32, Fail> {
    match plain_of(alloc, asked, stored)? {
        Outcome::Error { code } => Ok(code),
        _ => Err("no error".into()),
    }
}

#[test]
fn errors_are_passed_on(rt: HostRuntime) -> Result<(), Fail> {
    let alloc = rt.alloc();
    let missing = code_told(alloc, &Asked::Empty, Outcome::Error { code: -101 })?;
    assert_eq!(rt; missing, -101);
    for stored in [Outcome::Stat(stat(99)), Outcome::Error { code: -4 }] {
        let refused = code_told(alloc, &Asked::Refused { code: -8 }, stored)?;
        assert_eq!(rt; refused, -8);
    }
    Ok(())
}

#[test]
fn empty_answers_are_passed_on(rt: HostRuntime) -> Result<(), Fail> {
    for asked in [Asked::Empty, Asked::Close] {
        let told = plain_of(rt.alloc(), &asked, Outcome::Empty)?;
        assert!(rt; matches!(told, Outcome::Empty));
    }
    Ok(())
}

// ---- causes

fn create_cause(alloc: Global, asked: &str, stored: &str) -> Result<Cause, Fail> {
    let asked = create(alloc, asked)?;
    let stored = text(alloc, stored)?;
    cause_of(alloc, &asked, stored)
}

fn sequential_cause(alloc: Global, stem: &str, stored: &str) -> Result<Cause, Fail> {
    let asked = sequential(alloc, stem)?;
    let stored = text(alloc, stored)?;
    cause_of(alloc, &asked, stored)
}

fn sync_cause(alloc: Global, asked: &str, stored: &str) -> Result<Cause, Fail> {
    let asked = sync(alloc, asked)?;
    let stored = text(alloc, stored)?;
    cause_of(alloc, &asked, stored)
}

fn stat_cause(alloc: Global, asked: &str, length: i32) -> Result<Cause, Fail> {
    let asked = stat_of(alloc, asked)?;
    cause_of(alloc, &asked, Outcome::Stat(stat(length)))
}

fn acl_cause(alloc: Global, perms: i32, length: i32) -> Result<Cause, Fail> {
    let asked = get_acl(alloc, "/a")?;
    let stored = acls(alloc, perms, length)?;
    cause_of(alloc, &asked, stored)
}

fn content_cause(
    alloc: Global,
    asked: &str,
    payload: Option<&str>,
    length: i32,
) -> Result<Cause, Fail> {
    let asked = get_content(alloc, asked)?;
    let stored = content(alloc, payload, length)?;
    cause_of(alloc, &asked, stored)
}

// The cause of names that are sealed under this path, as children of "/a".
fn children_cause(alloc: Global, under: &str, names: &[&str]) -> Result<Cause, Fail> {
    let asked = get_children(alloc, "/a")?;
    let stored = children(alloc, under, names)?;
    cause_of(alloc, &asked, stored)
}

fn children2_cause(alloc: Global, under: &str, names: &[&str]) -> Result<Cause, Fail> {
    let asked = get_children2(alloc, "/a")?;
    let stored = children2(alloc, under, names, 60)?;
    cause_of(alloc, &asked, stored)
}

fn null_children_cause(alloc: Global) -> Result<Cause, Fail> {
    let asked = get_children(alloc, "/a")?;
    cause_of(alloc, &asked, Outcome::Children(None))
}

fn done_cause(alloc: Global, made: &str, length: i32) -> Result<Cause, Fail> {
    let asked = four(alloc)?;
    let stored = done(alloc, made, length)?;
    cause_of(alloc, &asked, stored)
}

fn multi_cause(alloc: Global, results: Vec<OpResult>) -> Result<Cause, Fail> {
    let asked = four(alloc)?;
    cause_of(alloc, &asked, Outcome::Multi(Results::of(results)))
}

#[test]
fn wrong_paths_are_told(rt: HostRuntime) -> Result<(), Fail> {
    let alloc = rt.alloc();
    assert_eq!(rt; create_cause(alloc, "/b", SEALED_APP)?, Cause::Created);
    assert_eq!(rt; create_cause(alloc, "/app", "/app")?, Cause::Created);
    // Nine digits follow the stem.
    assert_eq!(rt;
        sequential_cause(alloc, "/q/n-0", SEALED_NUMBERED)?,
        Cause::Created
    );
    assert_eq!(rt; sync_cause(alloc, "/b", SEALED_APP)?, Cause::SyncPath);
    Ok(())
}

fn create2_cause(alloc: Global, stored: &str, length: i32) -> Result<Cause, Fail> {
    let asked = create2(alloc, "/app")?;
    let stored = made(alloc, stored, length)?;
    cause_of(alloc, &asked, stored)
}

fn two_cause(alloc: Global, stored: Outcome) -> Result<Cause, Fail> {
    let asked = two(alloc)?;
    cause_of(alloc, &asked, stored)
}

// The path is judged before the length.
#[test]
fn wrong_answers_to_a_create2_are_told(rt: HostRuntime) -> Result<(), Fail> {
    let alloc = rt.alloc();
    assert_eq!(rt; create2_cause(alloc, SEALED_NUMBERED, 60)?, Cause::Created);
    assert_eq!(rt;
        create2_cause(alloc, SEALED_APP, 60)?,
        Cause::Length { stored: 60 }
    );
    Ok(())
}

#[test]
fn wrong_results_of_a_create2_are_told(rt: HostRuntime) -> Result<(), Fail> {
    let alloc = rt.alloc();
    let other = made_in_multi(alloc, SEALED_NUMBERED, 60)?;
    assert_eq!(rt; two_cause(alloc, other)?, Cause::MultiCreated { index: 0 });
    let short = made_in_multi(alloc, SEALED_APP, 60)?;
    assert_eq!(rt; two_cause(alloc, short)?, Cause::MultiLength { index: 0 });
    let as_create = OpResult::Created(Text::copy_of(alloc, SEALED_APP)?);
    let as_create = done_two(alloc, as_create)?;
    assert_eq!(rt; two_cause(alloc, as_create)?, Cause::MultiKind { index: 0 });
    Ok(())
}

#[test]
fn wrong_lengths_and_acls_are_told(rt: HostRuntime) -> Result<(), Fail> {
    let alloc = rt.alloc();
    for (path, stored) in [("/a", 60), ("/a", -1), ("/", 61)] {
        assert_eq!(rt; stat_cause(alloc, path, stored)?, Cause::Length { stored });
    }
    assert_eq!(rt; acl_cause(alloc, 1, 60)?, Cause::Acl);
    assert_eq!(rt; acl_cause(alloc, 31, 60)?, Cause::Length { stored: 60 });
    Ok(())
}

#[test]
fn wrong_contents_are_told(rt: HostRuntime) -> Result<(), Fail> {
    let alloc = rt.alloc();
    let short = Cause::Payload(Flaw::Short { length: 0 });
    let flag = Cause::Payload(Flaw::BadFlag { flag: 4 });
    for (payload, stored, cause) in [
        (Some(HELLO), 67, Cause::Length { stored: 67 }),
        (Some(HELLO), 60, Cause::Length { stored: 60 }),
        (None, 66, short),
        (Some(ANOTHER_TAG), 66, Cause::Payload(Flaw::BadTag)),
        (Some(FLAG_4), 66, flag),
    ] {
        assert_eq!(rt; content_cause(alloc, "/app", payload, stored)?, cause);
    }
    let other = content_cause(alloc, "/a", Some(HELLO), 66)?;
    assert!(rt;
        matches!(
            other,
            Cause::Payload(Flaw::WrongPath {
                sealed: _,
                asked: _
            })
        )
    );
    Ok(())
}

#[test]
fn wrong_children_are_told(rt: HostRuntime) -> Result<(), Fail> {
    let alloc = rt.alloc();
    assert_eq!(rt; null_children_cause(alloc)?, Cause::NullChildren);
    assert_eq!(rt;
        children_cause(alloc, "/b", &["x"])?,
        Cause::Child { index: 0 }
    );
    assert_eq!(rt;
        children_cause(alloc, "/a", &["x", ".", "x"])?,
        Cause::Child { index: 1 }
    );
    assert_eq!(rt;
        children_cause(alloc, "/a", &["x", "y", "x", "."])?,
        Cause::Doubled { index: 2 }
    );
    Ok(())
}

#[test]
fn wrong_children_are_told_before_the_length(rt: HostRuntime) -> Result<(), Fail> {
    let alloc = rt.alloc();
    assert_eq!(rt;
        children2_cause(alloc, "/b", &["x"])?,
        Cause::Child { index: 0 }
    );
    assert_eq!(rt;
        children2_cause(alloc, "/a", &["x"])?,
        Cause::Length { stored: 60 }
    );
    Ok(())
}

#[test]
fn wrong_results_are_told(rt: HostRuntime) -> Result<(), Fail> {
    let alloc = rt.alloc();
    let none = multi_cause(alloc, Vec::new(alloc))?;
    assert_eq!(rt; none, Cause::MultiCount { asked: 4, got: 0 });
    assert_eq!(rt;
        done_cause(alloc, "/app", 66)?,
        Cause::MultiCreated { index: 0 }
    );
    assert_eq!(rt;
        done_cause(alloc, SEALED_APP, 60)?,
        Cause::MultiLength { index: 2 }
    );
    Ok(())
}

#[test]
fn a_success_after_an_error_is_told(rt: HostRuntime) -> Result<(), Fail> {
    let alloc = rt.alloc();
    let late = vec![in alloc;
        OpResult::Error { code: -2 },
        OpResult::Deleted,
        OpResult::Checked,
        OpResult::Checked,
    ]?;
    let late = multi_cause(alloc, late)?;
    assert_eq!(rt; late, Cause::MultiKind { index: 1 });
    Ok(())
}

#[test]
fn a_result_of_another_kind_is_told(rt: HostRuntime) -> Result<(), Fail> {
    let alloc = rt.alloc();
    let kinds = vec![in alloc;
        OpResult::Deleted,
        OpResult::Deleted,
        OpResult::Checked,
        OpResult::Checked,
    ]?;
    let kinds = multi_cause(alloc, kinds)?;
    assert_eq!(rt; kinds, Cause::MultiKind { index: 0 });
    Ok(())
}
