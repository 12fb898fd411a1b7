//! Rows on plain paths, call by call, with the numbers that ZooKeeper's rules give; and each type of request with ample
//! memory.

mod multis;
mod watching;

ghost use Rattle.std.specs.Prelude.{◌≤ℤ◌, pos, All, IfOk, IfSome};
ghost use Rattle.zk_messages.specs.Short.{AreShort, HasShortOpParts, HasShortParts, IsShort, IsShortContent};

use super::*;
use jute_core::{Bytes, Text, Texts};
use std::alloc::Global;
use std::test::Fail;
use zk_messages::{Op, Ops, Outcome, Reply, Request};
use zk_path::PlainNumberer;
use zk_records::{
    Acl, Acls, CheckRequest, ConnectRequest, CreateRequest, DeleteRequest, PathOnly, PathWatch,
    SetAclRequest, SetContentRequest, SetWatches, Stat,
};

const GREATEST: i32 = 2_147_483_647;

// The password of session 1.
const PASSWORD: [u8; 16] = [7; 16];

type Plain = Tree<PlainNumberer>;

// What a row asks: paths, contents, flags and versions.
#[derive(Clone, Copy)]
enum Ask {
    Create(&'static str, Option<&'static [u8]>, i32),
    Create2(&'static str, Option<&'static [u8]>, i32),
    Delete(&'static str, i32),
    Exists(&'static str),
    Get(&'static str),
    Set(&'static str, &'static [u8], i32),
    Acl(&'static str),
    SetAcl(&'static str, i32),
    Children(&'static str),
    Children2(&'static str),
    Sync(&'static str),
    Ping,
    Close,
    // exists, getData and getChildren with a watch.
    WatchNode(&'static str),
    WatchContent(&'static str),
    WatchChildren(&'static str),
    // The zxid that was seen, and a path of contents, of existence and of children.
    SetWatches(i64, Option<&'static str>, Option<&'static str>, Option<&'static str>),
    Multi(Part, Part, Part),
}

// A part of a multi: a path, and flags or a version.
#[derive(Clone, Copy)]
enum Part {
    Create(&'static str, i32),
    Create2(&'static str, i32),
    Delete(&'static str, i32),
    Set(&'static str, i32),
    Check(&'static str, i32),
    // Nothing.
    No,
}

fn short_text(alloc: Global, text: &str) -> Result<Text, Fail>
    ensures { IfOk result IsShort }
{
    if text.len() > 1000 {
        return Err("a long text".into());
    }
    Ok(Text::copy_of(alloc, text)?)
}

fn short_content(alloc: Global, content: Option<&[u8]>) -> Result<Option<Bytes>, Fail>
    ensures { IfOk result IsShortContent }
{
    let Some(content) = content else {
        return Ok(None);
    };
    if content.len() > 1000 {
        return Err("a long content".into());
    }
    Ok(Some(Bytes::copy_of(alloc, content)?))
}

fn open_acls(alloc: Global) -> Result<Option<Acls>, Fail> {
    let scheme = Text::copy_of(alloc, "world")?;
    let id = Text::copy_of(alloc, "anyone")?;
    let acl = Acl {
        perms: 31,
        scheme,
        id,
    };
    Ok(Some(Acls::of(vec![in alloc; acl]?)))
}

fn path_watch(alloc: Global, path: &str, watch: bool) -> Result<PathWatch, Fail>
    ensures { IfOk result (λ r. IsShort r.path) }
{
    let path = short_text(alloc, path)?;
    Ok(PathWatch { path, watch })
}

fn path_only(alloc: Global, path: &str) -> Result<PathOnly, Fail>
    ensures { IfOk result (λ r. IsShort r.path) }
{
    let path = short_text(alloc, path)?;
    Ok(PathOnly { path })
}

fn create(
    alloc: Global,
    path: &str,
    content: Option<&[u8]>,
    flags: i32,
) -> Result<CreateRequest, Fail>
    ensures path { IfOk result (λ r. IsShort r.path) }
    ensures content { IfOk result (λ r. IsShortContent r.content) }
{
    Ok(CreateRequest {
        path: short_text(alloc, path)?,
        content: short_content(alloc, content)?,
        acls: open_acls(alloc)?,
        flags,
    })
}

fn delete(alloc: Global, path: &str, version: i32) -> Result<DeleteRequest, Fail>
    ensures { IfOk result (λ r. IsShort r.path) }
{
    let path = short_text(alloc, path)?;
    Ok(DeleteRequest { path, version })
}

fn set(alloc: Global, path: &str, content: &[u8], version: i32) -> Result<SetContentRequest, Fail>
    ensures path { IfOk result (λ r. IsShort r.path) }
    ensures content { IfOk result (λ r. IsShortContent r.content) }
{
    Ok(SetContentRequest {
        path: short_text(alloc, path)?,
        content: short_content(alloc, Some(content))?,
        version,
    })
}

fn set_acl(alloc: Global, path: &str, version: i32) -> Result<SetAclRequest, Fail>
    ensures { IfOk result (λ r. IsShort r.path) }
{
    Ok(SetAclRequest {
        path: short_text(alloc, path)?,
        acls: open_acls(alloc)?,
        version,
    })
}

#[tactic(auto, unfolding(zk_messages::specs::Short::HasShortParts))]
fn request_of(alloc: Global, ask: Ask) -> Result<Request, Fail>
    ensures short { IfOk result HasShortParts }
{
    Ok(match ask {
        Ask::Create(path, content, flags) => Request::Create(create(alloc, path, content, flags)?),
        Ask::Create2(path, content, flags) => Request::Create2(create(
            alloc, path, content, flags,
        )?),
        Ask::Delete(path, version) => Request::Delete(delete(alloc, path, version)?),
        Ask::Exists(path) => Request::Exists(path_watch(alloc, path, false)?),
        Ask::Get(path) => Request::GetContent(path_watch(alloc, path, false)?),
        Ask::Set(path, content, version) => Request::SetContent(set(
            alloc, path, content, version,
        )?),
        Ask::Acl(path) => Request::GetAcl(path_only(alloc, path)?),
        Ask::SetAcl(path, version) => Request::SetAcl(set_acl(alloc, path, version)?),
        Ask::Children(path) => Request::GetChildren(path_watch(alloc, path, false)?),
        Ask::Children2(path) => Request::GetChildren2(path_watch(alloc, path, false)?),
        Ask::Sync(path) => Request::Sync(path_only(alloc, path)?),
        Ask::Ping => Request::Ping,
        Ask::Close => Request::Close,
        Ask::WatchNode(path) => Request::Exists(path_watch(alloc, path, true)?),
        Ask::WatchContent(path) => Request::GetContent(path_watch(alloc, path, true)?),
        Ask::WatchChildren(path) => Request::GetChildren(path_watch(alloc, path, true)?),
        Ask::SetWatches(seen, content, exist, children) => Request::SetWatches(SetWatches {
            seen,
            content_paths: paths(alloc, content)?,
            exist_paths: paths(alloc, exist)?,
            child_paths: paths(alloc, children)?,
        }),
        Ask::Multi(first, second, third) => Request::Multi(ops(alloc, [first, second, third])?),
    })
}

// One path, or an empty list.
fn paths(alloc: Global, path: Option<&str>) -> Result<Option<Texts>, Fail>
    ensures { IfOk result AreShort }
{
    let mut texts = Vec::new(alloc);
    if let Some(path) = path {
        texts.push(short_text(alloc, path)?)?;
    }
    Ok(Some(Texts::of(texts)))
}

fn ops(alloc: Global, parts: [Part; 3]) -> Result<Ops, Fail>
    ensures { IfOk result (All HasShortOpParts) }
{
    let mut ops = Vec::new(alloc);
    for part in parts {
        match op(alloc, part)? {
            Some(op) => ops.push(op)?,
            None => {}
        }
    }
    Ok(Ops::of(ops))
}

#[tactic(auto, unfolding(zk_messages::specs::Short::HasShortOpParts))]
fn op(alloc: Global, part: Part) -> Result<Option<Op>, Fail>
    ensures { IfOk result (λ op. IfSome op HasShortOpParts) }
{
    Ok(match part {
        Part::Create(path, flags) => Some(Op::Create(create(alloc, path, None, flags)?)),
        Part::Create2(path, flags) => Some(Op::Create2(create(alloc, path, None, flags)?)),
        Part::Delete(path, version) => Some(Op::Delete(delete(alloc, path, version)?)),
        Part::Set(path, version) => Some(Op::SetContent(set(alloc, path, b"set", version)?)),
        Part::Check(path, version) => Some(Op::Check(CheckRequest {
            path: short_text(alloc, path)?,
            version,
        })),
        Part::No => None,
    })
}

// What follows where connection 1 asks with xid 5.
fn applied(alloc: Global, tree: &mut Plain, now: i64, ask: Ask) -> Result<Outputs, Fail> {
    asked_by(alloc, tree, now, 1, ask)
}

// The same of another connection.
fn asked_by(
    alloc: Global,
    tree: &mut Plain,
    now: i64,
    connection: u32,
    ask: Ask,
) -> Result<Outputs, Fail> {
    if tree.held.last == i64::MAX {
        return Err("no zxid is left".into());
    }
    let request = request_of(alloc, ask)?;
    Ok(tree.apply(alloc, now, connection, 5, &request)?)
}

// The reply to connection 1, where it is all that follows.
fn reply_in(outputs: &Outputs) -> Option<&Reply> {
    let [output] = outputs.as_slice() else {
        return None;
    };
    match &output.message {
        Message::Reply(reply) if output.connection == 1 && reply.xid == 5 => Some(reply),
        _ => None,
    }
}

// The code of an error, or 0; 1 where there is no reply.
fn code_in(outputs: &Outputs) -> i32 {
    match reply_in(outputs) {
        Some(
            Reply {
                outcome: Outcome::Error { code },
                ..
            },
        ) => *code,
        Some(_) => 0,
        None => 1,
    }
}

// The same of the first output, whoever is told.
fn code_of(outputs: &Outputs) -> i32 {
    let Some(output) = outputs.get(0) else {
        return 1;
    };
    match &output.message {
        Message::Reply(
            Reply {
                outcome: Outcome::Error { code },
                ..
            },
        ) => *code,
        Message::Reply(_) => 0,
        _ => 1,
    }
}

// The path that is told, or "".
fn path_in(outputs: &Outputs) -> &str {
    match reply_in(outputs) {
        Some(
            Reply {
                outcome: Outcome::Path(path),
                ..
            },
        ) => path.as_str(),
        _ => "",
    }
}

fn connect(
    alloc: Global,
    tree: &mut Plain,
    connection: u32,
    timeout: i32,
    session: i64,
    password: &[u8],
    fresh: i64,
) -> Result<Outputs, Fail> {
    if tree.held.last == i64::MAX {
        return Err("no zxid is left".into());
    }
    let asked = ConnectRequest {
        protocol: 0,
        seen: 0,
        timeout,
        session,
        password: Some(Bytes::copy_of(alloc, password)?),
        read_only: None,
    };
    Ok(tree.connect(alloc, 0, connection, &asked, fresh, PASSWORD)?)
}

// A root with so many creations, and session 1 on connection 1.
fn opened(alloc: Global, creations: i32) -> Result<Plain, Fail>
    requires { pos 0 ≤ℤ creations }
{
    let mut tree = Tree::starting_at(alloc, PlainNumberer, creations)?;
    connect(alloc, &mut tree, 1, 4_000, 0, &[], 1)?;
    Ok(tree)
}

// A root, session 1 on connection 1 and session 2 on connection 2; the last zxid is 2.
fn opened_twice(alloc: Global) -> Result<Plain, Fail> {
    let mut tree = opened(alloc, 0)?;
    connect(alloc, &mut tree, 2, 4_000, 0, &[], 2)?;
    Ok(tree)
}

// Whether a connection is told this session, with this timeout and password.
fn is_connected(outputs: &Outputs, to: u32, with: i64, within: i32, by: &[u8]) -> bool {
    let [
        Output {
            connection,
            message: Message::Connected(response),
        },
    ] = outputs.as_slice()
    else {
        return false;
    };
    let Some(password) = &response.password else {
        return false;
    };
    *connection == to
        && response.session == with
        && response.timeout == within
        && password.as_slice() == by
}

#[test]
fn a_session_opens_moves_and_keeps_its_password(rt: HostRuntime) -> Result<(), Fail> {
    let alloc = rt.alloc();
    let mut tree = Tree::new(alloc, PlainNumberer)?;
    let opened = connect(alloc, &mut tree, 1, 1_000, 0, &[], 1)?;
    assert!(rt; is_connected(&opened, 1, 1, 4_000, &PASSWORD));
    let moved = connect(alloc, &mut tree, 2, 50_000, 1, &PASSWORD, 2)?;
    assert!(rt; is_connected(&moved, 2, 1, 40_000, &PASSWORD));
    assert_eq!(rt; (tree.session_of(1), tree.session_of(2)), (None, Some(1)));
    let refused = connect(alloc, &mut tree, 3, 5_000, 1, &[8; 16], 2)?;
    assert!(rt; is_connected(&refused, 3, 0, 0, &[0; 16]));
    assert_eq!(rt; (tree.session_of(3), tree.last()), (None, 2));
    Ok(())
}

#[test]
fn a_root_that_had_the_most_children_has_no_more(rt: HostRuntime) -> Result<(), Fail> {
    let alloc = rt.alloc();
    let mut tree = opened(alloc, GREATEST)?;
    let before = tree.stat("/");
    assert!(rt; before.is_some_and(|stat| stat.cversion == GREATEST && stat.children == 0));
    let refused = applied(alloc, &mut tree, 9, Ask::Create("/a", None, 0))?;
    assert_eq!(rt; code_in(&refused), -1);
    assert_eq!(rt; tree.stat("/"), before);
    assert!(rt;
        tree.children(alloc, "/")?
            .is_some_and(|names| names.len() == 0)
    );
    Ok(())
}

// The Stat of a node that the change with zxid 2 made, with this time and length.
fn made_at(time: i64, length: i32) -> Stat {
    Stat {
        czxid: 2,
        mzxid: 2,
        ctime: time,
        mtime: time,
        version: 0,
        cversion: 0,
        aversion: 0,
        owner: 0,
        length,
        children: 0,
        pzxid: 2,
    }
}

// Whether a creation is answered with this path and this Stat.
fn is_created(outputs: &Outputs, at: &str, with: Stat) -> bool {
    match reply_in(outputs) {
        Some(
            Reply {
                zxid: 2,
                outcome: Outcome::Created2 { path, stat },
                ..
            },
        ) => path.as_str() == at && *stat == with,
        _ => false,
    }
}

#[test]
fn a_node_is_made_and_its_stat_told(rt: HostRuntime) -> Result<(), Fail> {
    let alloc = rt.alloc();
    let mut tree = opened(alloc, 0)?;
    let made = applied(
        alloc,
        &mut tree,
        1_000,
        Ask::Create2("/app", Some(b"hello"), 0),
    )?;
    assert!(rt; is_created(&made, "/app", made_at(1_000, 5)));
    let made = applied(alloc, &mut tree, 1_000, Ask::Create2("/app", None, 0))?;
    assert_eq!(rt; code_in(&made), -110);
    Ok(())
}

#[test]
fn a_node_is_made_with_its_stat(rt: HostRuntime) -> Result<(), Fail> {
    let alloc = rt.alloc();
    let mut tree = opened(alloc, 0)?;
    let made = applied(
        alloc,
        &mut tree,
        1_000,
        Ask::Create("/app", Some(b"hello"), 0),
    )?;
    assert!(rt; path_in(&made) == "/app" && reply_in(&made).is_some_and(|reply| reply.zxid == 2));
    assert_eq!(rt; tree.stat("/app"), Some(made_at(1_000, 5)));
    let told = applied(alloc, &mut tree, 1_000, Ask::Get("/app"))?;
    assert!(rt; has_content(&told, Some(b"hello"), 0));
    Ok(())
}

// Whether a reply has this content, in this version.
fn has_content(outputs: &Outputs, expected: Option<&[u8]>, version: i32) -> bool {
    let Some(
        Reply {
            outcome: Outcome::Content { content, stat },
            ..
        },
    ) = reply_in(outputs)
    else {
        return false;
    };
    let is_same = match (content, expected) {
        (Some(content), Some(expected)) => content.as_slice() == expected,
        (None, None) => true,
        _ => false,
    };
    is_same && stat.version == version
}

#[test]
fn null_and_empty_contents_differ(rt: HostRuntime) -> Result<(), Fail> {
    let alloc = rt.alloc();
    let mut tree = opened(alloc, 0)?;
    for (path, content) in [("/null", None), ("/empty", Some(b"".as_slice()))] {
        applied(alloc, &mut tree, 0, Ask::Create(path, content, 0))?;
        assert!(rt; tree.stat(path).is_some_and(|stat| stat.length == 0));
        let told = applied(alloc, &mut tree, 0, Ask::Get(path))?;
        assert!(rt; has_content(&told, content, 0));
    }
    Ok(())
}

#[test]
fn sequential_nodes_are_numbered_and_changed(rt: HostRuntime) -> Result<(), Fail> {
    let alloc = rt.alloc();
    let mut tree = opened(alloc, 0)?;
    for (stem, flags, name) in [
        ("/q", 0, "/q"),
        ("/q/n-", 2, "/q/n-0000000000"),
        ("/q/n-", 2, "/q/n-0000000001"),
        ("/q/", 2, "/q/0000000002"),
    ] {
        let content = name.as_bytes();
        let made = applied(alloc, &mut tree, 0, Ask::Create(stem, Some(content), flags))?;
        assert!(rt; path_in(&made) == name);
        let told = applied(alloc, &mut tree, 0, Ask::Get(name))?;
        assert!(rt; has_content(&told, Some(content), 0));
    }
    let set = Ask::Set("/q/n-0000000000", b"new", -1);
    let changed = applied(alloc, &mut tree, 0, set)?;
    assert_eq!(rt; code_in(&changed), 0);
    let told = applied(alloc, &mut tree, 0, Ask::Get("/q/n-0000000000"))?;
    assert!(rt; has_content(&told, Some(b"new"), 1));
    Ok(())
}

#[test]
fn an_expired_session_takes_its_nodes_with_it(rt: HostRuntime) -> Result<(), Fail> {
    let alloc = rt.alloc();
    let mut tree = opened(alloc, 0)?;
    applied(alloc, &mut tree, 0, Ask::Create("/e", None, 1))?;
    tree.lose(1);
    assert!(rt; tree.stat("/e").is_some_and(|stat| stat.owner == 1));
    assert!(rt; tree.held.last == 2);
    let outputs = tree.expire(alloc, 5_000, 1)?;
    assert_eq!(rt; (outputs.len(), tree.last()), (0, 3));
    assert_eq!(rt; tree.stat("/e"), None);
    Ok(())
}

// Over "/q", which has a child, and "/e", an ephemeral.
const REFUSED: [(Ask, i32); 8] = [
    (Ask::Create("/none/x", None, 0), -101),
    (Ask::Create("/e/x", None, 0), -108),
    (Ask::Create("/q", None, 0), -110),
    (Ask::Delete("/none", -1), -101),
    (Ask::Delete("/q", 1), -103),
    (Ask::Delete("/q", -1), -111),
    (Ask::Set("/q", b"x", 1), -103),
    (Ask::Exists("/q/"), -8),
];

#[test]
fn refusals_have_their_codes_and_draw_no_zxid(rt: HostRuntime) -> Result<(), Fail> {
    let alloc = rt.alloc();
    let mut tree = opened(alloc, 0)?;
    for (path, flags) in [("/q", 0), ("/q/x", 0), ("/e", 1)] {
        applied(alloc, &mut tree, 0, Ask::Create(path, None, flags))?;
    }
    for (refused, code) in REFUSED {
        let told = applied(alloc, &mut tree, 0, refused)?;
        assert_eq!(rt; code_in(&told), code);
        assert_eq!(rt; tree.last(), 4);
    }
    Ok(())
}

// One of each other type, in an order in which all are done.
const EACH_TYPE: [Ask; 10] = [
    Ask::Create("/a", None, 0),
    Ask::Exists("/a"),
    Ask::Acl("/a"),
    Ask::SetAcl("/a", 0),
    Ask::Children("/"),
    Ask::Children2("/"),
    Ask::Sync("/none"),
    Ask::Ping,
    Ask::Delete("/a", 0),
    Ask::Close,
];

#[test]
fn each_type_is_answered(rt: HostRuntime) -> Result<(), Fail> {
    let alloc = rt.alloc();
    let mut tree = opened(alloc, 0)?;
    for each in EACH_TYPE {
        let told = applied(alloc, &mut tree, 0, each)?;
        assert_eq!(rt; code_in(&told), 0);
    }
    assert_eq!(rt; (tree.last(), tree.session_of(1)), (5, None));
    Ok(())
}
