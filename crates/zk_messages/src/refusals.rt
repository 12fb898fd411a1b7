//! Requests that are refused before a store sees them.

ghost use Rattle.std.specs.Prelude.{◌≡◌, ◌<◌, ◌^◌, ◌∷◌, [], ◌↔◌, length, codes, All, IfSome, IsTrue};
ghost use Rattle.zk_path.specs.Paths.{IsPathText};
ghost use Rattle.zk_messages.specs.Refuses.{IsSequential, IsNameFor, AreFlags, IsRootText, IsOpen, ArePaths, open_acl};
ghost use Rattle.zk_messages.specs.Refuses.{RefusesPath, RefusesNode, RefusesCreate, RefusesSetAcl, RefusesWatches, RefusesOp, RefusesOps, Refuses};
ghost use Rattle.zk_messages.specs.Refuses.{IsShortText, AreShortTexts, HasShortPath, HasShortPaths, HasOneOutcome};
ghost use Rattle.zk_messages.specs.declared.request.Request.{Request};

use crate::request::{Op, Request};
use jute_core::{Text, Texts};
use zk_path::{check_path, check_stem};
use zk_records::{Acl, Acls, CreateRequest, SetAclRequest, SetWatches};

/// The codes of KeeperException.
const UNIMPLEMENTED: i32 = -6;

const BAD_ARGUMENTS: i32 = -8;

const INVALID_ACL: i32 = -114;

const AUTH_FAILED: i32 = -115;

fn is_path(text: &Text) -> bool
    requires { IsShortText text.now }
    ensures { IsTrue result ↔ IsPathText text.now }
{
    check_path(text.as_str()).is_none()
}

fn is_root(text: &Text) -> bool
    ensures { IsTrue result ↔ IsRootText text.now }
{
    text.as_str() == "/"
}

fn is_sequential(flags: i32) -> bool
    ensures { IsTrue result ↔ IsSequential flags }
{
    flags == 2 || flags == 3
}

fn are_flags(flags: i32) -> bool
    ensures { IsTrue result ↔ AreFlags flags }
{
    flags == 0 || flags == 1 || is_sequential(flags)
}

// The text of a create is a stem where a number will follow.
fn is_name_for(flags: i32, text: &Text) -> bool
    requires { IsShortText text.now }
    ensures { IsTrue result ↔ IsNameFor flags text.now }
{
    if is_sequential(flags) {
        check_stem(text.as_str()).is_none()
    } else {
        is_path(text)
    }
}

fn is_open_acl(acl: &Acl) -> bool
    ensures { IsTrue result ↔ (acl.now ≡ open_acl) }
{
    acl.perms == 31 && acl.scheme.as_str() == "world" && acl.id.as_str() == "anyone"
}

fn is_open(list: &Option<Acls>) -> bool
    ensures { IsTrue result ↔ IsOpen list.now }
{
    match list {
        Some(acls) => match acls.as_slice() {
            [acl] => is_open_acl(acl),
            _ => false,
        },
        None => false,
    }
}

fn all_paths(texts: &[Text]) -> bool
    requires { All IsShortText texts.now }
    ensures { IsTrue result ↔ All IsPathText texts.now }
{
    for text in texts {
        if !is_path(text) {
            return false;
        }
    }
    true
}

fn are_paths(list: &Option<Texts>) -> bool
    requires { AreShortTexts list.now }
    ensures { IsTrue result ↔ ArePaths list.now }
{
    match list {
        Some(texts) => all_paths(texts.as_slice()),
        None => true,
    }
}

#[tactic(auto, using(crate::proofs::FirstRules::rules_fit))]
fn refusal_of_path(path: &Text) -> Option<i32>
    requires { IsShortText path.now }
    ensures { RefusesPath path.now result }
{
    if !is_path(path) {
        return Some(BAD_ARGUMENTS);
    }
    None
}

// The root's content is not kept, and it stays.
#[tactic(auto, using(crate::proofs::FirstRules::rules_fit))]
fn refusal_of_node(path: &Text) -> Option<i32>
    requires { IsShortText path.now }
    ensures { RefusesNode path.now result }
{
    if !is_path(path) {
        return Some(BAD_ARGUMENTS);
    }
    if is_root(path) {
        return Some(BAD_ARGUMENTS);
    }
    None
}

// Whether the root itself is to be made; as a stem it is a sequential child's.
fn makes_root(create: &CreateRequest) -> bool
    ensures { IsTrue result ↔ (IsRootText create.now.path × (IsSequential create.now.flags → ⊥)) }
{
    is_root(&create.path) && !is_sequential(create.flags)
}

#[tactic(auto, using(crate::proofs::FirstRules::rules_fit))]
fn refusal_of_create(create: &CreateRequest) -> Option<i32>
    requires { IsShortText create.now.path }
    ensures { RefusesCreate create.now result }
{
    if !is_name_for(create.flags, &create.path) {
        return Some(BAD_ARGUMENTS);
    }
    if makes_root(create) {
        return Some(BAD_ARGUMENTS);
    }
    if !are_flags(create.flags) {
        return Some(BAD_ARGUMENTS);
    }
    if !is_open(&create.acls) {
        return Some(INVALID_ACL);
    }
    None
}

#[tactic(auto, using(crate::proofs::FirstRules::rules_fit))]
fn refusal_of_set_acl(request: &SetAclRequest) -> Option<i32>
    requires { IsShortText request.now.path }
    ensures { RefusesSetAcl request.now result }
{
    if !is_path(&request.path) {
        return Some(BAD_ARGUMENTS);
    }
    if !is_open(&request.acls) {
        return Some(INVALID_ACL);
    }
    None
}

#[tactic(auto, using(crate::proofs::FirstRules::rules_fit))]
fn refusal_of_watches(watches: &SetWatches) -> Option<i32>
    requires content { AreShortTexts watches.now.content_paths }
    requires exist { AreShortTexts watches.now.exist_paths }
    requires child { AreShortTexts watches.now.child_paths }
    ensures { RefusesWatches watches.now result }
{
    if !are_paths(&watches.content_paths) {
        return Some(BAD_ARGUMENTS);
    }
    if !are_paths(&watches.exist_paths) {
        return Some(BAD_ARGUMENTS);
    }
    if !are_paths(&watches.child_paths) {
        return Some(BAD_ARGUMENTS);
    }
    None
}

fn refusal_of_op(op: &Op) -> Option<i32>
    requires { HasShortPath op.now }
    ensures { RefusesOp op.now result }
{
    match op {
        Op::Create(create) => refusal_of_create(create),
        Op::Delete(request) => refusal_of_node(&request.path),
        Op::SetContent(request) => refusal_of_node(&request.path),
        Op::Check(request) => refusal_of_path(&request.path),
        Op::Create2(create) => refusal_of_create(create),
    }
}

// That of the first operation that has one.
fn refusal_of_ops(ops: &[Op]) -> Option<i32>
    requires { All HasShortPath ops.now }
    ensures { RefusesOps ops.now result }
{
    for op in ops {
        if let Some(code) = refusal_of_op(op) {
            return Some(code);
        }
    }
    None
}

/// The code of the error with which a request is refused before a store sees it, `None` where it is
/// not. Takes no memory. Linear in the request, of which each path has at most 4,294,967,295 bytes.
///
/// The first that fits: -6 an unknown type; -115 auth; -8 an illegal path, for a create with flags 2
/// or 3 an illegal stem; -8 the root with getData, setData, delete, or create with other flags than
/// these; -8 flags outside 0 to 3; -114 in create and setACL a list other than the one entry (31,
/// `world`, `anyone`). create2 is judged as create. setWatches has -8 where any of its paths is illegal, and a multi has the
/// refusal of its first operation that has one.
#[tactic(auto, unfolding(crate::specs::Refuses::Refuses))]
pub fn refusal_of(request: &Request) -> Option<i32>
    requires { HasShortPaths request.now }
    ensures { Refuses request.now result }
{
    match request {
        Request::Unknown { .. } => Some(UNIMPLEMENTED),
        Request::Auth(_) => Some(AUTH_FAILED),
        Request::Create(create) => refusal_of_create(create),
        Request::Delete(request) => refusal_of_node(&request.path),
        Request::Exists(request) => refusal_of_path(&request.path),
        Request::GetContent(request) => refusal_of_node(&request.path),
        Request::SetContent(request) => refusal_of_node(&request.path),
        Request::GetAcl(request) => refusal_of_path(&request.path),
        Request::SetAcl(request) => refusal_of_set_acl(request),
        Request::GetChildren(request) => refusal_of_path(&request.path),
        Request::GetChildren2(request) => refusal_of_path(&request.path),
        Request::Sync(request) => refusal_of_path(&request.path),
        Request::Ping => None,
        Request::Multi(ops) => refusal_of_ops(ops.as_slice()),
        Request::SetWatches(watches) => refusal_of_watches(watches),
        Request::Close => None,
        Request::Create2(create) => refusal_of_create(create),
    }
}

/// The law that a request has one refusal, or none.
pub fn one_outcome()
    ensures { (r : Request) → HasOneOutcome r }
{}
