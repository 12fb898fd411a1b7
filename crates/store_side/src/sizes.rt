//! How many bytes spell the parts of a message. Each function counts up to the last usize, and what it counts has a spelling.

ghost use Rattle.std.specs.Prelude.{◌≡◌, ◌<◌, ◌^◌, length, All, IfSome};
ghost use Rattle.jute_core.specs.Jute.{Spells, Each, buffer, ustring, vector};
ghost use Rattle.jute_core.specs.Lists.{AreShort};
ghost use Rattle.zk_records.specs.Acls.{acl, acl_fields, acls, acls_fields, IsShortAcl, AreShortAcls};
ghost use Rattle.zk_records.specs.Connect.{SpellsConnected};
ghost use Rattle.zk_records.specs.Stats.{stat, stat_fields};
ghost use Rattle.zk_messages.specs.Multi.{SpellsResult, SpellsResults};
ghost use Rattle.zk_messages.specs.Replies.{IsOutcome, IsReply, SpellsEvent, err_of};
ghost use Rattle.zk_messages.specs.Sending.{IsShortResult, IsShortOutcome};
ghost use Rattle.store_side.specs.Counted.{IsCounted};

use jute_core::{Bytes, Text, Texts};
use zk_messages::{Event, OpResult, Outcome, Reply};
use zk_records::{Acl, Acls, ConnectResponse, Stat};

// An int.
fn int_length(_number: i32) -> usize
    ensures { result ≡ 4 }
{
    4
}

// A long.
fn long_length(_number: i64) -> usize
    ensures { result ≡ 8 }
{
    8
}

// A text: its length, and its bytes.
fn text_length(text: &Text) -> usize
    requires { length text.now < 2 ^ 31 }
    ensures { IsCounted (Spells ustring text.now) result }
{
    text.as_str().len().saturating_add(4)
}

// A buffer: its length, and its bytes; null is a length alone.
fn bytes_length(bytes: &Option<Bytes>) -> usize
    requires { IfSome bytes.now (λ b. length b < 2 ^ 31) }
    ensures { IsCounted (Spells buffer bytes.now) result }
{
    match bytes {
        Some(bytes) => bytes.len().saturating_add(4),
        None => 4,
    }
}

// Texts one after another.
fn each_text_length(texts: &[Text]) -> usize
    requires { All (λ t. length t < 2 ^ 31) texts.now }
    ensures { IsCounted (Each (Spells ustring) texts.now) result }
{
    let mut total: usize = 0;
    for text in texts {
        total = total.saturating_add(text_length(text));
    }
    total
}

// A list of texts: its count, and the texts; null is a count alone.
fn texts_length(texts: &Option<Texts>) -> usize
    requires { IfSome texts.now AreShort }
    ensures { IsCounted (Spells (vector ustring) texts.now) result }
{
    match texts {
        Some(texts) => each_text_length(texts.as_slice()).saturating_add(4),
        None => 4,
    }
}

// The fields of a Stat.
fn stat_length(fields: &Stat) -> usize
    ensures { IsCounted (Spells stat (stat_fields fields.now)) result }
{
    long_length(fields.czxid)
        + long_length(fields.mzxid)
        + long_length(fields.ctime)
        + long_length(fields.mtime)
        + int_length(fields.version)
        + int_length(fields.cversion)
        + int_length(fields.aversion)
        + long_length(fields.owner)
        + int_length(fields.length)
        + int_length(fields.children)
        + long_length(fields.pzxid)
}

// The fields of an ACL.
fn acl_length(entry: &Acl) -> usize
    requires { IsShortAcl entry.now }
    ensures { IsCounted (Spells acl (acl_fields entry.now)) result }
{
    text_length(&entry.scheme)
        .saturating_add(text_length(&entry.id))
        .saturating_add(int_length(entry.perms))
}

// ACLs one after another.
fn each_acl_length(list: &[Acl]) -> usize
    requires { All IsShortAcl list.now }
    ensures { IsCounted (Each (λ a. Spells acl (acl_fields a)) list.now) result }
{
    let mut total: usize = 0;
    for entry in list {
        total = total.saturating_add(acl_length(entry));
    }
    total
}

// A list of ACLs: its count, and the ACLs; null is a count alone.
fn acls_length(list: &Option<Acls>) -> usize
    requires { IfSome list.now AreShortAcls }
    ensures { IsCounted (Spells acls (acls_fields list.now)) result }
{
    match list {
        Some(list) => each_acl_length(list.as_slice()).saturating_add(4),
        None => 4,
    }
}

// A result of a multi: a header of 9 bytes, and what belongs to the result.
fn result_length(value: &OpResult) -> usize
    requires { IsShortResult value.now }
    ensures { IsCounted (SpellsResult value.now) result }
{
    match value {
        OpResult::Created(path) => text_length(path).saturating_add(9),
        OpResult::Deleted => 9,
        OpResult::Changed(stat) => stat_length(stat).saturating_add(9),
        OpResult::Checked => 9,
        OpResult::Error { code } => int_length(*code) + 9,
        OpResult::Created2 { path, stat } => text_length(path)
            .saturating_add(stat_length(stat))
            .saturating_add(9),
    }
}

// The results of a multi, and the header of 9 bytes that ends them.
fn results_length(results: &[OpResult]) -> usize
    requires { All IsShortResult results.now }
    ensures { IsCounted (SpellsResults results.now) result }
{
    let mut total: usize = 0;
    for value in results {
        total = total.saturating_add(result_length(value));
    }
    total.saturating_add(9)
}

// What follows the header of a reply.
fn outcome_length(outcome: &Outcome) -> usize
    requires { IsShortOutcome outcome.now }
    ensures { IsCounted (IsOutcome outcome.now) result }
{
    match outcome {
        Outcome::Error { .. } => 0,
        Outcome::Empty => 0,
        Outcome::Path(path) => text_length(path),
        Outcome::Stat(stat) => stat_length(stat),
        Outcome::Content { content, stat } => {
            bytes_length(content).saturating_add(stat_length(stat))
        }
        Outcome::Acls { acls, stat } => acls_length(acls).saturating_add(stat_length(stat)),
        Outcome::Children(children) => texts_length(children),
        Outcome::Children2 { children, stat } => {
            texts_length(children).saturating_add(stat_length(stat))
        }
        Outcome::Multi(results) => results_length(results.as_slice()),
        Outcome::Created2 { path, stat } => text_length(path).saturating_add(stat_length(stat)),
    }
}

// The code in the header of a reply.
fn err_of(outcome: &Outcome) -> i32
    ensures { result ≡ err_of outcome.now }
{
    match outcome {
        Outcome::Error { code } => *code,
        _ => 0,
    }
}

/// A reply: its header, and what it came to.
pub(crate) fn reply_length(reply: &Reply) -> usize
    requires { IsShortOutcome reply.now.outcome }
    ensures { IsCounted (IsReply reply.now) result }
{
    let header = int_length(reply.xid)
        + long_length(reply.zxid)
        + int_length(err_of(&reply.outcome));
    outcome_length(&reply.outcome).saturating_add(header)
}

/// An event: a header of 16 bytes, two ints and the path.
pub(crate) fn event_length(event: &Event) -> usize
    requires { length event.now.path < 2 ^ 31 }
    ensures { IsCounted (SpellsEvent event.now) result }
{
    let ints = int_length(event.kind) + int_length(event.state);
    text_length(&event.path).saturating_add(16 + ints)
}

/// The answer to a connect request: three numbers, the password, and in the newer form one byte more.
pub(crate) fn connected_length(response: &ConnectResponse) -> usize
    requires { IfSome response.now.password (λ p. length p < 2 ^ 31) }
    ensures { IsCounted (SpellsConnected response.now) result }
{
    let first = int_length(response.protocol)
        + int_length(response.timeout)
        + long_length(response.session);
    let older = bytes_length(&response.password).saturating_add(first);
    match response.read_only {
        Some(_) => older.saturating_add(1),
        None => older,
    }
}
