//! The printed texts.

ghost use Rattle.std.specs.Prelude.{◌≡◌, ◌++◌, IfOk, OnOk, string_bytes};
ghost use Rattle.std.specs.Fmt.{decimal, signed_decimal};
ghost use Rattle.audit_board.specs.Fields.{field, line_feed};
ghost use Rattle.audit_board.specs.Findings.{finding_text, findings_text};
ghost use Rattle.replay_cli.specs.Printed.{line, bytes_text, entry_text, lost_text, expire_text, entries_text, order_text};
ghost use Rattle.replay_cli.specs.Reasons.{reason_name, refusal_text};

use audit_board::line_of;
use jute_core::{Memory, Reason, Refusal};
use reply_rewrite::Finding;
use std::alloc::{AllocError, Global};
use store_side::Entry;

/// Bytes in hex, or a dash where there are none.
pub fn bytes_text(alloc: Global, bytes: &[u8]) -> Result<String, AllocError>
    ensures { IfOk result (λ text. string_bytes text ≡ bytes_text bytes.now) }
{
    if bytes.is_empty() {
        String::from_str(alloc, "-")
    } else {
        hex::encode(alloc, bytes)
    }
}

/// Appends a line of a word and a value.
#[tactic(auto, unfolding(crate::specs::Printed::line))]
pub fn push_line(into: &mut String, word: &str, value: &str) -> Result<(), Memory>
    ensures { OnOk result
        (string_bytes into.new ≡ string_bytes into.old ++ line word.now value.now) }
{
    into.push_str(word)?;
    into.push_str(value)?;
    into.push_str("\n")?;
    Ok(())
}

/// Appends a word and a value.
#[tactic(auto, unfolding(audit_board::specs::Fields::field))]
pub fn push_field(into: &mut String, word: &str, value: &str) -> Result<(), Memory>
    ensures { OnOk result
        (string_bytes into.new ≡ string_bytes into.old ++ field word.now value.now) }
{
    into.push_str(word)?;
    into.push_str(value)?;
    Ok(())
}

/// Appends a word and a number.
pub fn push_number(alloc: Global, into: &mut String, word: &str, value: i64) -> Result<(), Memory>
    ensures { OnOk result (string_bytes into.new ≡ string_bytes into.old ++ field word.now
        (signed_decimal value)) }
{
    let text = value.to_string(alloc)?;
    push_field(into, word, text.as_str())
}

/// Appends a word and a number of an i32.
pub fn push_int(alloc: Global, into: &mut String, word: &str, value: i32) -> Result<(), Memory>
    ensures { OnOk result (string_bytes into.new ≡ string_bytes into.old ++ field word.now
        (signed_decimal value)) }
{
    let text = value.to_string(alloc)?;
    push_field(into, word, text.as_str())
}

/// Appends a word and a number without a sign.
pub fn push_count(alloc: Global, into: &mut String, word: &str, value: u64) -> Result<(), Memory>
    ensures { OnOk result (string_bytes into.new ≡ string_bytes into.old ++ field word.now
        (decimal value)) }
{
    let text = value.to_string(alloc)?;
    push_field(into, word, text.as_str())
}

/// How the reason of a refusal is printed.
#[tactic(auto, unfolding(crate::specs::Reasons::reason_name))]
pub fn reason_name(reason: Reason) -> &'static str
    ensures { result.now ≡ reason_name reason }
{
    match reason {
        Reason::Short => "short",
        Reason::BadLength => "bad-length",
        Reason::BadBool => "bad-bool",
        Reason::BadUtf8 => "bad-utf8",
        Reason::Trailing => "trailing",
        Reason::BadType => "bad-type",
        Reason::BadXid => "bad-xid",
        Reason::BadHeader => "bad-header",
    }
}

/// Appends a word, and where and why what it names was malformed.
pub fn push_refusal(
    alloc: Global,
    into: &mut String,
    word: &str,
    refusal: Refusal,
) -> Result<(), Memory>
    ensures { OnOk result
        (string_bytes into.new ≡ string_bytes into.old ++ refusal_text word.now refusal) }
{
    let place = refusal.place.to_string(alloc)?;
    push_field(into, word, place.as_str())?;
    push_field(into, " ", reason_name(refusal.reason))?;
    Ok(())
}

/// Ends a line.
#[tactic(auto, unfolding(audit_board::specs::Fields::line_feed))]
pub fn end_line(into: &mut String) -> Result<(), Memory>
    ensures { OnOk result (string_bytes into.new ≡ string_bytes into.old ++ line_feed) }
{
    into.push_str("\n")?;
    Ok(())
}

// Appends the line of an entry.
pub fn push_entry(alloc: Global, into: &mut String, entry: &Entry) -> Result<(), Memory>
    ensures { OnOk result (string_bytes into.new ≡ string_bytes into.old ++ entry_text entry.now) }
{
    match entry {
        Entry::Connect {
            connection,
            session,
            timeout,
            password,
            zxid,
            now,
            ..
        } => {
            let number = connection.to_string(alloc)?;
            let password = hex::encode(alloc, password.as_slice())?;
            push_field(into, "connect ", number.as_str())?;
            push_number(alloc, into, " session ", *session)?;
            push_number(alloc, into, " timeout ", *timeout as i64)?;
            push_field(into, " password ", password.as_str())?;
            push_number(alloc, into, " zxid ", *zxid)?;
            push_number(alloc, into, " at ", *now)?;
            end_line(into)?;
            Ok(())
        }
        Entry::Take {
            connection,
            xid,
            zxid,
            now,
            ..
        } => {
            let number = connection.to_string(alloc)?;
            push_field(into, "take ", number.as_str())?;
            push_number(alloc, into, " xid ", *xid as i64)?;
            push_number(alloc, into, " zxid ", *zxid)?;
            push_number(alloc, into, " at ", *now)?;
            end_line(into)?;
            Ok(())
        }
        Entry::Lost { connection } => {
            push_lost(alloc, into, *connection)?;
            Ok(())
        }
        Entry::Expire { session, zxid, now } => {
            push_expire(alloc, into, *session, *zxid, *now)?;
            Ok(())
        }
    }
}

// Appends the line of the loss of a connection.
fn push_lost(alloc: Global, into: &mut String, connection: u32) -> Result<(), Memory>
    ensures { OnOk result (string_bytes into.new ≡ string_bytes into.old ++ lost_text connection) }
{
    let number = connection.to_string(alloc)?;
    push_field(into, "lost ", number.as_str())?;
    end_line(into)?;
    Ok(())
}

// Appends the line of the end of a session.
fn push_expire(
    alloc: Global,
    into: &mut String,
    session: i64,
    zxid: i64,
    now: i64,
) -> Result<(), Memory>
    ensures { OnOk result
        (string_bytes into.new ≡ string_bytes into.old ++ expire_text session zxid now) }
{
    push_number(alloc, into, "expire ", session)?;
    push_number(alloc, into, " zxid ", zxid)?;
    push_number(alloc, into, " at ", now)?;
    end_line(into)?;
    Ok(())
}

/// Appends what is printed of an order.
pub fn push_order(alloc: Global, into: &mut String, order: &[Entry]) -> Result<(), Memory>
    ensures { OnOk result (string_bytes into.new ≡ string_bytes into.old ++ order_text order.now) }
{
    let count = order.len().to_string(alloc)?;
    push_line(into, "order ", count.as_str())?;
    push_entries(alloc, into, order)
}

fn push_entries(alloc: Global, into: &mut String, order: &[Entry]) -> Result<(), Memory>
    ensures { OnOk result
        (string_bytes into.new ≡ string_bytes into.old ++ entries_text order.now) }
{
    for entry in order {
        push_entry(alloc, into, entry)?;
    }
    Ok(())
}

// Appends the line of a finding.
fn push_finding(into: &mut String, finding: &Finding) -> Result<(), Memory>
    ensures { OnOk result
        (string_bytes into.new ≡ string_bytes into.old ++ finding_text finding.now) }
{
    let line = line_of(finding);
    into.push_str(line.as_str())?;
    Ok(())
}

/// Appends a line for each finding.
pub fn push_findings(into: &mut String, findings: &[Finding]) -> Result<(), Memory>
    ensures { OnOk result
        (string_bytes into.new ≡ string_bytes into.old ++ findings_text findings.now) }
{
    for finding in findings {
        push_finding(into, finding)?;
    }
    Ok(())
}
