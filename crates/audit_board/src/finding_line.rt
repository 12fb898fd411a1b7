//! The line of a finding, built without memory.

ghost use Rattle.std.specs.Prelude.{◌≡◌, ℕ, ◌+◌, ◌*◌, ◌<◌, ◌≤◌, [], ◌++◌, length, IsAscii};
ghost use Rattle.std.specs.Fmt.{decimal, signed_decimal};
ghost use Rattle.hex.specs.Hex.{encode_lower};
ghost use Rattle.arrayvec.specs.ArrayString.{array_string_len};
ghost use Rattle.audit_board.specs.Fields.{field, line_feed};
ghost use Rattle.audit_board.specs.Findings.{flaw_text, cause_text, finding_text};

use arrayvec::ArrayString;
use itoa::Buffer;
use payload_seal::Flaw;
use reply_rewrite::{Cause, Finding};

/// How many bytes a line has room for. No finding's line has more than 212.
pub const ROOM: usize = 256;

/// A line.
pub type Line = ArrayString<ROOM>;

// Appends a word and a value.
#[tactic(auto, unfolding(crate::specs::Fields::field))]
fn push_field(into: &mut Line, word: &str, value: &str)
    requires { array_string_len into.old + length word.now + length value.now ≤ 256 }
    ensures text { into.new.bytes ≡ into.old.bytes ++ field word.now value.now }
    ensures grown { array_string_len into.new ≡ array_string_len into.old + length word.now + length value.now }
{
    into.push_str(word);
    into.push_str(value);
}

// Appends a word alone.
fn push_word(into: &mut Line, word: &str)
    requires { array_string_len into.old + length word.now ≤ 256 }
    ensures text { into.new.bytes ≡ into.old.bytes ++ field word.now [] }
    ensures grown { array_string_len into.new ≡ array_string_len into.old + length word.now }
{
    push_field(into, word, "");
}

// Appends a word and a number without a sign.
fn push_count(into: &mut Line, word: &str, value: u64)
    requires { array_string_len into.old + length word.now + 20 ≤ 256 }
    ensures text { into.new.bytes ≡ into.old.bytes ++ field word.now (decimal value) }
    ensures grown { array_string_len into.new ≤ array_string_len into.old + length word.now + 20 }
{
    let mut buffer = Buffer::new();
    push_field(into, word, buffer.format(value));
}

// Appends a word and a number.
fn push_int(into: &mut Line, word: &str, value: i32)
    requires { array_string_len into.old + length word.now + 11 ≤ 256 }
    ensures text { into.new.bytes ≡ into.old.bytes ++ field word.now (signed_decimal value) }
    ensures grown { array_string_len into.new ≤ array_string_len into.old + length word.now + 11 }
{
    let mut buffer = Buffer::new();
    push_field(into, word, buffer.format(value));
}

// These bytes as a text.
fn ascii(bytes: &[u8]) -> &str
    requires { IsAscii bytes.now }
    ensures { result.now ≡ bytes.now }
{
    match str::from_utf8(bytes) {
        Ok(text) => text,
        Err(_) => "",
    }
}

// Appends a word and a digest in hex.
fn push_digest(into: &mut Line, word: &str, digest: &[u8; 32])
    requires { array_string_len into.old + length word.now + 64 ≤ 256 }
    ensures text { into.new.bytes ≡ into.old.bytes ++ field word.now (encode_lower digest.now) }
    ensures grown { array_string_len into.new ≡ array_string_len into.old + length word.now + 64 }
{
    let mut digits = [0; 64];
    let _ = hex::encode_to_slice(digest.as_slice(), &mut digits);
    push_field(into, word, ascii(&digits));
}

// Appends what is wrong with a payload.
fn push_flaw(into: &mut Line, flaw: Flaw)
    requires { array_string_len into.old ≤ 100 }
    ensures text { into.new.bytes ≡ into.old.bytes ++ flaw_text flaw }
    ensures grown { array_string_len into.new ≤ array_string_len into.old + 148 }
{
    match flaw {
        Flaw::Short { length } => push_count(into, "payload short ", length as u64),
        Flaw::UnknownEpoch { epoch } => push_count(into, "payload unknown-epoch ", epoch as u64),
        Flaw::BadTag => push_word(into, "payload bad-tag"),
        Flaw::BadFlag { flag } => push_count(into, "payload bad-flag ", flag as u64),
        Flaw::WrongPath { sealed, asked } => {
            push_digest(into, "payload wrong-path ", &sealed);
            push_digest(into, " ", &asked);
        }
    }
}

// Appends what was wrong with a reply.
fn push_cause(into: &mut Line, cause: Cause)
    requires { array_string_len into.old ≤ 100 }
    ensures text { into.new.bytes ≡ into.old.bytes ++ cause_text cause }
    ensures grown { array_string_len into.new ≤ array_string_len into.old + 148 }
{
    match cause {
        Cause::Payload(flaw) => push_flaw(into, flaw),
        Cause::Length { stored } => push_int(into, "length ", stored),
        Cause::NullChildren => push_word(into, "null-children"),
        Cause::Child { index } => push_count(into, "child ", index as u64),
        Cause::Doubled { index } => push_count(into, "doubled ", index as u64),
        Cause::Created => push_word(into, "created"),
        Cause::SyncPath => push_word(into, "sync-path"),
        Cause::Acl => push_word(into, "acl"),
        Cause::MultiCount { asked, got } => {
            push_count(into, "multi-count ", asked as u64);
            push_count(into, " ", got as u64);
        }
        Cause::MultiKind { index } => push_count(into, "multi-kind ", index as u64),
        Cause::MultiCreated { index } => push_count(into, "multi-created ", index as u64),
        Cause::MultiLength { index } => push_count(into, "multi-length ", index as u64),
    }
}

// Ends a line.
#[tactic(auto, unfolding(crate::specs::Fields::line_feed))]
fn end_line(into: &mut Line)
    requires { array_string_len into.old < 256 }
    ensures { into.new.bytes ≡ into.old.bytes ++ line_feed }
{
    into.push('\n');
}

/// The line of a finding, with its line feed.
pub fn line_of(finding: &Finding) -> Line
    ensures { result.bytes ≡ finding_text finding.now }
{
    let mut line = Line::new();
    push_count(&mut line, "finding ", finding.connection as u64);
    push_count(&mut line, " reply ", finding.reply);
    push_int(&mut line, " xid ", finding.xid);
    push_word(&mut line, " ");
    push_cause(&mut line, finding.cause);
    end_line(&mut line);
    line
}
