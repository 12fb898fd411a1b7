//! The line that says what is served.

ghost use Rattle.std.specs.Prelude.{◌≡◌, ◌++◌, IfOk, OnOk, string_bytes};
ghost use Rattle.std.specs.Fmt.{decimal};
ghost use Rattle.audit_board.specs.Fields.{field};
ghost use Rattle.replay_cli.specs.Printed.{line};
ghost use Rattle.serve_cli.specs.Words.{proxy_line, store_line};

use jute_core::Memory;
use std::alloc::Global;

// Appends a word and a value.
#[tactic(auto, unfolding(audit_board::specs::Fields::field))]
fn push_field(into: &mut String, word: &str, value: &str) -> Result<(), Memory>
    ensures { OnOk result (string_bytes into.new ≡ string_bytes into.old ++ field word.now value.now) }
{
    into.push_str(word)?;
    into.push_str(value)?;
    Ok(())
}

/// Appends a line of a word and a value.
#[tactic(auto, unfolding(replay_cli::specs::Printed::line))]
pub(crate) fn push_line(into: &mut String, word: &str, value: &str) -> Result<(), Memory>
    ensures { OnOk result (string_bytes into.new ≡ string_bytes into.old ++ line word.now value.now) }
{
    into.push_str(word)?;
    into.push_str(value)?;
    into.push_str("\n")?;
    Ok(())
}

/// The line of a proxy.
pub(crate) fn proxy_text(
    alloc: Global,
    listen: &str,
    store: &str,
    boot: u32,
) -> Result<String, Memory>
    ensures { IfOk result (λ text. string_bytes text ≡ proxy_line listen.now store.now (decimal boot)) }
{
    let mut text = String::new(alloc);
    let boot = boot.to_string(alloc)?;
    push_field(&mut text, "proxy: ", listen)?;
    push_field(&mut text, " -> ", store)?;
    push_line(&mut text, ", boot ", boot.as_str())?;
    Ok(text)
}

/// The line of a store.
pub(crate) fn store_text(alloc: Global, listen: &str) -> Result<String, Memory>
    ensures { IfOk result (λ text. string_bytes text ≡ store_line listen.now) }
{
    let mut text = String::new(alloc);
    push_line(&mut text, "store: ", listen)?;
    Ok(text)
}
