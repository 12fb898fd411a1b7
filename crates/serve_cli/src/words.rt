//! The words of a command line that serves.

ghost use Rattle.std.specs.Prelude.{◌≡◌, ◌<◌, ◌↔◌, IfSome, IfNone, IsTrue, ℕ, length};
ghost use Rattle.replay_cli.specs.Words.{word, IsCalled};
ghost use Rattle.serve_cli.specs.Words.{Fits};
ghost use Rattle.serve_cli.specs.Commands.{IsCommand};

use replay_cli::number_of;

// The greatest boot.
const BOOTS: u64 = 16_777_215;

/// A command whose words fit its row of the table.
#[derive(Clone, Copy, Drop)]
pub enum Command<'a> {
    /// Relays between clients and a store, under the key file.
    Proxy {
        key: &'a str,
        boot: u32,
        listen: &'a str,
        store: &'a str,
    },
    /// Serves a store, with the numberer of the key file.
    Store {
        key: &'a str,
        listen: &'a str,
    },
}

fn word(words: &[String], index: usize) -> &str
    requires { index < length words.now }
    ensures { result.now ≡ word words.now index }
{
    words[index].as_str()
}

// Whether there are so many words, of which this is the first.
fn is_called(words: &[String], count: usize, name: &str) -> bool
    requires { 0 < count }
    ensures { IsTrue result ↔ IsCalled words.now count name.now }
{
    words.len() == count && word(words, 0) == name
}

/// The command that the words name; `None` exactly where they fit no row.
pub fn command_of(words: &[String]) -> Option<Command<'_>>
    ensures found { IfSome result (λ command. IsCommand words.now command) }
    ensures none { IfNone result (Fits words.now → ⊥) }
{
    if is_called(words, 5, "proxy") {
        let boot = number_of(word(words, 2).as_bytes(), BOOTS)? as u32;
        return Some(Command::Proxy {
            key: word(words, 1),
            boot,
            listen: word(words, 3),
            store: word(words, 4),
        });
    }
    if is_called(words, 3, "store") {
        return Some(Command::Store {
            key: word(words, 1),
            listen: word(words, 2),
        });
    }
    None
}
