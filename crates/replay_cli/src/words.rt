//! The words of a command line.

ghost use Rattle.std.specs.Prelude.{◌≡◌, ◌<◌, IfSome, IfNone, IsTrue, ◌↔◌, ℕ, length};
ghost use Rattle.replay_cli.specs.Words.{word, AreStressNumbers, IsCalled, Fits};
ghost use Rattle.replay_cli.specs.declared.words.Command.TheVariants.{Stress};
ghost use Rattle.replay_cli.specs.Commands.{IsCommand};

use crate::numbers::number_of;

// The most sessions and steps of a workload.
const SESSIONS: u64 = 64;

const STEPS: u64 = 100_000;

/// A command whose words fit its row of the table.
#[derive(Clone, Copy, Drop)]
pub enum Command<'a> {
    /// Runs the script under the key file.
    Replay {
        key: &'a str,
        script: &'a str,
    },
    /// Runs one session under the key file, over the script's bytes of both sides.
    Hostile {
        key: &'a str,
        script: &'a str,
    },
    /// Shows the frames of a file.
    Show {
        file: &'a str,
    },
    /// Runs the workload of a seed, over 1 to 64 sessions and at most 100,000 steps.
    Stress {
        seed: u64,
        sessions: u32,
        steps: u32,
    },
}

fn word(words: &[String], index: usize) -> &str
    requires { index < length words.now }
    ensures { result.now ≡ word words.now index }
{
    words[index].as_str()
}

// Whether there are so many words, of which this is the first.
fn is_called(words: &[String], count: usize, name: &str) -> bool
    requires { 0 < count }
    ensures { IsTrue result ↔ IsCalled words.now count name.now }
{
    words.len() == count && word(words, 0) == name
}

// The words' numbers for `stress`; `None` exactly where they are none, or not within their bounds.
fn stress_of(words: &[String]) -> Option<Command<'_>>
    requires { length words.now ≡ 4 }
    ensures found { IfSome result (λ command. (seed sessions steps : ℕ) × (command ≡ Stress seed sessions steps) × AreStressNumbers words.now seed sessions steps) }
    ensures none { IfNone result ((seed sessions steps : ℕ) → AreStressNumbers words.now seed sessions steps → ⊥) }
{
    let seed = number_of(word(words, 1).as_bytes(), u64::MAX)?;
    let sessions = number_of(word(words, 2).as_bytes(), SESSIONS)?;
    let steps = number_of(word(words, 3).as_bytes(), STEPS)?;
    if sessions == 0 {
        return None;
    }
    Some(Command::Stress {
        seed,
        sessions: sessions as u32,
        steps: steps as u32,
    })
}

/// The command that the words name; `None` exactly where they fit no row.
pub fn command_of(words: &[String]) -> Option<Command<'_>>
    ensures found { IfSome result (λ command. IsCommand words.now command) }
    ensures none { IfNone result (Fits words.now → ⊥) }
{
    if is_called(words, 3, "replay") {
        let (key, script) = (word(words, 1), word(words, 2));
        return Some(Command::Replay { key, script });
    }
    if is_called(words, 3, "hostile") {
        let (key, script) = (word(words, 1), word(words, 2));
        return Some(Command::Hostile { key, script });
    }
    if is_called(words, 2, "show") {
        let file = word(words, 1);
        return Some(Command::Show { file });
    }
    if is_called(words, 4, "stress") {
        return stress_of(words);
    }
    None
}
