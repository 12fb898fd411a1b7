//! The top call.

ghost use Rattle.std.specs.Prelude.{◌≡◌, ◌≢◌, ℕ, ◌≤◌, ◌⊎◌, List, ◌++◌, Some, IfOk, IfErr, string_bytes, codes, []};
ghost use Rattle.replay_cli.specs.Printed.{line};
ghost use Rattle.jute_core.specs.Faults.{Rose, Wrote, WroteFront};
ghost use Rattle.replay_cli.specs.Words.{Fits, ReadsFiles};
ghost use Rattle.replay_cli.specs.Run.{IsTooLong, IsShownText, Prints, HasLong, HasBadKey, HasBadLine, StopsAtFile, StopsAtKey, StopsAtLine};
ghost use Rattle.replay_cli.specs.Sinks.{ReportsFault, FailsToReport};
ghost use Rattle.replay_cli.specs.Stops.{Because, BecauseOfFile, status_of, complaint_of, unread_line, too_long_line, bad_key_line, bad_script_line, IsUnread, IsLine, Complains};

use crate::files::Files;
use crate::hostile::hostile;
use crate::loading::load;
use crate::replay::replay;
use crate::show::show_frames;
use crate::stops::{Status, Stop, complaint, status_of};
use crate::stress::stress;
use crate::words::{Command, command_of};
use audit_board::Sink;
use std::alloc::Global;

// The text that is shown of a file, or why there is none.
fn show<'a, F: Files>(alloc: Global, name: &'a str, files: &mut F) -> Result<String, Stop<'a>>
    ensures ok { IfOk result (λ text. IsShownText (F.told files.old name.now) (string_bytes text)) }
    ensures err { IfErr result (λ stop. BecauseOfFile stop (λ file. (file ≡ name.now)
        × (F.failed files.new ≡ Some (F.reads files.old))
        × Rose (F.faults files.old) (F.faults files.new)) (λ file. (file ≡ name.now)
        × IsTooLong (F.told files.old file))) }
    ensures later { F.faults files.old ≤ F.faults files.new }
{
    let bytes = match load(alloc, name, files) {
        Ok(bytes) => bytes,
        Err(stop) => return Err(stop),
    };
    match show_frames(alloc, bytes.as_slice()) {
        Ok(text) => Ok(text),
        Err(_) => Err(Stop::Memory),
    }
}

// The text that the words' command prints, or why there is none.
fn outcome<'a, F: Files>(
    alloc: Global,
    words: &'a [String],
    files: &mut F,
) -> Result<String, Stop<'a>>
    ensures ok { IfOk result (λ text. Prints words.now (F.told files.old) (string_bytes text)) }
    ensures err { IfErr result (λ stop. Because stop (Fits words.now
        → ⊥) (λ name. IsUnread words.now (F.reads files.old) (F.failed files.new) name
        × Rose (F.faults files.old) (F.faults files.new))
        (HasLong words.now (F.told files.old)) (HasBadKey words.now (F.told files.old))
        (HasBadLine words.now (F.told files.old))) }
    ensures later { F.faults files.old ≤ F.faults files.new }
    ensures unread { (ReadsFiles words.now → ⊥) → files.new ≡ files.old }
{
    match command_of(words) {
        None => Err(Stop::BadWords),
        Some(Command::Replay { key, script }) => replay(alloc, key, script, files),
        Some(Command::Hostile { key, script }) => hostile(alloc, key, script, files),
        Some(Command::Show { file }) => show(alloc, file, files),
        Some(
            Command::Stress {
                seed,
                sessions,
                steps,
            },
        ) => match stress(alloc, seed, sessions, steps) {
            Ok(text) => Ok(text),
            Err(_) => Err(Stop::Memory),
        },
    }
}

// Tries to say that a write failed, whatever comes of it.
#[tactic(auto, unfolding(crate::specs::Printed::line), using(crate::proofs::RunLemmas::reports))]
fn write_fault<E: Sink>(err: &mut E) -> Status
    ensures status { result ≡ Status.WriteFault }
    ensures later { E.faults err.old ≤ E.faults err.new }
    ensures reports { ReportsFault (E.faults err.old) (E.faults err.new)
        (E.taken err.old) (E.taken err.new) }
{
    let _ = err.write(b"cannot write\n");
    Status::WriteFault
}

// Prints a text.
fn print<K: Sink, E: Sink>(out: &mut K, err: &mut E, text: &[u8]) -> Status
    ensures done { result ≡ Status.Done → (E.taken err.new ≡ E.taken err.old)
        × Wrote (K.taken out.old) (K.taken out.new) text.now }
    ensures fault { result ≢ Status.Done → (result ≡ Status.WriteFault)
        × Rose (K.faults out.old) (K.faults out.new)
        × WroteFront (K.taken out.old) (K.taken out.new) text.now
        × ReportsFault (E.faults err.old) (E.faults err.new) (E.taken err.old) (E.taken err.new) }
{
    match out.write(text) {
        Ok(()) => Status::Done,
        Err(_) => write_fault(err),
    }
}

// Writes the line of a status, and answers the status, or that the write failed.
fn say<E: Sink>(status: Status, text: &[u8], err: &mut E) -> Status
    ensures ok { result ≢ Status.WriteFault → (result ≡ status)
        × Wrote (E.taken err.old) (E.taken err.new) text.now }
    ensures fault { result ≡ Status.WriteFault → (status ≡ Status.WriteFault)
        ⊎ Rose (E.faults err.old) (E.faults err.new) }
    ensures reports { result ≡ Status.WriteFault → (status ≡ Status.WriteFault)
        ⊎ FailsToReport (E.faults err.old) (E.faults err.new)
        (E.taken err.old) (E.taken err.new) text.now }
{
    match err.write(text) {
        Ok(()) => status,
        Err(_) => write_fault(err),
    }
}

/// Writes the line for want of memory, and returns its status. For a caller that has no words to run.
#[tactic(auto, unfolding(crate::specs::Printed::line))]
pub fn say_no_memory<E: Sink>(err: &mut E) -> Status
    ensures memory { result ≢ Status.WriteFault → (result ≡ Status.Memory)
        × Wrote (E.taken err.old) (E.taken err.new) (line (codes "no memory") []) }
    ensures fault { result ≡ Status.WriteFault → Rose (E.faults err.old) (E.faults err.new) }
    ensures reports { result ≡ Status.WriteFault → FailsToReport (E.faults err.old)
        (E.faults err.new) (E.taken err.old) (E.taken err.new) (line (codes "no memory") []) }
{
    say(Status::Memory, b"no memory\n", err)
}

/// Says why a run stopped, and answers its status.
pub fn complain<E: Sink>(alloc: Global, stop: Stop<'_>, err: &mut E) -> Status
    ensures status { (result ≡ status_of stop.entry) ⊎ (result ≡ Status.Memory)
        ⊎ (result ≡ Status.WriteFault) }
    ensures stopped { result ≡ status_of stop.entry
        → Wrote (E.taken err.old) (E.taken err.new) (complaint_of stop.entry) }
    ensures memory { result ≡ Status.Memory
        → Wrote (E.taken err.old) (E.taken err.new) (line (codes "no memory") []) }
    ensures fault { result ≡ Status.WriteFault → Rose (E.faults err.old) (E.faults err.new) }
    ensures reports { result ≡ Status.WriteFault → (text : List ℕ)
        × ((text ≡ complaint_of stop.entry) ⊎ (text ≡ line (codes "no memory") []))
        × FailsToReport (E.faults err.old) (E.faults err.new)
        (E.taken err.old) (E.taken err.new) text }
{
    match complaint(alloc, stop) {
        Ok(text) => say(status_of(stop), text.as_bytes(), err),
        Err(_) => say_no_memory(err),
    }
}

/// Runs the command that the words name: what it prints goes to `out`, and what it complains of to `err`.
///
/// The words are those of a command line without the program's name. Files have at most 268,435,456 bytes and are read
/// whole. Each status but `Done` has its line on `err`; only `Done` and `WriteFault` write to `out`.
#[tactic(auto, using(crate::proofs::RunLemmas::stops))]
pub fn run<F: Files, K: Sink, E: Sink>(
    alloc: Global,
    words: &[String],
    files: &mut F,
    out: &mut K,
    err: &mut E,
) -> Status
    // No row of the table of commands fits.
    ensures bad_words { result ≡ Status.BadWords → Fits words.now → ⊥ }
    ensures no_row { (Fits words.now → ⊥) → (result ≡ Status.BadWords)
        ⊎ (result ≡ Status.WriteFault) ⊎ (result ≡ Status.Memory) }
    // A file was not read, and is named: a key is read first, and its script second.
    ensures read_fault { result ≡ Status.ReadFault → ReadsFiles words.now
        × Rose (F.faults files.old) (F.faults files.new) }
    ensures unread_file { result ≡ Status.ReadFault → (name : List ℕ)
        × IsUnread words.now (F.reads files.old) (F.failed files.new) name
        × Wrote (E.taken err.old) (E.taken err.new) (unread_line name) }
    // A file is too long, and is named: a script only where the key may be one.
    ensures too_long { result ≡ Status.InputTooLong → (name : List ℕ)
        × HasLong words.now (F.told files.old) name
        × Wrote (E.taken err.old) (E.taken err.new) (too_long_line name) }
    // A file that is longer ends the run so, but for faults and want of memory.
    ensures long { StopsAtFile words.now (F.told files.old) → (result ≡ Status.InputTooLong)
        ⊎ (result ≡ Status.ReadFault) ⊎ (result ≡ Status.WriteFault)
        ⊎ (result ≡ Status.Memory) }
    // The key has a length that no key file has, and it is told.
    ensures key_malformed { result ≡ Status.KeyMalformed → (size : ℕ)
        × HasBadKey words.now (F.told files.old) size
        × Wrote (E.taken err.old) (E.taken err.new) (bad_key_line size) }
    // A key that can only be malformed ends the run so, but for faults and want of memory.
    ensures bad_key { StopsAtKey words.now (F.told files.old) → (result ≡ Status.KeyMalformed)
        ⊎ (result ≡ Status.ReadFault) ⊎ (result ≡ Status.WriteFault)
        ⊎ (result ≡ Status.Memory) }
    // The script is outside its grammar, and its first line that fits no event where it stands is told.
    ensures script_malformed { result ≡ Status.ScriptMalformed → (number : ℕ)
        × HasBadLine words.now (F.told files.old) number
        × Wrote (E.taken err.old) (E.taken err.new) (bad_script_line number) }
    // A script that can only be outside its grammar ends the run so, but for the same.
    ensures bad_script { StopsAtLine words.now (F.told files.old)
        → (result ≡ Status.ScriptMalformed) ⊎ (result ≡ Status.ReadFault)
        ⊎ (result ≡ Status.WriteFault) ⊎ (result ≡ Status.Memory) }
    // Only a replay, a hostile and a show read files.
    ensures unread { (ReadsFiles words.now → ⊥) → files.new ≡ files.old }
    // What is printed.
    ensures done { result ≡ Status.Done → (text : List ℕ)
        × Prints words.now (F.told files.old) text
        × Wrote (K.taken out.old) (K.taken out.new) text }
    // A write failed, and `out` took nothing or a front of the text.
    ensures write_fault { result ≡ Status.WriteFault
        → Rose (K.faults out.old) (K.faults out.new) ⊎ Rose (E.faults err.old) (E.faults err.new) }
    ensures front { result ≡ Status.WriteFault → (K.taken out.new ≡ K.taken out.old)
        ⊎ ((text : List ℕ) × Prints words.now (F.told files.old) text
        × WroteFront (K.taken out.old) (K.taken out.new) text) }
    // `err` took a front of the line for that, behind a front of another line where that one's write failed.
    ensures reports { result ≡ Status.WriteFault
        → ReportsFault (E.faults err.old) (E.faults err.new) (E.taken err.old) (E.taken err.new)
        ⊎ ((text : List ℕ) × IsLine words.now text
        × FailsToReport (E.faults err.old) (E.faults err.new)
        (E.taken err.old) (E.taken err.new) text) }
    // Each other status leaves `out` as it was, and has its line on `err`.
    ensures quiet { result ≢ Status.Done → result ≢ Status.WriteFault
        → K.taken out.new ≡ K.taken out.old }
    ensures complains { Complains words.now result (E.taken err.old) (E.taken err.new) }
    // It serves nobody.
    ensures own { (result ≡ Status.HostFault → ⊥) × (result ≡ Status.NumbersUsed → ⊥) }
    // Where no cause holds and nothing fails, it is done but for memory.
    ensures complete { Fits words.now
        → ((name : List ℕ) → HasLong words.now (F.told files.old) name → ⊥)
        → ((size : ℕ) → HasBadKey words.now (F.told files.old) size → ⊥)
        → ((number : ℕ) → HasBadLine words.now (F.told files.old) number → ⊥)
        → (Rose (F.faults files.old) (F.faults files.new) → ⊥)
        → (Rose (K.faults out.old) (K.faults out.new) → ⊥)
        → (Rose (E.faults err.old) (E.faults err.new) → ⊥)
        → (result ≡ Status.Done) ⊎ (result ≡ Status.Memory) }
{
    match outcome(alloc, words, files) {
        Ok(text) => print(out, err, text.as_bytes()),
        Err(stop) => complain(alloc, stop, err),
    }
}
