//! The program: its words go to the top calls, over the system's files, streams and sockets.
#![tactic(auto)]

use audit_board::{Board, LineObserver, SharedBoard};
use jute_core::Memory;
use replay_cli::{RealFiles, StdSink, run, say_no_memory};
use serve_cli::{TcpHost, serve};
use std::process::ExitCode;
use std::{env, io};

// The words of the command line without the program's name; none where they are no texts.
fn words(rt: &HostRuntime) -> Result<Vec<String>, Memory> {
    let mut words = Vec::new(rt.alloc());
    let args = match env::args(rt) {
        Ok(args) => args,
        Err(fault) if fault.kind() == io::ErrorKind::OutOfMemory => return Err(Memory),
        Err(_) => return Ok(words),
    };
    for word in args.skip(1) {
        words.push(word)?;
    }
    Ok(words)
}

// Whether the words are of a command that serves.
fn serves(words: &[String]) -> bool {
    match words.first() {
        Some(word) => word.as_str() == "proxy" || word.as_str() == "store",
        None => false,
    }
}

fn main(rt: HostRuntime) -> io::Result<ExitCode> {
    let mut files = RealFiles::new(rt.clone()?);
    let mut out = StdSink::new(rt.stdout());
    let mut err = StdSink::new(rt.stderr());
    let status = match words(&rt) {
        Ok(words) if serves(words.as_slice()) => {
            let mut board = Board::new(rt.alloc());
            let lines = LineObserver::new(audit_board::StdSink::new(rt.stderr()));
            let _ = board.add(Box::new(rt.alloc(), lines)?);
            let Ok(board) = SharedBoard::new(rt.alloc(), rt.clone()?, board) else {
                return Ok(ExitCode::from(say_no_memory(&mut err).code()));
            };
            let notes = audit_board::StdSink::new(rt.stderr());
            let mut host = TcpHost::new(rt.alloc(), rt.clone()?, notes)?;
            serve(
                &rt,
                rt.alloc(),
                words.as_slice(),
                &mut host,
                &mut files,
                board,
                &mut out,
                &mut err,
            )
        }
        Ok(words) => run(rt.alloc(), words.as_slice(), &mut files, &mut out, &mut err),
        Err(_) => say_no_memory(&mut err),
    };
    Ok(ExitCode::from(status.code()))
}
