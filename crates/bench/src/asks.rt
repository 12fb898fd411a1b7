//! Requests of one kind, spelled before they are sent.

use jute_core::{Memory, put_bool, put_buffer, put_count, put_int, put_ustring};
use std::alloc::Global;
use std::mem;
use zk_frame::write_frame;

// The node whose content is asked for, and below which nodes are made.
const PARENT: &str = "/w";

// No path and no body here has more bytes.
const LONGEST: usize = 10_000;

// How many requests come at a time.
const PIECE: u32 = 64;

/// What is asked.
#[derive(Clone, Copy)]
pub(crate) enum Ask {
    /// Makes the parent, with 1 KiB.
    Parent,
    /// The content of the parent.
    Get,
    /// Makes a node below it, with 100 bytes.
    Create,
    /// Deletes such a node.
    Delete,
    Ping,
}

/// Requests in pieces of 64, and how many bytes the answers to all of them have.
#[derive(Drop)]
pub(crate) struct Asks {
    pub(crate) pieces: Vec<Vec<u8>>,
    pub(crate) answers: usize,
}

/// So many requests of one kind; nodes are numbered from 0.
pub(crate) fn spell(alloc: Global, ask: Ask, count: u32) -> Result<Asks, Memory> {
    let mut pieces = Vec::new(alloc);
    let mut piece = Vec::new(alloc);
    for number in 0..count {
        put_ask(alloc, ask, number, &mut piece)?;
        if number % PIECE == PIECE - 1 {
            pieces.push(mem::replace(&mut piece, Vec::new(alloc)))?;
        }
    }
    pieces.push(piece)?;
    Ok(Asks {
        pieces,
        answers: (count as usize).saturating_mul(answer_length(ask)),
    })
}

// The bytes of an answer: the length, the header, and what follows it.
fn answer_length(ask: Ask) -> usize {
    match ask {
        Ask::Parent => 20 + 4 + 2,
        Ask::Get => 20 + 4 + 1024 + 68,
        Ask::Create => 20 + 4 + 14,
        Ask::Delete | Ask::Ping => 20,
    }
}

fn put_ask(alloc: Global, ask: Ask, number: u32, into: &mut Vec<u8>) -> Result<(), Memory> {
    let mut body = Vec::new(alloc);
    match ask {
        Ask::Parent => put_create(PARENT, &[7; 1024], &mut body)?,
        Ask::Get => put_get(&mut body)?,
        Ask::Create => put_create(child(alloc, number)?.as_str(), &[7; 100], &mut body)?,
        Ask::Delete => put_delete(child(alloc, number)?.as_str(), &mut body)?,
        Ask::Ping => put_header(-2, 11, &mut body)?,
    }
    if body.len() > LONGEST {
        return Err(Memory);
    }
    write_frame(body.as_slice(), into)
}

fn child(alloc: Global, number: u32) -> Result<String, Memory> {
    Ok(format!(in alloc; "{PARENT}/n{number:010}")?)
}

fn put_header(xid: i32, kind: i32, into: &mut Vec<u8>) -> Result<(), Memory> {
    put_int(into, xid)?;
    put_int(into, kind)
}

fn put_path(path: &str, into: &mut Vec<u8>) -> Result<(), Memory> {
    if path.len() > LONGEST {
        return Err(Memory);
    }
    put_ustring(into, path)
}

fn put_get(into: &mut Vec<u8>) -> Result<(), Memory> {
    put_header(1, 4, into)?;
    put_path(PARENT, into)?;
    put_bool(into, false)
}

fn put_create(path: &str, content: &[u8], into: &mut Vec<u8>) -> Result<(), Memory> {
    if content.len() > LONGEST {
        return Err(Memory);
    }
    put_header(1, 1, into)?;
    put_path(path, into)?;
    put_buffer(into, Some(content))?;
    put_count(into, Some(1))?;
    put_int(into, 31)?;
    put_path("world", into)?;
    put_path("anyone", into)?;
    put_int(into, 0)
}

fn put_delete(path: &str, into: &mut Vec<u8>) -> Result<(), Memory> {
    put_header(1, 2, into)?;
    put_path(path, into)?;
    put_int(into, -1)
}
