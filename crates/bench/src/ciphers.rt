//! AES, and sealing and opening with GCM.

use crate::times::{RUNS, Times};
use aes_block::Key;
use gcm_mode::{GcmKey, seal, unseal};
use std::alloc::{AllocError, Global};
use std::io;
use std::time::Instant;

const KEY: [u8; 16] = [7; 16];

const IV: [u8; 12] = [3; 12];

const BLOCKS: u32 = 1_000_000;

// Texts of these lengths, and how often each is sealed for one time: 8 MiB.
const SIZES: [(usize, u32); 3] = [(64, 131_072), (1_024, 8_192), (1_048_576, 8)];

const MEASURED: u128 = 8_388_608;

/// Prints blocks a second, and bytes that are sealed and opened a second.
pub(crate) fn print_figures(rt: &HostRuntime) -> io::Result<()> {
    let micros = blocks(rt)?;
    println!(rt;
        "AES: {} thousand blocks a second",
        per_micro(u128::from(BLOCKS) * 1_000, micros)
    )?;
    for (size, count) in SIZES {
        let text = text_of(rt.alloc(), size)?;
        let sealing = sealed(rt, text.as_slice(), count)?;
        let opening = opened(rt, text.as_slice(), count)?;
        println!(rt;
            "{size} bytes: sealed at {} MB/s, opened at {} MB/s",
            per_micro(MEASURED, sealing),
            per_micro(MEASURED, opening)
        )?;
    }
    Ok(())
}

// How much is done in a microsecond, which counts as one where it is none.
fn per_micro(amount: u128, micros: u128) -> u128 {
    amount / micros.max(1)
}

fn text_of(alloc: Global, size: usize) -> Result<Vec<u8>, AllocError> {
    let mut text = Vec::with_capacity(alloc, size)?;
    for _ in 0..size {
        text.push(0x5a)?;
    }
    Ok(text)
}

// A block enciphered so often, each time what the time before gave.
fn chained(key: &Key, count: u32) -> [u8; 16] {
    let mut block = [0; 16];
    for _ in 0..count {
        let next = key.encrypt(block);
        block = next;
    }
    block
}

// The time that a chain of blocks takes.
fn blocks(rt: &HostRuntime) -> io::Result<u128> {
    let key = Key::new(KEY);
    let mut times = Times::new(rt.alloc());
    for _ in 0..RUNS {
        let start = Instant::now(rt)?;
        let last = chained(&key, BLOCKS);
        times.add(start.elapsed(rt)?.as_micros())?;
        if last == KEY {
            println!(rt; "an unlikely block")?;
        }
    }
    Ok(times.middle()?)
}

// Seals a text so often, and tells whether it was sealed each time.
fn seal_often(alloc: Global, key: &GcmKey, text: &[u8], count: u32) -> bool {
    let mut into = Vec::new(alloc);
    let mut whole = true;
    for _ in 0..count {
        into.clear();
        if seal(key, &IV, b"", text, &mut into).is_err() {
            whole = false;
        }
    }
    whole
}

// The time that sealing a text so often takes.
fn sealed(rt: &HostRuntime, text: &[u8], count: u32) -> io::Result<u128> {
    let key = GcmKey::new(KEY);
    let mut times = Times::new(rt.alloc());
    for _ in 0..RUNS {
        let start = Instant::now(rt)?;
        let whole = seal_often(rt.alloc(), &key, text, count);
        times.add(start.elapsed(rt)?.as_micros())?;
        if !whole {
            println!(rt; "not sealed")?;
        }
    }
    Ok(times.middle()?)
}

// The tag that stands first in these bytes.
fn tag_of(bytes: &[u8]) -> [u8; 16] {
    let mut tag = [0; 16];
    for (to, from) in tag.iter_mut().zip(bytes.iter()) {
        *to = *from;
    }
    tag
}

// Opens a text with its tag behind it so often, and tells whether it was opened each time.
fn open_often(alloc: Global, key: &GcmKey, sealed: &[u8], count: u32) -> bool {
    let (text, rest) = sealed.split_at(sealed.len().saturating_sub(16));
    let tag = tag_of(rest);
    let mut into = Vec::new(alloc);
    let mut whole = true;
    for _ in 0..count {
        into.clear();
        if !matches!(unseal(key, &IV, b"", text, &tag, &mut into), Ok(true)) {
            whole = false;
        }
    }
    whole
}

// The time that opening a text so often takes.
fn opened(rt: &HostRuntime, text: &[u8], count: u32) -> io::Result<u128> {
    let key = GcmKey::new(KEY);
    let mut sealed = Vec::new(rt.alloc());
    let made = seal(&key, &IV, b"", text, &mut sealed).is_ok();
    let mut times = Times::new(rt.alloc());
    for _ in 0..RUNS {
        let start = Instant::now(rt)?;
        let whole = open_often(rt.alloc(), &key, sealed.as_slice(), count);
        times.add(start.elapsed(rt)?.as_micros())?;
        if !made || !whole {
            println!(rt; "not opened")?;
        }
    }
    Ok(times.middle()?)
}
