//! Sealing and opening paths, and opening the names of many children.

ghost use Rattle.std.specs.Prelude.{◌≤◌, ◌^◌, length};
ghost use Rattle.zk_path.specs.Paths.{text_of};

use crate::times::{RUNS, Times, print_millis};
use jute_core::{Memory, Text};
use path_seal::{NameKeys, NamesUnder, open_path, seal_name, seal_path};
use std::alloc::Global;
use std::io;
use std::time::Instant;
use zk_path::{Path, read_path};

const PATH: &str = "/app/config/node-0000000001";

const PARENT: &str = "/app/config";

// How often a path is sealed or opened for one time.
const COUNT: u32 = 20_000;

const CHILDREN: u32 = 10_000;

// No text here has more bytes.
const LONGEST: usize = 1_000_000;

/// Prints how many paths are sealed and opened a second, and how long many children take to open.
pub(crate) fn print_figures(rt: &HostRuntime) -> io::Result<()> {
    let keys = NameKeys::new([7; 16], [3; 32]);
    let (Ok(path), Ok(parent)) = (read_path(rt.alloc(), PATH), read_path(rt.alloc(), PARENT)) else {
        return Ok(());
    };
    print_each(rt, "sealed", sealed(rt, &keys, &path)?)?;
    print_each(rt, "opened", opened(rt, &keys, &path)?)?;
    print_millis(rt, "10,000 children opened", children(rt, &keys, &parent)?)
}

// Prints what one path takes, where all of them took so many microseconds.
fn print_each(rt: &HostRuntime, done: &str, micros: u128) -> io::Result<()> {
    let nanos = micros.saturating_mul(1_000) / u128::from(COUNT);
    println!(rt;
        "{PATH}: {done} in {}.{:02} microseconds, {} thousand a second",
        nanos / 1_000,
        nanos % 1_000 / 10,
        1_000_000 / nanos.max(1)
    )
}

// Seals a path so often, and tells whether it was sealed each time.
fn seal_often(alloc: Global, keys: &NameKeys, path: &Path) -> bool {
    if path.text().len() > LONGEST {
        return false;
    }
    let mut whole = true;
    for _ in 0..COUNT {
        if seal_path(alloc, keys, path).is_err() {
            whole = false;
        }
    }
    whole
}

// The time that sealing a path so often takes.
fn sealed(rt: &HostRuntime, keys: &NameKeys, path: &Path) -> io::Result<u128> {
    let mut times = Times::new(rt.alloc());
    for _ in 0..RUNS {
        let start = Instant::now(rt)?;
        let whole = seal_often(rt.alloc(), keys, path);
        times.add(start.elapsed(rt)?.as_micros())?;
        if !whole {
            println!(rt; "not sealed")?;
        }
    }
    Ok(times.middle()?)
}

// Opens a sealed path so often, and tells whether it was opened each time.
fn open_often(alloc: Global, keys: &NameKeys, text: &str) -> bool {
    if text.len() > LONGEST {
        return false;
    }
    let mut whole = true;
    for _ in 0..COUNT {
        if !matches!(open_path(alloc, keys, text), Ok(Some(_))) {
            whole = false;
        }
    }
    whole
}

// The time that opening a path so often takes.
fn opened(rt: &HostRuntime, keys: &NameKeys, path: &Path) -> io::Result<u128> {
    if path.text().len() > LONGEST {
        return Ok(0);
    }
    let Ok(text) = seal_path(rt.alloc(), keys, path) else {
        return Ok(0);
    };
    let mut times = Times::new(rt.alloc());
    for _ in 0..RUNS {
        let start = Instant::now(rt)?;
        let whole = open_often(rt.alloc(), keys, text.as_str());
        times.add(start.elapsed(rt)?.as_micros())?;
        if !whole {
            println!(rt; "not opened")?;
        }
    }
    Ok(times.middle()?)
}

// The sealed names of the children of a path.
fn sealed_children(alloc: Global, keys: &NameKeys, parent: &Path) -> Result<Vec<Text>, Memory>
    requires { length (text_of parent.now) ≤ 2 ^ 28 }
{
    let mut names = Vec::new(alloc);
    for number in 0..CHILDREN {
        let name = format!(in alloc; "node-{number:010}")?;
        if name.len() <= LONGEST {
            names.push(seal_name(alloc, keys, parent, name.as_str())?)?;
        }
    }
    Ok(names)
}

// Opens names of children, and tells whether each was opened.
fn open_children(alloc: Global, keys: &NameKeys, parent: &Path, names: &[Text]) -> bool
    requires { length (text_of parent.now) ≤ 2 ^ 28 }
{
    let under = NamesUnder::new(keys, parent);
    let mut whole = true;
    for name in names {
        let text = name.as_str();
        if text.len() > LONGEST || !matches!(under.open(alloc, keys, text), Ok(Some(_))) {
            whole = false;
        }
    }
    whole
}

// The time that opening the names of all children of a path takes.
fn children(rt: &HostRuntime, keys: &NameKeys, parent: &Path) -> io::Result<u128> {
    if parent.text().len() > LONGEST {
        return Ok(0);
    }
    let Ok(names) = sealed_children(rt.alloc(), keys, parent) else {
        return Ok(0);
    };
    let mut times = Times::new(rt.alloc());
    for _ in 0..RUNS {
        let start = Instant::now(rt)?;
        let whole = open_children(rt.alloc(), keys, parent, names.as_slice());
        times.add(start.elapsed(rt)?.as_micros())?;
        if !whole {
            println!(rt; "not opened")?;
        }
    }
    Ok(times.middle()?)
}
