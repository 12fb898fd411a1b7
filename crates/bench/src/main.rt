//! Figures of the speed of this repository's crates.
//!
//! They are others at each run, so the program prints them only where it is given the word `run`, or `store` for those of the store.
#![tactic(auto)]

mod asks;
mod ciphers;
mod paths;
mod requests;
mod store;
mod times;

use std::{env, io};

fn main(rt: HostRuntime) -> io::Result<()> {
    let mut all = false;
    let mut asked = false;
    for word in env::args(&rt)? {
        match word.as_str() {
            "run" => all = true,
            "store" => asked = true,
            _ => {}
        }
    }
    if !all && !asked {
        return println!(rt; "the word `run` asks for figures of speed");
    }
    store::print_figures(&rt)?;
    if all {
        ciphers::print_figures(&rt)?;
        paths::print_figures(&rt)?;
        requests::print_figures(&rt)?;
    }
    Ok(())
}
