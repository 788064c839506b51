//! `moo-parse`: says whether the text on the standard input is a program, and else its first fault. `./bench/run parse` measures it: whatever else parses
//! a text also compiles what it read.
#![tactic(auto)]

use moo_syntax::parse::parse;
use std::io::{self, Read};

fn main(rt: HostRuntime) -> io::Result<()> {
    let mut text = Vec::new(rt.alloc());
    rt.reader().read_to_end(&mut text)?;
    match parse(rt.alloc(), &text) {
        Ok(_) => println!(rt; "a program"),
        Err(fault) => println!(rt; "{fault}"),
    }
}
