//! Reading the words of `moo-play`.
use crate::given::Options;
use clap::{Arg, ArgAction, Command, Error};
use std::alloc::Global;

/// Reads `moo-play WORLD SCRIPT --workers N --out FILE`. The first word is the program's own name.
pub fn options<'a>(alloc: Global, words: &'a [&'a str]) -> Result<Options<'a>, Error> {
    let world = Arg::new(alloc, "WORLD")
        .required(true)
        .help("A checkpoint file, or the word `fixture`");
    let script = Arg::new(alloc, "SCRIPT")
        .required(true)
        .help("A file of steps, or the word `stdin`");
    let workers = Arg::new(alloc, "workers")
        .long("workers")
        .value_name("N")
        .action(ArgAction::Set)
        .help("How many workers run the steps, from 1 to 64 [default: 1]");
    let out = Arg::new(alloc, "out")
        .long("out")
        .value_name("FILE")
        .action(ArgAction::Set)
        .help("Gets the checkpoint of the world at the end");
    let command = Command::new(alloc, "moo-play")
        .bin_name("moo-play")?
        .about("Runs a script of steps over a world")
        .arg(world)?
        .arg(script)?
        .arg(workers)?
        .arg(out)?;
    let matches = command.try_get_matches_from(words)?;
    Ok(Options {
        world: matches.get_str("WORLD").unwrap_or(""),
        script: matches.get_str("SCRIPT").unwrap_or(""),
        workers: matches.get_str("workers").unwrap_or("1"),
        out: matches.get_str("out"),
    })
}
