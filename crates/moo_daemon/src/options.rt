//! The words of `moo-server`.
ghost use Rattle.std.specs.Prelude.{◌≡◌, MatchOption};
ghost use Rattle.moo_script.specs.Numbers.{number_value};
ghost use Rattle.moo_daemon.specs.Ports.{NamesPort};

use clap::{Arg, ArgAction, Command, Error};
use moo_script::number::read_number;
use std::alloc::Global;

/// The port where nothing was said.
const PORT: &str = "7777";

/// The key where nothing was said.
const KEY: &str = "0000000000000000000000000000000000000000000000000000000000000000";

/// The words of `moo-server`, as they were given.
#[derive(Clone, Copy, Debug)]
pub struct Options<'a> {
    /// A checkpoint file, or the word `fixture`.
    pub world: &'a str,
    /// The port on 127.0.0.1, 7777 where nothing was said.
    pub port: &'a str,
    /// How many workers, 1 where nothing was said.
    pub workers: &'a str,
    /// The key of every step, 64 zeros where nothing was said.
    pub key: &'a str,
    /// The file that gets the checkpoints of the world.
    pub out: Option<&'a str>,
}

/// Reads `moo-server WORLD --port P --workers N --key H --out FILE`. The first word is the program's own name.
pub fn read_options<'a>(alloc: Global, words: &'a [&'a str]) -> Result<Options<'a>, Error> {
    let world = Arg::new(alloc, "WORLD")
        .required(true)
        .help("A checkpoint file, or the word `fixture`");
    let port = valued(
        alloc,
        "port",
        "P",
        "The port on 127.0.0.1, from 1 to 65535 [default: 7777]",
    );
    let workers = valued(
        alloc,
        "workers",
        "N",
        "How many workers run a long list of steps, from 1 to 64 [default: 1]",
    );
    let key = valued(
        alloc,
        "key",
        "H",
        "What random words are made from, 64 hexadecimal digits in lower case [default: zeros]",
    );
    let out = valued(
        alloc,
        "out",
        "FILE",
        "Gets a checkpoint of the world when a task asks for one, and at the end",
    );
    let command = Command::new(alloc, "moo-server")
        .bin_name("moo-server")?
        .about("Serves a world to Telnet clients on this machine")
        .arg(world)?
        .arg(port)?
        .arg(workers)?
        .arg(key)?
        .arg(out)?;
    let matches = command.try_get_matches_from(words)?;
    Ok(Options {
        world: matches.get_str("WORLD").unwrap_or(""),
        port: matches.get_str("port").unwrap_or(PORT),
        workers: matches.get_str("workers").unwrap_or("1"),
        key: matches.get_str("key").unwrap_or(KEY),
        out: matches.get_str("out"),
    })
}

// An option with a value.
fn valued(
    alloc: Global,
    name: &'static str,
    value: &'static str,
    help: &'static str,
) -> Arg<'static> {
    Arg::new(alloc, name)
        .long(name)
        .value_name(value)
        .action(ArgAction::Set)
        .help(help)
}

/// The port that the word names: a number from 1 to 65535 without needless zeros.
pub fn read_port(word: &str) -> Option<u16>
    ensures { MatchOption result (NamesPort word.now → ⊥) (λ port. NamesPort word.now × (port ≡ number_value word.now)) }
{
    let port = read_number(word.as_bytes())?;
    if 1 <= port && port <= 65535 {
        Some(port as u16)
    } else {
        None
    }
}
