//! One run of the program.
use crate::files::{read_script, read_world, write_world};
use moo_server::command_line::{as_texts, read_words, refuse_options, refuse_words};
use moo_server::given::Options;
use moo_server::play::{DONE, FAULT, play_script, read_workers, refuse, stopped};
use moo_server::words::options;
use speculate::gate::Free;
use std::io::{BufWriter, Write};
use std::rt::{Clock, Env, Files};
use std::sync::Wait;
use std::thread::Threads;
use std::{io, mem};
use world::worlds::World;

/// Reads the words and runs what they ask for. Gives the status.
pub fn run<
    R: Print + Eprint + Input + AllocGlobal + Files + Env + Threads + Wait + Clock + Sync,
    E: Write,
>(rt: &R, errors: &mut E) -> u8 {
    let words = match read_words(rt) {
        Ok(words) => words,
        Err(error) => return refuse_words(rt, errors, "moo-play", &error),
    };
    let Ok(words) = as_texts(rt.alloc(), &words) else {
        return stopped(errors, 0);
    };
    match options(rt.alloc(), words.as_slice()) {
        Ok(options) => run_options(rt, &options, errors),
        Err(error) => refuse_options(rt, errors, &error),
    }
}

// Reads what the words name, and plays.
fn run_options<R: Print + Input + AllocGlobal + Files + Threads + Wait + Clock + Sync, E: Write>(
    rt: &R,
    options: &Options,
    errors: &mut E,
) -> u8 {
    let alloc = rt.alloc();
    if read_workers(options.workers).is_none() {
        return refuse(errors, "workers");
    }
    let world = match read_world(rt, options.world) {
        Ok(Ok(world)) => world,
        Ok(Err(fault)) => return refuse(errors, fault.as_str()),
        Err(_) => return stopped(errors, 0),
    };
    let Ok(script) = read_script(rt, options.script) else {
        return stopped(errors, 0);
    };
    let Ok(mut out) = BufWriter::new(alloc, io::writer(rt)) else {
        return stopped(errors, 0);
    };
    let (world, status) = play_script(
        rt,
        alloc,
        &Free,
        options.workers,
        Ok(world),
        script,
        &mut out,
        errors,
    );
    match world {
        Some(world) => end(rt, options, world, status, errors),
        None => status,
    }
}

// Writes the world at the end of a whole run, where that is asked for. The program ends then, and the system takes its memory at once: so the world
// is not let go record by record.
fn end<R: AllocGlobal + Files + Threads + Sync, E: Write>(
    rt: &R,
    options: &Options,
    world: World,
    status: u8,
    errors: &mut E,
) -> u8 {
    let status = match options.out {
        Some(name) if status == DONE => save(rt, name, &world, errors),
        _ => status,
    };
    mem::forget(world);
    status
}

// Writes the world at the end.
fn save<R: AllocGlobal + Files + Threads + Sync, E: Write>(
    rt: &R,
    name: &str,
    world: &World,
    errors: &mut E,
) -> u8 {
    if write_world(rt, name, world).is_ok() {
        return DONE;
    }
    let _ = writeln!(errors, "moo-play: cannot write {name}");
    FAULT
}
