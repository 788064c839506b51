//! One run of the program.
use crate::options::{Options, read_options, read_port};
use checkpoint::world_files::reading::read_world_file;
use moo_script::number::read_key;
use moo_server::command_line::{as_texts, read_words, refuse, refuse_options, refuse_words};
use moo_server::fixture::fixture;
use moo_server::play::{read_workers, stopped};
use server_loop::serving::serve;
use speculate::gate::Free;
use std::alloc::AllocError;
use std::io;
use std::io::Write;
use std::net::{Net, TcpListener, TcpStream};
use std::rt::{Clock, Env, Files};
use std::sync::Wait;
use std::thread::Threads;
use whole_files::writing::WholeFiles;
use world::worlds::World;

/// The program's name.
const PROGRAM: &str = "moo-server";

/// Reads the words and serves what they ask for. Gives the status.
pub fn run<
    R: Print
        + Eprint
        + AllocGlobal
        + Files
        + WholeFiles
        + Env
        + Threads
        + Wait
        + Clock
        + Net<Listener = TcpListener, Stream = TcpStream>
        + Copy
        + Send
        + Sync
        + 'static,
    E: Write,
>(rt: R, errors: &mut E) -> u8 {
    let words = match read_words(&rt) {
        Ok(words) => words,
        Err(error) => return refuse_words(&rt, errors, PROGRAM, &error),
    };
    let Ok(words) = as_texts(rt.alloc(), &words) else {
        return stopped(errors, 0);
    };
    match read_options(rt.alloc(), words.as_slice()) {
        Ok(options) => run_options(rt, &options, errors),
        Err(error) => refuse_options(&rt, errors, &error),
    }
}

// Reads what the words name, and serves. Of several faults the first one is told.
fn run_options<
    R: AllocGlobal
        + Files
        + WholeFiles
        + Threads
        + Wait
        + Clock
        + Net<Listener = TcpListener, Stream = TcpStream>
        + Copy
        + Send
        + Sync
        + 'static,
    E: Write,
>(rt: R, options: &Options, errors: &mut E) -> u8 {
    let alloc = rt.alloc();
    let Some(workers) = read_workers(options.workers) else {
        return refuse(errors, PROGRAM, "workers");
    };
    let Some(port) = read_port(options.port) else {
        return refuse(errors, PROGRAM, "port");
    };
    let Some(key) = read_key(options.key.as_bytes()) else {
        return refuse(errors, PROGRAM, "key");
    };
    let mut world = match read_world(&rt, options.world) {
        Ok(Ok(world)) => world,
        Ok(Err(fault)) => return refuse(errors, PROGRAM, fault.as_str()),
        Err(_) => return stopped(errors, 0),
    };
    world.reopen();
    let Ok(listener) = TcpListener::bind(&rt, ("127.0.0.1", port)) else {
        return refuse(errors, PROGRAM, "port");
    };
    if say_where(errors, &listener).is_err() {
        return refuse(errors, PROGRAM, "port");
    }
    serve(
        rt,
        alloc,
        &Free,
        world,
        listener,
        &rt,
        key,
        workers,
        options.out,
        errors,
    )
}

fn say_where<E: Write>(errors: &mut E, listener: &TcpListener) -> io::Result<()> {
    let address = listener.local_addr()?;
    writeln!(errors, "{PROGRAM}: listening on {address}")
}

// The fixture, or the world of a file.
fn read_world<R: AllocGlobal + Files + Threads + Sync>(
    rt: &R,
    name: &str,
) -> Result<Result<World, String>, AllocError> {
    if name == "fixture" {
        return Ok(Ok(fixture(rt.alloc())?));
    }
    read_world_file(rt, name)
}
