//! A server over the fixture, with one client.
use crate::talk_rows::client::{Turn, shut_down, talk};
use server_loop::serving::serve;
use speculate::gate::Free;
use std::alloc::Global;
use std::net::{Ipv4Addr, Net, SocketAddr, TcpListener, TcpStream};
use std::rt::Clock;
use std::sync::Wait;
use std::thread::Threads;
use std::{io, thread};
use whole_files::writing::WholeFiles;
use world_fixture::fixture::fixture;

/// What a client is told otherwise than its turns say, and what the server says.
pub fn others<
    R: AllocGlobal
        + WholeFiles
        + Threads
        + Wait
        + Clock
        + Net<Listener = TcpListener, Stream = TcpStream>
        + Copy
        + Send
        + Sync
        + 'static,
>(rt: R, turns: Vec<Turn>) -> io::Result<String> {
    let alloc = rt.alloc();
    let world = fixture(alloc)?;
    let listener = TcpListener::bind(&rt, (Ipv4Addr::LOCALHOST, 0))?;
    let address = listener.local_addr()?;
    let client = thread::spawn(&rt, move || visit(&rt, alloc, address, turns.as_slice()))?;
    let mut errors = Vec::new(alloc);
    let status = serve(
        rt,
        alloc,
        &Free,
        world,
        listener,
        &rt,
        [0; 32],
        2,
        None,
        &mut errors,
    );
    let mut others = client.join(&rt)?;
    if status != 0 || !errors.is_empty() {
        write!(&mut others, "status {status}, {errors:?}")?;
    }
    Ok(others)
}

// The client talks, and then has the server end.
fn visit<R: Net<Stream = TcpStream> + Clock>(
    rt: &R,
    alloc: Global,
    address: SocketAddr,
    turns: &[Turn],
) -> io::Result<String> {
    let others = talk(rt, alloc, address, turns);
    shut_down(rt, alloc, address)?;
    others
}
