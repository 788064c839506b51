//! A client of the server.
use std::alloc::Global;
use std::io::{Read, Write};
use std::net::{Net, SocketAddr, TcpStream};
use std::rt::Clock;
use std::time::Duration;
use std::{io, thread};

/// How long a client waits for what it is to be told, in seconds.
const PATIENCE: u64 = 20;

/// How long it rests between two pieces, in milliseconds: the server reads each on its own.
const REST: u64 = 2;

/// What a client says in two pieces, and what it is told then.
#[derive(Clone, Copy, Debug)]
pub struct Turn {
    pub first: &'static [u8],
    pub second: &'static [u8],
    pub told: &'static [u8],
}

/// What it says in one piece.
pub fn at_once(said: &'static [u8], told: &'static [u8]) -> Turn {
    Turn {
        first: said,
        second: b"",
        told,
    }
}

/// Talks on a link of its own. Gives what it is told otherwise.
pub fn talk<R: Net<Stream = TcpStream> + Clock>(
    rt: &R,
    alloc: Global,
    address: SocketAddr,
    turns: &[Turn],
) -> io::Result<String> {
    let mut socket = TcpStream::connect(rt, address)?;
    socket.set_nodelay(true)?;
    socket.set_read_timeout(Some(Duration::from_secs(PATIENCE)))?;
    let mut others = String::new(alloc);
    for turn in turns {
        socket.write_all(turn.first)?;
        if !turn.second.is_empty() {
            thread::sleep(rt, Duration::from_millis(REST));
            socket.write_all(turn.second)?;
        }
        let mut told = Vec::from_slice(alloc, turn.told)?;
        socket.read_exact(told.as_mut_slice())?;
        if told.as_slice() != turn.told {
            write!(&mut others, "{turn:?}: {told:?}; ")?;
        }
    }
    Ok(others)
}

/// Has the server end, on a link of its own. Gives all that it is told there.
pub fn shut_down<N: Net<Stream = TcpStream>>(
    net: &N,
    alloc: Global,
    address: SocketAddr,
) -> io::Result<String> {
    let mut socket = TcpStream::connect(net, address)?;
    socket.set_read_timeout(Some(Duration::from_secs(PATIENCE)))?;
    socket.write_all(b"connect #4\r\n;shutdown()\r\n")?;
    io::read_to_string(alloc, socket)
}
