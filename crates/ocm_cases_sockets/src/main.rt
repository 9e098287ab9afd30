//! Cases on real sockets: exchanges with a peer, and a running server beside a client. Each line of standard input is one, and
//! for each what it came to is written.
//!
//! | line | case |
//! |---|---|
//! | `exchange` | a client's exchange with a peer in a thread that answers, and one with the same port once nobody listens there |
//! | `serve WORDS` | a server by these words in a thread, and a client |
//!
//! A client of a server has a user made, looks for the server's document, puts a file and gets it, each on a connection of its
//! own. Told are what it was answered, which workers serve and which deliver, and how the server ended.
#![tactic(auto)]

mod dials;
mod peers;
mod servers;
mod visits;

use crate::dials::exchanges_told;
use crate::servers::server_told;
use ocm_cases_rows::{cut, line_of, tell_lines};
use std::alloc::Global;
use std::fs::File;
use std::io::Eprint;
use std::net::{Net, TcpListener, TcpStream};
use std::rt::Files;
use std::sync::Wait;
use std::thread::Threads;
use std::{io, time};

fn main(rt: HostRuntime) -> io::Result<()> {
    let alloc = rt.alloc();
    tell_lines(&rt, alloc, |line| line_of(line_told(&rt, alloc, line)))
}

/// What a case comes to. None where the line is none, or where memory or the system was wanting.
fn line_told<
    R: Threads
        + Wait
        + Sync
        + time::Clock
        + Files<File = File>
        + Eprint
        + Net<Listener = TcpListener, Stream = TcpStream>,
>(rt: &R, alloc: Global, line: &str) -> Option<String> {
    match cut(line, " ") {
        ("exchange", _) => exchanges_told(rt, alloc),
        ("serve", _) => server_told(rt, alloc, line),
        _ => None,
    }
}
