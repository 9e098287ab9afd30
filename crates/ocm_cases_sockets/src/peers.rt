//! A peer on this machine that knows no more of HTTP than one reply, with an interim one ahead of it.

use std::io::{Read, Write};
use std::net::{Net, SocketAddr, TcpListener, TcpStream};

/// What the peer answers: an interim reply (RFC 9110 section 15.2), and its reply.
const REPLY: &[u8] =
    b"HTTP/1.1 103 Early Hints\r\n\r\nHTTP/1.1 200 OK\r\nContent-Length: 5\r\n\r\nhello";

/// How many connections it takes at most.
const MOST_CONNECTIONS: u32 = 100;

/// Answers each connection, up to the first on which nothing comes.
pub fn answer_all(listener: &TcpListener) {
    for _ in 0..MOST_CONNECTIONS {
        let Ok((stream, _)) = listener.accept() else {
            return;
        };
        let was_asked = answer(&stream);
        drop(stream);
        if !was_asked {
            return;
        }
    }
}

/// Answers what comes in one piece, as short requests do. False where nothing comes.
fn answer(stream: &TcpStream) -> bool {
    let mut request = [0u8; 256];
    let mut ends = stream;
    match ends.read(&mut request) {
        Ok(0) | Err(_) => false,
        Ok(_) => ends.write_all(REPLY).is_ok(),
    }
}

/// Makes a connection on which nothing comes. Answers whether somebody listens there.
pub fn knock<R: Net<Listener = TcpListener, Stream = TcpStream>>(
    rt: &R,
    address: SocketAddr,
) -> bool {
    TcpStream::connect(rt, address).is_ok()
}
