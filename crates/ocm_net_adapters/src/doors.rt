ghost use Rattle.std.specs.Prelude.{◌≡◌, Some};

use crate::books::Book;
use crate::conns::StreamConn;
use ocm_base::Failed;
use ocm_net_posts::Delivering;
use ocm_net_sockets::Serving;
use ocm_server::Door;
use ocm_server_connections::Ended;
use std::io::Eprint;
use std::net::Net;
use std::sync::Wait;
use std::thread::Threads;
use std::time;

/// Where a worker's connections come from.
#[derive(Drop)]
enum Gives<'a, R: Wait + time::Clock> {
    Serving(Serving<'a, R>),
    Delivering(Delivering<'a, R>),
}

/// One worker's door, of either kind. It tells the connections that it gave and those that came back. No fault of one
/// connection is its own.
#[derive(Drop)]
pub struct NetDoor<'a, R: Wait + time::Clock> {
    gives: Gives<'a, R>,
    book: Book<StreamConn<'a, R>>,
}

impl<'a, R: Wait + time::Clock> NetDoor<'a, R> {
    /// Gives a connection once a whole message of it is here.
    pub fn serving(serving: Serving<'a, R>) -> NetDoor<'a, R> {
        NetDoor {
            gives: Gives::Serving(serving),
            book: Book::new(),
        }
    }

    /// Gives an empty connection where something may be due to other servers, so that a round of delivery follows.
    pub fn delivering(delivering: Delivering<'a, R>) -> NetDoor<'a, R> {
        NetDoor {
            gives: Gives::Delivering(delivering),
            book: Book::new(),
        }
    }

    /// The next connection.
    fn take_next(&mut self) -> Option<StreamConn<'a, R>>
    where
        R: Threads + Net + Eprint,
        ensures { self.new.book ≡ self.old.book }
    {
        match &mut self.gives {
            Gives::Serving(serving) => serving.give().map(StreamConn::new),
            Gives::Delivering(delivering) => round_of(delivering.next()),
        }
    }
}

/// Takes a connection back after its service.
fn take_back<'a, R: Wait + time::Clock>(
    serving: &mut Serving<'a, R>,
    conn: StreamConn<'a, R>,
    ended: Ended,
) {
    let is_sound = conn.is_sound();
    let Some(line) = conn.into_line() else {
        return;
    };
    if !is_sound {
        serving.close(line);
    } else if ended == Ended::Closed && line.is_resting() {
        serving.rest(line);
    } else {
        serving.finish(line);
    }
}

/// An empty connection where a round of delivery is to follow, or the end.
fn round_of<'a, R: time::Clock>(goes_on: bool) -> Option<StreamConn<'a, R>> {
    if goes_on {
        Some(StreamConn::empty())
    } else {
        None
    }
}

impl<'a, R: Wait + time::Clock + Threads + Net + Eprint> Door for NetDoor<'a, R> {
    type Conn = StreamConn<'a, R>;

    ghost told = { λ d. Some d.book };

    ghost faults = { λ _. 0 };

    fn next(&mut self) -> Result<Option<StreamConn<'a, R>>, Failed> {
        match self.take_next() {
            Some(conn) => {
                self.book.give(&conn);
                Ok(Some(conn))
            }
            None => {
                self.book.end();
                Ok(None)
            }
        }
    }

    fn done(&mut self, conn: StreamConn<'a, R>, ended: Ended) {
        let conn = self.book.take_back(conn, ended);
        match &mut self.gives {
            Gives::Serving(serving) => take_back(serving, conn, ended),
            Gives::Delivering(_) => drop(conn),
        }
    }
}
