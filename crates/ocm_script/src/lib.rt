//! Scripts: the bytes that a replay runs, read into events.
//!
//! A script is lines, each ended by a line feed, which the last may lack; behind the last line feed no
//! line begins. It has at most 100,000 lines, of at most 4,096 bytes each. Each line is one event.
//!
//! An empty line, and one that begins with `#`, is [`Event::Quiet`]. Every other line is words with one
//! space between each two, in one of these forms, with nothing behind:
//!
//! ```text
//! node HOST                                     a server; at most 16
//! user HOST NAME FRESH                          a user, whose key is drawn from FRESH
//! share HOST KEY PATH ADDRESS LIST FRESH        a user shares what is at a path
//! unshare HOST KEY NUMBER                       a share is closed
//! limit HOST KEY NUMBER LIST                    a share gets other permissions
//! accept HOST KEY NUMBER                        a received share is taken
//! decline HOST KEY NUMBER                       a received share is given back
//! reshare HOST KEY NUMBER ADDRESS LIST          the owner is asked to share further; `-` for no LIST
//! undo HOST KEY NUMBER                          a further share is taken back
//! list HOST KEY                                 all shares, received shares and requests
//! expire HOST KEY NUMBER NUMBER                 a share ends at a moment, the second number
//! get HOST SECRET PATH                          a file is got; so `head`, `delete`, `mkcol`, `list0`, `list1`
//! put HOST SECRET PATH text:J                   a file of the bytes J: the rest of the line
//! put HOST SECRET PATH hex:DIGITS               a file of these bytes
//! put HOST SECRET PATH fill:DD:COUNT            a file of COUNT times the byte DD, at most 2,000,000
//! copy HOST SECRET PATH PATH overwrite          what is at the first path is copied to the second; or `keep`
//! move HOST SECRET PATH PATH overwrite          the same, moved
//! clock HOST NUMBER                             the time, in seconds since the epoch
//! offer HOST J                                  an offer that no server sent
//! notice HOST FRESH J                           a notification that no server sent
//! raw HOST FRESH DIGITS                         a connection that sends these bytes
//! deliver HOST NUMBER FRESH                     a message is given to the server that it is for
//! lost HOST NUMBER FRESH                        the same, and the reply does not come back
//! pump HOST FRESH                               all messages that are due are given to their servers
//! fuse HOST NUMBER                              the server's disk fails once it was called so often
//! crash HOST old                                the server's disk crashes; or `new`, `torn`
//! restart HOST                                  the same as `crash HOST new`
//! ```
//!
//! `node` names a canonical host that no line before it names, and elsewhere HOST is one that an earlier
//! line named. A FRESH is 32 hexadecimal digits, the digits of bytes are an even number, and both are
//! lower-case. A PATH is percent-encoded and begins with `/`; an ADDRESS is in its canonical text; a LIST
//! is some of `read`, `write` and `share`, in this order, with a comma between each two; a NUMBER is a
//! decimal below 2^32 and, as COUNT, has no leading zero. A word is UTF-8; J may be any bytes, or none.
#![tactic(auto)]

mod bodies;
mod command_lines;
mod events;
mod faults;
mod file_lines;
mod forms;
mod last_words;
mod letter_lines;
mod lines;
mod next_words;
mod scripts;
mod server_lines;
mod words;

pub use events::{Body, Event};
pub use faults::ScriptFault;
pub use ocm_disk::Crash;
pub use scripts::read_script;
