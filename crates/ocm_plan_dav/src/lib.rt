//! What a server plans for requests for files (RFC 4918) by the holders of secrets.
//!
//! [`plan_dav`] plans what is answered to GET, HEAD, PUT, MKCOL, DELETE and PROPFIND, [`plan_carry`] what
//! is answered to COPY and MOVE. A secret that holds nothing, or a share that is not live, is refused
//! before anything is said about a path; then come the rights of the holder, and then what stands at the
//! place. A path is read below the holder's root. A file's bytes are copied once, where they are kept or
//! replied.
#![tactic(auto)]

mod access;
mod carries;
mod files;
mod listings;
mod requests;

pub use carries::plan_carry;
pub use requests::plan_dav;
