//! The pages of HTTP that a server's replies become: each is a status, fields and a body as JSON, as the XML of WebDAV
//! (RFC 4918) or as the bytes of a file.
#![tactic(auto)]

mod discovery;
mod errors;
mod fields;
mod files;
mod listings;
mod multistatus;
mod pages;
mod shapes;
mod values;
mod writing;

pub use discovery::discovery_page;
pub use errors::{fault_page, message_page};
pub use multistatus::finite_depth_page;
pub use pages::page_of;
pub use shapes::{Allow, Page, Shape};
