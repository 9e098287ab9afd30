//! What a request wants of a server: an ask, or a page at once. A message of HTTP is routed by its
//! target, and read as what Open Cloud Mesh API 1.1, WebDAV (RFC 4918) or the local interface say
//! there.
#![tactic(auto)]

mod carries;
mod configs;
mod depths;
mod fields;
mod files;
mod locals;
mod paths;
mod posts;
mod refusals;
mod routes;
mod secrets;
mod shapes;
mod sites;
mod verbs;
mod wants;

pub use configs::Config;
pub use ocm_dav_pages::{Allow, Page, Shape};
pub use routes::ask_of;
pub use secrets::credentials;
pub use wants::Wanted;
