use ocm_base::Joined;
use ocm_davmore::Span;

/// The methods that a target takes, as a page with the status 405 tells them (RFC 9110 section 10.2.1).
#[derive(Clone, Copy)]
pub enum Allow {
    /// Those of the discovery document: GET and HEAD.
    Discovery,
    /// POST alone.
    Post,
    /// Those of files and collections: GET, HEAD, PUT, DELETE, MKCOL, PROPFIND, COPY and MOVE.
    Dav,
}

/// What a request says of the page that answers it.
#[derive(Clone, Copy)]
pub struct Shape {
    /// It is a HEAD: the page's body is left away, and its length is told all the same (RFC 9110 section 9.3.2).
    pub bodyless: bool,
    /// The connection ends with the page.
    pub closing: bool,
    /// The methods that its target takes.
    pub allow: Allow,
    /// Which bytes of a file it asks for. None for all of them.
    pub range: Option<Span>,
}

/// The answer to a request.
#[derive(Drop)]
pub struct Page {
    /// The status of HTTP.
    pub status: u16,
    /// The whole message, with its first line, its fields and its body (RFC 9112 section 2.1).
    pub bytes: Joined,
}
