ghost use Rattle.std.specs.Prelude.{◌≡◌};
ghost use Rattle.ocm_dav.specs.Verbs as verbs;

/// What a request does with files (RFC 9110 section 9.3, RFC 4918 section 9).
#[derive(Clone, Copy)]
pub(crate) enum Verb {
    Get,
    Head,
    Put,
    Delete,
    Mkcol,
    Propfind,
    Copy,
    Move,
}

/// What the method of this name does with files.
pub(crate) fn verb_of(method: &str) -> Option<Verb>
    ensures { result ≡ verbs.verb_of method.now }
{
    match method {
        "GET" => Some(Verb::Get),
        "HEAD" => Some(Verb::Head),
        "PUT" => Some(Verb::Put),
        "DELETE" => Some(Verb::Delete),
        "MKCOL" => Some(Verb::Mkcol),
        "PROPFIND" => Some(Verb::Propfind),
        "COPY" => Some(Verb::Copy),
        "MOVE" => Some(Verb::Move),
        _ => None,
    }
}
