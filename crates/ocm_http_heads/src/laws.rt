ghost use Rattle.ocm_http_heads.specs.EmptyLines.{HeadsEnd, TrailersEnd};

/// A head ends with the first empty line, that is LF, an optional CR, LF, behind the CR and LF that come first (RFC 9112
/// sections 2.1 and 2.2). It has at most 16,384 bytes and 66 lines.
pub fn head_ends_with_first_empty_line()
    ensures { HeadsEnd }
{}

/// Trailers end with their first empty line. They have at most 8,192 bytes.
pub fn trailers_end_with_first_empty_line()
    ensures { TrailersEnd }
{}
