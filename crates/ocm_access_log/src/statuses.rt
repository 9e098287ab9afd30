ghost use Rattle.std.specs.Prelude.{◌≡◌, ◌≤◌};
ghost use Rattle.std.specs.Option.{IfSome};
ghost use Rattle.ocm_access_log.specs.Truth.{status_of};

use ocm_entry::Reply;

/// The status that the reply to a read has: 200 for a file, 207 for items (RFC 4918 section 11.1), or that of the refusal.
/// None where the reply is none to a read.
pub fn status_of(reply: &Reply) -> Option<u16>
    ensures exact { result ≡ status_of reply.now }
    ensures digits { IfSome result (λ status. (100 ≤ status) × (status ≤ 999)) }
{
    match reply {
        Reply::File { .. } => Some(200),
        Reply::Items { .. } => Some(207),
        Reply::Refused { why } => Some(why.status()),
        _ => None,
    }
}
