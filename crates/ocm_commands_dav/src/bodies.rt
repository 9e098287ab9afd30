ghost use Rattle.std.specs.Prelude.{◌≡◌, ◌≢◌, ◌<◌, Err, IfOk, IfSome, length};
ghost use Rattle.ocm_base.specs.Outside.{Rose};
ghost use Rattle.ocm_limits.specs.Limits.{most_body_bytes};
ghost use Rattle.ocm_commands_dav.specs.Exchanges.{Reads};
ghost use Rattle.ocm_commands_dav.specs.declared.verbs.Verb.TheVariants as verbs;

use crate::verbs::Verb;
use ocm_base::{Bytes, ReadEnd, Source, read_whole};
use ocm_limits::MOST_BODY_BYTES;
use std::alloc::Global;

/// The bytes that the verb sends: for `put` the whole source, read to its end.
pub fn body_for<S: Source>(alloc: Global, verb: Verb, source: &mut S) -> Result<Bytes, ReadEnd>
    ensures ok { IfOk result (λ body. Reads verb (S.left source.old) (S.left source.new) body) }
    ensures unread { verb ≢ verbs.Put → source.new ≡ source.old }
    ensures read_fault { result ≡ Err ReadEnd.ReadFault → (verb ≡ verbs.Put) × Rose (S.faults source.old) (S.faults source.new) }
    ensures too_long { result ≡ Err ReadEnd.TooLong → (verb ≡ verbs.Put) × IfSome (S.left source.old) (λ bytes. most_body_bytes < length bytes) }
{
    match verb {
        Verb::Put => read_whole(alloc, source, MOST_BODY_BYTES),
        Verb::Get | Verb::Delete | Verb::MakeCollection | Verb::List => Ok(Bytes::new(alloc)),
    }
}
