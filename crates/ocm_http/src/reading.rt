ghost use Rattle.std.specs.Prelude.{◌≡◌, ◌≤◌, [], List, ℕ, length};
ghost use Rattle.ocm_base.specs.Outside.{Rose, flow};
ghost use Rattle.ocm_limits.specs.Limits.{most_body_bytes};
ghost use Rattle.ocm_http.specs.Stages.{Stands};
ghost use Rattle.ocm_http.specs.ReadHeads.{IsHeadIn};
ghost use Rattle.ocm_http.specs.Readers.{ReadOf, Under};

use crate::endings::end;
use crate::heads::begin;
use crate::messages::{FrameFault, Kind, Message};
use crate::read_heads::ReadHead;
use crate::stages::{Begun, Fed, Rules, Stage, feed, past, start};
use crate::windows::Window;
use ocm_base::Source;
use ocm_limits::MOST_BODY_BYTES;

/// Reads to the end of a message, or of the input, or to a fault; counts the bytes that are gone from the window.
pub(crate) fn read_message<S: Source>(
    rules: Rules,
    window: &mut Window,
    source: &mut S,
    gone: &mut u64,
) -> Result<Option<Message>, FrameFault>
    requires { gone.old ≡ 0 }
    ensures read { ReadOf rules.kind rules.max rules.place window.old (flow (S.left source.old) (S.received source.old)) (flow (S.left source.new) (S.received source.new)) window.new gone.new result }
    ensures read_fault { result ≡ Err FrameFault.ReadFault → Rose (S.faults source.old) (S.faults source.new) }
    ensures never_falls { S.faults source.old ≤ S.faults source.new }
    ensures within { length window.new ≤ 4096 }
{
    let stage = start(window.allocator());
    read_on(rules, window, source, gone, stage)
}

/// The same of a request whose head was read ahead, where the window has no bytes. Those of the head count as gone.
pub(crate) fn read_behind<S: Source>(
    place: u64,
    window: &mut Window,
    source: &mut S,
    gone: &mut u64,
    head: ReadHead,
) -> Result<Option<Message>, FrameFault>
    requires { window.old ≡ [] }
    ensures is_head { IsHeadIn head.text head }
    ensures read { ReadOf Kind.Requests most_body_bytes place head.text (flow (S.left source.old) (S.received source.old)) (flow (S.left source.new) (S.received source.new)) window.new gone.new result }
    ensures read_fault { result ≡ Err FrameFault.ReadFault → Rose (S.faults source.old) (S.faults source.new) }
    ensures never_falls { S.faults source.old ≤ S.faults source.new }
    ensures within { length window.new ≤ 4096 }
{
    let alloc = window.allocator();
    let rules = Rules {
        kind: Kind::Requests,
        max: MOST_BODY_BYTES,
        place,
    };
    let (head, body, skipped, size) = head.into_parts();
    let first = past(place, skipped);
    let next = past(place, size);
    *gone = size as u64;
    match begin(alloc, rules, head, body, first, next) {
        Begun::All(message) => Ok(Some(message)),
        Begun::On(stage) => read_on(rules, window, source, gone, stage),
    }
}

/// Reads on from where the reading of a message stands, whatever was read of it before.
fn read_on<S: Source>(
    rules: Rules,
    window: &mut Window,
    source: &mut S,
    gone: &mut u64,
    mut stage: Stage,
) -> Result<Option<Message>, FrameFault>
    requires stands { Stands rules stage }
    ensures read { (held : List ℕ) → Under rules (flow (S.left source.old) (S.received source.old)) (flow (S.left source.old) (S.received source.old)) held window.old stage gone.old → ReadOf rules.kind rules.max rules.place held (flow (S.left source.old) (S.received source.old)) (flow (S.left source.new) (S.received source.new)) window.new gone.new result }
    ensures read_fault { result ≡ Err FrameFault.ReadFault → Rose (S.faults source.old) (S.faults source.new) }
    ensures never_falls { S.faults source.old ≤ S.faults source.new }
    ensures within { length window.new ≤ 4096 }
{
    let alloc = window.allocator();
    'message: loop {
        match window.ready(source) {
            Err(_) => {
                drop(stage);
                return Err(FrameFault::ReadFault);
            }
            Ok(false) => return end(rules, stage),
            Ok(true) => {}
        }
        match feed(alloc, rules, stage, window.as_slice()) {
            Err(fault) => return Err(fault),
            Ok(Fed::Whole(message, n)) => {
                window.skip(n);
                *gone = past(*gone, n);
                return Ok(Some(message));
            }
            Ok(Fed::More(next, n)) => {
                window.skip(n);
                *gone = past(*gone, n);
                stage = next;
            }
        }
    }
}
