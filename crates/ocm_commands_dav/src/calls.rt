ghost use Rattle.std.specs.Prelude.{◌≡◌, ◌≤◌, true, Err};
ghost use Rattle.ocm_base.specs.Outside.{Rose};
ghost use Rattle.ocm_pump.specs.Exchanges.{AddsSome};
ghost use Rattle.ocm_commands_dav.specs.Exchanges.{Calls, Works, without_status};

use crate::tasks::Task;
use crate::verbs::Verb;
use ocm_base::Bytes;
use ocm_davclient::{Client, ClientFault};
use ocm_path::Path;
use ocm_pump::Dial;
use std::alloc::Global;

/// Searches for the server, and then makes the one request. Answers the bytes that are told of it.
pub fn work<N: Dial>(
    alloc: Global,
    task: Task,
    body: &Bytes,
    dial: &mut N,
) -> Result<Bytes, ClientFault>
    requires delivers { N.delivers dial.old ≡ true }
    ensures exact { AddsSome (N.exchanges dial.old) (N.exchanges dial.new) (λ added. Works task body.now added result) }
    ensures dial_fault { result ≡ Err ClientFault.DialFault → Rose (N.faults dial.old) (N.faults dial.new) }
    ensures never_falls { N.faults dial.old ≤ N.faults dial.new }
{
    let Task {
        verb,
        host,
        secret,
        path,
    } = task;
    match Client::discover(alloc, dial, &host, secret) {
        Ok(client) => call(alloc, &client, verb, &path, body, dial),
        Err(fault) => Err(fault),
    }
}

/// Makes the one request of a verb.
fn call<N: Dial>(
    alloc: Global,
    client: &Client,
    verb: Verb,
    path: &Path,
    body: &Bytes,
    dial: &mut N,
) -> Result<Bytes, ClientFault>
    requires delivers { N.delivers dial.old ≡ true }
    ensures exact { AddsSome (N.exchanges dial.old) (N.exchanges dial.new) (λ added. Calls client.now verb path.now body.now added result) }
    ensures dial_fault { result ≡ Err ClientFault.DialFault → Rose (N.faults dial.old) (N.faults dial.new) }
    ensures never_falls { N.faults dial.old ≤ N.faults dial.new }
{
    match verb {
        Verb::Get => client.get(alloc, dial, path),
        Verb::List => client.list_bytes(alloc, dial, path),
        Verb::Put => without_status(alloc, client.put(alloc, dial, path, body)),
        Verb::Delete => without_status(alloc, client.delete(alloc, dial, path)),
        Verb::MakeCollection => without_status(alloc, client.mkcol(alloc, dial, path)),
    }
}

/// Nothing is told of a change that was made.
fn without_status(alloc: Global, changed: Result<u16, ClientFault>) -> Result<Bytes, ClientFault>
    ensures { result ≡ without_status changed }
{
    match changed {
        Ok(_) => Ok(Bytes::new(alloc)),
        Err(fault) => Err(fault),
    }
}
