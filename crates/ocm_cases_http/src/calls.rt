//! Calls of a client.
use ocm_base::Bytes;
use ocm_davclient::{Client, ClientFault};
use ocm_path::Path;
use ocm_pump::MemDial;
use ocm_types::{Host, Secret};
use std::alloc::Global;

/// The answer of a client that is found first: `discover`, `get PATH`, `list PATH`, `put PATH BODY`, `mkcol PATH` or
/// `delete PATH`.
pub fn client_told(alloc: Global, dial: &mut MemDial, kind: &str, rest: &str) -> Option<String> {
    match Secret::read(alloc, "000102030405060708090a0b0c0d0e0f") {
        Ok(secret) => with_secret(alloc, dial, secret, kind, rest),
        Err(_) => None,
    }
}

fn with_secret(
    alloc: Global,
    dial: &mut MemDial,
    secret: Secret,
    kind: &str,
    rest: &str,
) -> Option<String> {
    match searched(alloc, dial, secret) {
        Ok(client) => found_told(alloc, dial, client, kind, rest),
        Err(fault) => fault_told(alloc, fault),
    }
}

/// The search for a client of `localhost:8081`, with a secret.
fn searched(alloc: Global, dial: &mut MemDial, secret: Secret) -> Result<Client, ClientFault> {
    match Host::read(alloc, "localhost:8081") {
        Ok(host) => {
            let client = Client::discover(alloc, dial, &host, secret);
            drop(host);
            client
        }
        Err(_) => {
            drop(secret);
            Err(ClientFault::NoMemory)
        }
    }
}

fn found_told(
    alloc: Global,
    dial: &mut MemDial,
    client: Client,
    kind: &str,
    rest: &str,
) -> Option<String> {
    let told = match kind {
        "discover" => String::from_str(alloc, "found").ok(),
        _ => call_told(alloc, dial, &client, kind, rest),
    };
    drop(client);
    told
}

fn call_told(
    alloc: Global,
    dial: &mut MemDial,
    client: &Client,
    kind: &str,
    rest: &str,
) -> Option<String> {
    let (path, body) = rest.split_once(' ').unwrap_or((rest, ""));
    match Path::read(alloc, path) {
        Ok(path) => {
            let told = path_told(alloc, dial, client, kind, &path, body);
            drop(path);
            told
        }
        Err(_) => None,
    }
}

fn path_told(
    alloc: Global,
    dial: &mut MemDial,
    client: &Client,
    kind: &str,
    path: &Path,
    body: &str,
) -> Option<String> {
    match kind {
        "get" => body_told(alloc, client.get(alloc, dial, path)),
        "list" => body_told(alloc, client.list_bytes(alloc, dial, path)),
        "mkcol" => status_told(alloc, client.mkcol(alloc, dial, path)),
        "delete" => status_told(alloc, client.delete(alloc, dial, path)),
        "put" => put_told(alloc, dial, client, path, body),
        _ => None,
    }
}

fn put_told(
    alloc: Global,
    dial: &mut MemDial,
    client: &Client,
    path: &Path,
    body: &str,
) -> Option<String> {
    match Bytes::of(alloc, body.as_bytes()) {
        Ok(body) => {
            let answer = client.put(alloc, dial, path, &body);
            drop(body);
            status_told(alloc, answer)
        }
        Err(_) => None,
    }
}

fn body_told(alloc: Global, answer: Result<Bytes, ClientFault>) -> Option<String> {
    match answer {
        Ok(body) => bytes_told(alloc, body),
        Err(fault) => fault_told(alloc, fault),
    }
}

fn bytes_told(alloc: Global, body: Bytes) -> Option<String> {
    match str::from_utf8(body.as_slice()) {
        Ok(text) => String::from_str(alloc, text).ok(),
        Err(_) => None,
    }
}

fn status_told(alloc: Global, answer: Result<u16, ClientFault>) -> Option<String> {
    match answer {
        Ok(status) => format!(in alloc; "{status}").ok(),
        Err(fault) => fault_told(alloc, fault),
    }
}

fn fault_told(alloc: Global, fault: ClientFault) -> Option<String> {
    format!(in alloc; "{fault:?}").ok()
}
