//! What a client is answered by a server, over real sockets.
ghost use Rattle.std.specs.Prelude.{◌≡◌, true};

use crate::peers::knock;
use ocm_base::Bytes;
use ocm_davclient::Client;
use ocm_http::{Head, Message, write_request};
use ocm_net_adapters::ClientDial;
use ocm_path::Path;
use ocm_pump::{Dial, send};
use ocm_serve_options::Plan;
use ocm_types::Secret;
use std::alloc::Global;
use std::net::{Net, SocketAddr, TcpListener, TcpStream};
use std::sync::Wait;
use std::time;

/// The body of the request that makes a user.
const NEW_USER: &[u8] = b"{\"command\":\"user\",\"name\":\"alice\"}";

/// What stands before the key in the reply.
const KEY: &str = "{\"key\":\"";

/// What the server of a plan answers a client at its address. Behind that each of its connections is made that the client did
/// not make, so that the server ends whatever the client was answered.
pub fn visits_told<R: Wait + time::Clock + Net<Listener = TcpListener, Stream = TcpStream>>(
    rt: &R,
    alloc: Global,
    plan: &Plan,
    address: SocketAddr,
) -> Option<String> {
    let told = client_told(alloc, &mut ClientDial::new(rt), plan);
    for _ in 0..u64::from(plan.workers).saturating_mul(plan.connections) {
        if !knock(rt, address) {
            break;
        }
    }
    told
}

fn client_told<N: Dial>(alloc: Global, dial: &mut N, plan: &Plan) -> Option<String>
    requires { N.delivers dial.old ≡ true }
{
    match client_of(alloc, dial, plan) {
        Some(client) => files_told(alloc, dial, &client),
        None => String::from_str(alloc, "no client").ok(),
    }
}

/// The client of a new user, at the place that the server's document names.
fn client_of<N: Dial>(alloc: Global, dial: &mut N, plan: &Plan) -> Option<Client>
    requires { N.delivers dial.old ≡ true }
    ensures { N.delivers dial.new ≡ N.delivers dial.old }
{
    let body = Bytes::of(alloc, NEW_USER).ok()?;
    let admin = Some(&plan.admin);
    let request = write_request(alloc, &plan.host, "POST", "/local", admin, &body).ok()?;
    let reply = send(alloc, dial, &plan.host, &request).ok()?;
    let key = key_in(alloc, &reply)?;
    Client::discover(alloc, dial, &plan.host, key).ok()
}

/// The key of a new user, which a reply of status 201 gives.
fn key_in(alloc: Global, reply: &Message) -> Option<Secret> {
    let text = str::from_utf8(reply.body.as_slice()).ok()?;
    let key = text.strip_prefix(KEY)?.strip_suffix("\"}")?;
    match &reply.head {
        Head::Reply { status: 201, .. } => Secret::read(alloc, key).ok(),
        _ => None,
    }
}

/// What a client is answered that puts a file and gets it.
fn files_told<N: Dial>(alloc: Global, dial: &mut N, client: &Client) -> Option<String>
    requires { N.delivers dial.old ≡ true }
{
    let path = Path::read(alloc, "/f").ok()?;
    let body = Bytes::of(alloc, b"hello").ok()?;
    let put = client.put(alloc, dial, &path, &body);
    let got = client.get(alloc, dial, &path);
    let text = match &got {
        Ok(bytes) => str::from_utf8(bytes.as_slice()).unwrap_or("other bytes"),
        Err(_) => "nothing",
    };
    format!(in alloc; "user 201, put {put:?}, get {text}").ok()
}
