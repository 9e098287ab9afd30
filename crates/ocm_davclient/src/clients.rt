ghost use Rattle.std.specs.Prelude.{◌≡◌, ℕ, ◌≤◌, true, [], Err, IfOk, IsErrOf};
ghost use Rattle.ocm_base.specs.Outside.{Rose};
ghost use Rattle.ocm_pump.specs.Exchanges.{AddsSome};
ghost use Rattle.ocm_davclient.specs.Client as client;

use crate::answers::{body_in, success_in};
use crate::faults::ClientFault;
use ocm_base::{Bytes, NoMemory};
use ocm_http::{Message, write_request};
use ocm_path::Path;
use ocm_pump::{Dial, PumpFault, Site, discover, send};
use ocm_types::{Host, Secret};
use std::alloc::Global;
use std::marker::Model;

/// A client of one server's files, which shows one secret. Contracts see where the server gives files, and the secret.
pub struct Client {
    site: Site,
    secret: Secret,
}

impl Drop for Client {
    fn drop(self) {
        let Client { site: _, secret: _ } = self;
    }
}

impl Model for Client {
    ghost use Rattle.ocm_davclient.specs.Client.{Access};

    ghost Value = { Access };

    ghost view = { λ c. record { site = c.site; secret = c.secret } };
}

/// The client of the site that was found.
fn client_in(found: Result<Site, PumpFault>, secret: Secret) -> Result<Client, ClientFault>
    ensures { result ≡ client.client_in found secret }
{
    match found {
        Ok(site) => Ok(Client { site, secret }),
        Err(fault) => Err(ClientFault::from(fault)),
    }
}

impl Client {
    /// A client of the files of the server that a host's discovery document names (Open Cloud Mesh API 1.1). It is asked for
    /// at `/.well-known/ocm`, and where that gives no usable one at `/ocm-provider/`, without the secret.
    pub fn discover<N: Dial>(
        alloc: Global,
        dial: &mut N,
        host: &Host,
        secret: Secret,
    ) -> Result<Client, ClientFault>
        requires delivers { N.delivers dial.old ≡ true }
        // The exchanges that are added, and the answer by the bytes that came back in them.
        ensures exact { AddsSome (N.exchanges dial.old) (N.exchanges dial.new) (λ added. client.Finds host.now secret added result) }
        // What is no reply, or has another status, is passed over by the search.
        ensures no_bad_reply { (place : ℕ) → IsErrOf result (ClientFault.BadReply place) → ⊥ }
        ensures no_status { (code : ℕ) → IsErrOf result (ClientFault.Status code) → ⊥ }
        ensures dial_fault { result ≡ Err ClientFault.DialFault → Rose (N.faults dial.old) (N.faults dial.new) }
        ensures never_falls { N.faults dial.old ≤ N.faults dial.new }
        ensures kind { N.delivers dial.new ≡ N.delivers dial.old }
    {
        let found = discover(alloc, dial, host);
        client_in(found, secret)
    }

    /// The request of a method at a path.
    #[tactic(auto, unfolding(crate::specs::Client::request))]
    fn request(
        &self,
        alloc: Global,
        method: &str,
        path: &Path,
        body: &Bytes,
    ) -> Result<Bytes, NoMemory>
        ensures { IfOk result (λ bytes. bytes ≡ client.request self.now method.now path.now body.now) }
    {
        let escaped = path.escaped()?;
        let mut target = String::from_str(alloc, self.site.webdav.as_str())?;
        target.push_str(escaped.as_str())?;
        write_request(
            alloc,
            &self.site.host,
            method,
            target.as_str(),
            Some(&self.secret),
            body,
        )
    }

    /// Sends the request of a method at a path.
    fn ask<N: Dial>(
        &self,
        alloc: Global,
        dial: &mut N,
        method: &str,
        path: &Path,
        body: &Bytes,
    ) -> Result<Message, PumpFault>
        requires delivers { N.delivers dial.old ≡ true }
        ensures exact { AddsSome (N.exchanges dial.old) (N.exchanges dial.new) (λ added. client.Asks self.now method.now path.now body.now added result) }
        ensures dial_fault { result ≡ Err PumpFault.DialFault → Rose (N.faults dial.old) (N.faults dial.new) }
        ensures never_falls { N.faults dial.old ≤ N.faults dial.new }
        ensures kind { N.delivers dial.new ≡ N.delivers dial.old }
    {
        let request = self.request(alloc, method, path, body)?;
        send(alloc, dial, &self.site.host, &request)
    }

    /// Sends the request of a method at a path, without a body.
    fn ask_bodyless<N: Dial>(
        &self,
        alloc: Global,
        dial: &mut N,
        method: &str,
        path: &Path,
    ) -> Result<Message, PumpFault>
        requires delivers { N.delivers dial.old ≡ true }
        ensures exact { AddsSome (N.exchanges dial.old) (N.exchanges dial.new) (λ added. client.Asks self.now method.now path.now [] added result) }
        ensures dial_fault { result ≡ Err PumpFault.DialFault → Rose (N.faults dial.old) (N.faults dial.new) }
        ensures never_falls { N.faults dial.old ≤ N.faults dial.new }
        ensures kind { N.delivers dial.new ≡ N.delivers dial.old }
    {
        let nothing = Bytes::new(alloc);
        self.ask(alloc, dial, method, path, &nothing)
    }

    /// The bytes of the file at a path: the body of a 200 (RFC 9110 section 9.3.1).
    pub fn get<N: Dial>(
        &self,
        alloc: Global,
        dial: &mut N,
        path: &Path,
    ) -> Result<Bytes, ClientFault>
        requires delivers { N.delivers dial.old ≡ true }
        // The one exchange that is added, and the answer by the bytes that came back in it. Nothing is searched.
        ensures exact { AddsSome (N.exchanges dial.old) (N.exchanges dial.new) (λ added. client.Gets self.now path.now added result) }
        ensures no_search { result ≡ Err ClientFault.NoDiscovery → ⊥ }
        ensures dial_fault { result ≡ Err ClientFault.DialFault → Rose (N.faults dial.old) (N.faults dial.new) }
        ensures never_falls { N.faults dial.old ≤ N.faults dial.new }
        ensures kind { N.delivers dial.new ≡ N.delivers dial.old }
    {
        let sent = self.ask_bodyless(alloc, dial, "GET", path);
        body_in(200, sent)
    }

    /// The multistatus, in XML, of what stands at a path and, for a collection, right below it: the body of a 207
    /// (RFC 4918 section 9.1, depth 1).
    pub fn list_bytes<N: Dial>(
        &self,
        alloc: Global,
        dial: &mut N,
        path: &Path,
    ) -> Result<Bytes, ClientFault>
        requires delivers { N.delivers dial.old ≡ true }
        ensures exact { AddsSome (N.exchanges dial.old) (N.exchanges dial.new) (λ added. client.Lists self.now path.now added result) }
        ensures no_search { result ≡ Err ClientFault.NoDiscovery → ⊥ }
        ensures dial_fault { result ≡ Err ClientFault.DialFault → Rose (N.faults dial.old) (N.faults dial.new) }
        ensures never_falls { N.faults dial.old ≤ N.faults dial.new }
        ensures kind { N.delivers dial.new ≡ N.delivers dial.old }
    {
        let sent = self.ask_bodyless(alloc, dial, "PROPFIND", path);
        body_in(207, sent)
    }

    /// Puts a file with these bytes at a path (RFC 4918 section 9.7). Answers the status, 200 to 299.
    pub fn put<N: Dial>(
        &self,
        alloc: Global,
        dial: &mut N,
        path: &Path,
        body: &Bytes,
    ) -> Result<u16, ClientFault>
        requires delivers { N.delivers dial.old ≡ true }
        ensures exact { AddsSome (N.exchanges dial.old) (N.exchanges dial.new) (λ added. client.Puts self.now path.now body.now added result) }
        ensures no_search { result ≡ Err ClientFault.NoDiscovery → ⊥ }
        ensures dial_fault { result ≡ Err ClientFault.DialFault → Rose (N.faults dial.old) (N.faults dial.new) }
        ensures never_falls { N.faults dial.old ≤ N.faults dial.new }
        ensures kind { N.delivers dial.new ≡ N.delivers dial.old }
    {
        let sent = self.ask(alloc, dial, "PUT", path, body);
        success_in(sent)
    }

    /// Deletes what stands at a path, and all below it (RFC 4918 section 9.6). Answers the status, 200 to 299.
    pub fn delete<N: Dial>(
        &self,
        alloc: Global,
        dial: &mut N,
        path: &Path,
    ) -> Result<u16, ClientFault>
        requires delivers { N.delivers dial.old ≡ true }
        ensures exact { AddsSome (N.exchanges dial.old) (N.exchanges dial.new) (λ added. client.Deletes self.now path.now added result) }
        ensures no_search { result ≡ Err ClientFault.NoDiscovery → ⊥ }
        ensures dial_fault { result ≡ Err ClientFault.DialFault → Rose (N.faults dial.old) (N.faults dial.new) }
        ensures never_falls { N.faults dial.old ≤ N.faults dial.new }
        ensures kind { N.delivers dial.new ≡ N.delivers dial.old }
    {
        let sent = self.ask_bodyless(alloc, dial, "DELETE", path);
        success_in(sent)
    }

    /// Makes a collection at a path (RFC 4918 section 9.3). Answers the status, 200 to 299.
    pub fn mkcol<N: Dial>(
        &self,
        alloc: Global,
        dial: &mut N,
        path: &Path,
    ) -> Result<u16, ClientFault>
        requires delivers { N.delivers dial.old ≡ true }
        ensures exact { AddsSome (N.exchanges dial.old) (N.exchanges dial.new) (λ added. client.MakesCollection self.now path.now added result) }
        ensures no_search { result ≡ Err ClientFault.NoDiscovery → ⊥ }
        ensures dial_fault { result ≡ Err ClientFault.DialFault → Rose (N.faults dial.old) (N.faults dial.new) }
        ensures never_falls { N.faults dial.old ≤ N.faults dial.new }
        ensures kind { N.delivers dial.new ≡ N.delivers dial.old }
    {
        let sent = self.ask_bodyless(alloc, dial, "MKCOL", path);
        success_in(sent)
    }
}
