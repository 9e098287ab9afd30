ghost use Rattle.std.specs.Prelude.{◌≡◌};
ghost use Rattle.ocm_davclient.specs.Client as client;

use crate::faults::ClientFault;
use ocm_base::Bytes;
use ocm_http::{Head, Message};
use ocm_pump::PumpFault;
use ocm_rules::is_success;

/// The status of a reply.
fn status_of(head: &Head) -> Option<u16>
    ensures { result ≡ client.status_of head.now }
{
    match head {
        Head::Reply { status, fields: _ } => Some(*status),
        Head::Request { .. } => None,
    }
}

/// The body under the status that is wanted.
fn body_if(want: u16, status: Option<u16>, body: Bytes) -> Result<Bytes, ClientFault>
    ensures { result ≡ client.body_if want status body }
{
    match status {
        Some(status) if status == want => Ok(body),
        Some(status) => Err(ClientFault::Status(status)),
        None => Err(ClientFault::BadReply(0)),
    }
}

/// A status of success.
fn success_if(status: Option<u16>) -> Result<u16, ClientFault>
    ensures { result ≡ client.success_if status }
{
    match status {
        Some(status) if is_success(status) => Ok(status),
        Some(status) => Err(ClientFault::Status(status)),
        None => Err(ClientFault::BadReply(0)),
    }
}

/// The body by what came back, which is not copied.
pub fn body_in(want: u16, sent: Result<Message, PumpFault>) -> Result<Bytes, ClientFault>
    ensures { result ≡ client.body_in want sent }
{
    match sent {
        Ok(message) => {
            let status = status_of(&message.head);
            body_if(want, status, message.body)
        }
        Err(fault) => Err(ClientFault::from(fault)),
    }
}

/// The status of success by what came back.
pub fn success_in(sent: Result<Message, PumpFault>) -> Result<u16, ClientFault>
    ensures { result ≡ client.success_in sent }
{
    match sent {
        Ok(message) => success_if(status_of(&message.head)),
        Err(fault) => Err(ClientFault::from(fault)),
    }
}
