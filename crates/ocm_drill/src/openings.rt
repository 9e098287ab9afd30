//! The events that a script opens with: each of the four servers gets a user, a collection and a file.

ghost use Rattle.std.specs.Prelude.{◌≡◌, ◌<◌, ◌++◌, map, IfOk, OnOk};
ghost use Rattle.ocm_drill.specs.Federation.{four};
ghost use Rattle.ocm_drill.specs.Script as script;

use crate::federation::{Federation, SERVERS};
use crate::names::key_bytes;
use ocm_base::{List, NoMemory, and};
use ocm_entry::Method;
use ocm_script::{Body, Event};
use std::alloc::Global;

/// The byte that the first files are full of, and how often.
const FILL: u8 = b'a';

const FILL_COUNT: u32 = 16;

/// What four events at the beginning of a script make, one at each server.
#[derive(Clone, Copy)]
pub enum Opening {
    /// The server itself.
    Servers,
    /// Its user.
    Users,
    /// The collection that the user shares.
    Collections,
    /// The file in that collection.
    Files,
}

impl Federation {
    /// The event that makes this at a server.
    #[tactic(auto, unfolding(crate::specs::Script::opened))]
    fn opened(&self, kind: Opening, i: u32) -> Result<Event, NoMemory>
        requires { i < 4 }
        ensures { IfOk result (λ event. event ≡ script.opened kind i) }
    {
        match kind {
            Opening::Servers => {
                let host = self.host(i)?;
                Ok(Event::Node { host })
            }
            Opening::Users => {
                let (host, name) = and(self.host(i)?, self.user(i).user.copy())?;
                let fresh = key_bytes(i);
                Ok(Event::User { host, name, fresh })
            }
            Opening::Collections => {
                let ((host, secret), path) = and(self.account(i)?, self.collection())?;
                Ok(Event::Dav {
                    host,
                    secret,
                    method: Method::Mkcol,
                    path,
                })
            }
            Opening::Files => {
                let ((host, secret), path) = and(self.account(i)?, self.file())?;
                Ok(Event::Put {
                    host,
                    secret,
                    path,
                    body: Body::Fill {
                        byte: FILL,
                        count: FILL_COUNT,
                    },
                })
            }
        }
    }

    /// Adds the events that make this at each server.
    fn add_opened(&self, events: &mut List<Event>, kind: Opening) -> Result<(), NoMemory>
        ensures { OnOk result (events.new ≡ events.old ++ map (script.opened kind) four) }
    {
        for i in 0..SERVERS {
            let event = self.opened(kind, i)?;
            events.push(event)?;
        }
        Ok(())
    }

    /// Adds the events that a script opens with.
    pub fn add_opening(&self, events: &mut List<Event>) -> Result<(), NoMemory>
        ensures { OnOk result (events.new ≡ events.old ++ script.opening) }
    {
        self.add_opened(events, Opening::Servers)?;
        self.add_opened(events, Opening::Users)?;
        self.add_opened(events, Opening::Collections)?;
        self.add_opened(events, Opening::Files)
    }
}
