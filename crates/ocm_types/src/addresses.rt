//! The address of a user at a server, and how its text is read.

ghost use Rattle.std.specs.Prelude.{◌≡◌, IfOk};
ghost use Rattle.ocm_types.specs.Hosts.{Gives};
ghost use Rattle.ocm_types.specs.Addresses as addresses;

use crate::address_faults::AddressFault;
use crate::hosts::Host;
use crate::names::Name;
use crate::texts::TextFault;
use ocm_texts::{Copied, NoMemory, Text, and};
use std::alloc::Global;

/// A user at a server.
#[derive(Debug, PartialEq, Eq, Hash)]
pub struct Address {
    /// The user's name. It may have an `@`.
    pub user: Name,
    /// The user's server.
    pub host: Host,
}

impl Drop for Address {
    fn drop(self) {
        let Address { user: _, host: _ } = self;
    }
}

impl Address {
    /// The user's server.
    pub fn into_host(self) -> Host
        ensures { result ≡ self.host }
    {
        let Address { user: _, host } = self;
        host
    }

    /// Reads an address. What stands before the last `@` is the user's name, and what follows it is
    /// read as `Host::read` reads.
    pub fn read(alloc: Global, s: &str) -> Result<Address, AddressFault>
        ensures { Gives (λ a. a) result (addresses.address_of s.now) }
    {
        let (user, host) = parts(s)?;
        let (user, host) = and(read_user(alloc, user)?, Host::read(alloc, host))?;
        Ok(Address { user, host })
    }

    /// The address whose own text this is, and `None` for every other text.
    pub fn read_canonical(alloc: Global, s: &str) -> Result<Option<Address>, NoMemory>
        ensures { IfOk result (λ a. a ≡ addresses.canonical_address_of s.now) }
    {
        match Address::read(alloc, s) {
            Ok(address) => {
                let text = address.text(alloc);
                let (address, text) = and(address, text)?;
                Ok((text.as_str() == s).then_some(address))
            }
            Err(AddressFault::NoMemory) => Err(NoMemory),
            Err(_) => Ok(None),
        }
    }

    /// The user's name, `@` and the host's text.
    pub fn text(&self, alloc: Global) -> Result<Text, NoMemory>
        ensures { IfOk result (λ t. t ≡ addresses.address_text self.now) }
    {
        let mut text = String::from_str(alloc, self.user.as_str())?;
        text.push('@')?;
        text.push_str(self.host.as_str())?;
        Ok(Text::from_string(text))
    }

    /// The same address once more.
    pub fn copy(&self) -> Result<Address, NoMemory>
        ensures { IfOk result (λ a. a ≡ self.now) }
    {
        let (user, host) = and(self.user.copy()?, self.host.copy())?;
        Ok(Address { user, host })
    }
}

impl Copied for Address {
    fn copied(&self) -> Result<Address, NoMemory> {
        self.copy()
    }
}

/// The text before the last `@`, and the one behind it.
fn parts(s: &str) -> Result<(&str, &str), AddressFault>
    ensures { Gives (λ p. (p.0.now, p.1.now)) result (addresses.parts_of s.now) }
{
    s.rsplit_once('@').ok_or(AddressFault::NoAt)
}

/// The user's name.
fn read_user(alloc: Global, s: &str) -> Result<Name, AddressFault>
    ensures { Gives (λ n. n) result (addresses.user_of s.now) }
{
    match Name::read(alloc, s) {
        Ok(name) => Ok(name),
        Err(TextFault::Length) => Err(AddressFault::UserLength),
        Err(TextFault::Char) => Err(AddressFault::UserChar),
        Err(TextFault::NoMemory) => Err(AddressFault::NoMemory),
    }
}
