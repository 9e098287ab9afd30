//! What holds of every host and every address: which texts are canonical, and that its own text
//! reads as itself.

ghost use Rattle.std.specs.Prelude.{◌≡◌, ◌≢◌, ◌<◌, ◌⊎◌, List, ℕ, ◌∷◌, ◌++◌, IsTrue, decimal};
ghost use Rattle.ocm_types.specs.declared.addresses.Address as records;
ghost use Rattle.ocm_types.specs.Texts.{is_name};
ghost use Rattle.ocm_types.specs.Hosts.{HasPort, colon, is_port, is_host_name, is_host, host_of, canonical_host_of};
ghost use Rattle.ocm_types.specs.Addresses.{address_of, address_text, canonical_address_of};

use crate::addresses::Address;
use crate::hosts::Host;

/// Ports are the decimals of 1 to 65,535.
pub fn ports_are_decimals()
    ensures each { (port : ℕ) → 0 < port → port < 65536 → IsTrue (is_port (decimal port)) }
    ensures only { (digits : List ℕ) → IsTrue (is_port digits)
        → (port : ℕ) × (0 < port) × (port < 65536) × (digits ≡ decimal port) }
{}

/// Canonical hosts are the names, and the names with `:` and the decimal of a port other than 80.
pub fn hosts_are_names_and_ports()
    ensures name { (name : List ℕ) → IsTrue (is_host_name name) → IsTrue (is_host name) }
    ensures port { (name : List ℕ) (port : ℕ) → IsTrue (is_host_name name)
        → 0 < port → port < 65536 → port ≢ 80 → IsTrue (is_host (name ++ colon ∷ decimal port)) }
    ensures only { (text : List ℕ) → IsTrue (is_host text)
        → IsTrue (is_host_name text) ⊎ HasPort text }
{}

/// The canonical texts of hosts read as themselves, and what is read is canonical. The strict reader
/// takes the canonical texts, and no others.
pub fn hosts_read_as_themselves()
    ensures read { (text : List ℕ) → IsTrue (is_host text) → host_of text ≡ Ok text }
    ensures canonical { (text host : List ℕ) → host_of text ≡ Ok host → IsTrue (is_host host) }
    ensures strict { (text : List ℕ) → IsTrue (is_host text) → canonical_host_of text ≡ Some text }
    ensures strict_only { (text host : List ℕ) → canonical_host_of text ≡ Some host
        → (host ≡ text) × IsTrue (is_host text) }
{}

/// An address's own text reads as that address, and the parts of what is read meet their rules. The
/// strict reader gives an address for its own text, and for no other.
pub fn addresses_read_as_themselves()
    ensures read { (address : records.Address) → IsTrue (is_name address.user)
        → IsTrue (is_host address.host) → address_of (address_text address) ≡ Ok address }
    ensures parts { (text : List ℕ) (address : records.Address) → address_of text ≡ Ok address
        → IsTrue (is_name address.user) × IsTrue (is_host address.host) }
    ensures strict { (text : List ℕ) (address : records.Address) → address_of text ≡ Ok address
        → text ≡ address_text address → canonical_address_of text ≡ Some address }
    ensures strict_only { (text : List ℕ) (address : records.Address)
        → canonical_address_of text ≡ Some address
        → (text ≡ address_text address) × (address_of text ≡ Ok address) }
{}

/// A host's text reads as that host.
pub fn host_reads_its_text(host: &Host)
    ensures read { host_of host.now ≡ Ok host.now }
    ensures strict { canonical_host_of host.now ≡ Some host.now }
{
    let _text = host.text();
}

/// An address's text reads as that address.
pub fn address_reads_its_text(address: &Address)
    ensures read { address_of (address_text address.now) ≡ Ok address.now }
    ensures strict { canonical_address_of (address_text address.now) ≡ Some address.now }
{
    let _user = address.user.as_str();
    let _host = address.host.text();
}
