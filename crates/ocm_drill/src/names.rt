//! The names in a drill's events: users, hosts, keys, drawn bytes, paths and permissions.

ghost use Rattle.std.specs.Prelude.{◌≡◌, ◌<◌, Ok, map, IfOk};
ghost use Rattle.ocm_path.specs.Paths.{path_of};
ghost use Rattle.ocm_types.specs.Addresses.{address_text};
ghost use Rattle.ocm_drill.specs.Federation as federation;
ghost use Rattle.ocm_drill.specs.Federation.{four};
ghost use Rattle.ocm_drill.specs.Script as script;

use ocm_base::{List, NoMemory};
use ocm_path::Path;
use ocm_types::{Address, Fresh, Host, Perms, Rights, Secret};
use std::alloc::Global;

/// The text of the address of a server's user.
fn user_text(i: u32) -> &'static str
    requires { i < 4 }
    ensures { result.now ≡ address_text (federation.address i) }
{
    match i {
        0 => "u0@n0.example",
        1 => "u1@n1.example",
        2 => "u2@n2.example",
        _ => "u3@n3.example",
    }
}

/// The user of a server.
#[tactic(auto, using(crate::proofs::Known::user_reads))]
fn user(alloc: Global, i: u32) -> Result<Address, NoMemory>
    requires { i < 4 }
    ensures { IfOk result (λ user. user ≡ federation.address i) }
{
    match Address::read(alloc, user_text(i)) {
        Ok(user) => Ok(user),
        Err(_) => Err(NoMemory),
    }
}

/// The user of each server.
pub fn users(alloc: Global) -> Result<List<Address>, NoMemory>
    ensures { IfOk result (λ users. users ≡ map federation.address four) }
{
    let mut users = List::new(alloc);
    for i in 0..4 {
        users.push(user(alloc, i)?)?;
    }
    Ok(users)
}

/// The host of each server.
pub fn drill_hosts(alloc: Global) -> Result<List<Host>, NoMemory>
    ensures { IfOk result (λ hosts. hosts ≡ script.drill_hosts) }
{
    let mut hosts = List::new(alloc);
    for i in 0..4 {
        let user = user(alloc, i)?;
        hosts.push(user.into_host())?;
    }
    Ok(hosts)
}

/// The 16 bytes of a number, the first of the greatest weight.
#[tactic(auto, unfolding(crate::specs::Federation::bytes_of))]
fn bytes_of(number: u64) -> Fresh
    ensures { result ≡ federation.bytes_of number }
{
    Fresh::new((number as u128).to_be_bytes())
}

/// What the key of a server's user is drawn from.
pub fn key_bytes(i: u32) -> Fresh
    ensures { result ≡ federation.key_bytes i }
{
    bytes_of(i as u64 + 1)
}

/// The key of each user.
pub fn keys(alloc: Global) -> Result<List<Secret>, NoMemory>
    ensures { IfOk result (λ keys. keys ≡ map federation.key four) }
{
    let mut keys = List::new(alloc);
    for i in 0..4 {
        keys.push(key_bytes(i).secret(alloc)?)?;
    }
    Ok(keys)
}

/// What the secrets are drawn from that event j makes.
pub fn drawn_bytes(j: u32) -> Fresh
    ensures { result ≡ federation.drawn_bytes j }
{
    bytes_of((1 << 32) + 65_536 * j as u64)
}

/// The first secret that event j makes, if it makes one.
pub fn secret(alloc: Global, j: u32) -> Result<Secret, NoMemory>
    ensures { IfOk result (λ secret. secret ≡ federation.secret j) }
{
    drawn_bytes(j).secret(alloc)
}

/// The path that a text spells.
fn path(alloc: Global, text: &str) -> Result<Path, NoMemory>
    ensures { IfOk result (λ path. path_of text.now ≡ Ok path) }
{
    match Path::read(alloc, text) {
        Ok(path) => Ok(path),
        Err(_) => Err(NoMemory),
    }
}

/// Where each user has a collection, which it shares.
#[tactic(auto, using(crate::proofs::Known::collection_reads))]
pub fn collection(alloc: Global) -> Result<Path, NoMemory>
    ensures { IfOk result (λ path. path ≡ federation.collection) }
{
    let path = path(alloc, "/d")?;
    Ok(path)
}

/// Where each user has a file in that collection.
#[tactic(auto, using(crate::proofs::Known::file_reads))]
pub fn file(alloc: Global) -> Result<Path, NoMemory>
    ensures { IfOk result (λ path. path ≡ federation.file) }
{
    let path = path(alloc, "/d/f")?;
    Ok(path)
}

/// Where the guest of that collection finds the file.
#[tactic(auto, using(crate::proofs::Known::shared_file_reads))]
pub fn shared_file(alloc: Global) -> Result<Path, NoMemory>
    ensures { IfOk result (λ path. path ≡ federation.shared_file) }
{
    let path = path(alloc, "/f")?;
    Ok(path)
}

/// The permissions of three bits, of which one is 1 at least: 1 to read, 2 to write, 4 to share.
#[tactic(auto, using(crate::proofs::Known::some_right))]
pub fn perms(bits: u32) -> Perms
    requires some { 0 < bits }
    requires three { bits < 8 }
    ensures { result ≡ federation.perms bits }
{
    let rights = Rights {
        read: bits % 2 == 1,
        write: bits / 2 % 2 == 1,
        share: bits / 4 % 2 == 1,
    };
    match Perms::of(rights) {
        Some(perms) => perms,
        None => unreachable!(),
    }
}
