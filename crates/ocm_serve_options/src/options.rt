//! The values of the options.

ghost use Rattle.std.specs.Prelude.{◌≡◌, Some, IfOk, codes, option_copied, option_map};
ghost use Rattle.clap.specs.Words.{found_of, rows_of, first_of};
ghost use Rattle.ocm_serve_options.specs.Plans as plans;
ghost use Rattle.ocm_serve_options.specs.Plans.{Reads};

use crate::plans::{AdminKey, Peers, PlanFault};
use clap::ArgMatches;
use ocm_base::{NoMemory, Text, decimal_read};
use ocm_limits::MOST_WORKERS;
use ocm_types::{AddressFault, Host, Secret, TextFault};
use std::alloc::Global;

/// How many workers there are, and how many connections each serves.
#[derive(Clone, Copy)]
pub(crate) struct Numbers {
    pub workers: u32,
    pub connections: u64,
}

/// Who the server is.
#[derive(Drop)]
pub(crate) struct Names {
    pub host: Host,
    pub admin: AdminKey,
}

/// What is taken as it is.
#[derive(Drop)]
pub(crate) struct Places {
    pub disk: Text,
    pub listen: Text,
    pub key_file: Text,
    pub log: Option<Text>,
}

/// What is one of two.
#[derive(Clone, Copy)]
pub(crate) struct Choices {
    pub existing: bool,
    pub peers: Peers,
}

/// The text that an option is.
fn value_at<'a>(matches: &ArgMatches<'a>, name: &str) -> Option<&'a str>
    ensures { option_map (λ s. s.now) result ≡ first_of name.now (rows_of (found_of matches.now)) }
{
    matches.get_str(name)
}

/// The number that an option is.
fn number_at(matches: &ArgMatches<'_>, name: &str) -> Option<u64>
    ensures { result ≡ plans.number_at name.now (rows_of (found_of matches.now)) }
{
    match value_at(matches, name) {
        Some(text) => decimal_read(text),
        None => None,
    }
}

/// Whether a flag is there.
fn flag_at(matches: &ArgMatches<'_>, name: &str) -> bool
    ensures { result ≡ plans.flag_at name.now (rows_of (found_of matches.now)) }
{
    match value_at(matches, name) {
        Some(text) => text == "true",
        None => false,
    }
}

/// A number of workers: 1 to 64.
pub(crate) fn workers_of(number: u64) -> Option<u32>
    ensures { result ≡ plans.workers_of number }
{
    if 1 <= number && number <= MOST_WORKERS {
        Some(number as u32)
    } else {
        None
    }
}

/// How many workers there are, and how many connections each serves.
#[tactic(auto, unfolding(crate::specs::Plans::numbers_at))]
pub(crate) fn numbers_at(matches: &ArgMatches<'_>) -> Option<Numbers>
    ensures { result ≡ plans.numbers_at (rows_of (found_of matches.now)) }
{
    let number = number_at(matches, "workers")?;
    let workers = workers_of(number)?;
    let connections = number_at(matches, "connections")?;
    Some(Numbers {
        workers,
        connections,
    })
}

fn read_host(alloc: Global, text: &str) -> Result<Host, PlanFault>
    ensures { Reads result (plans.read_host text.now) }
{
    match Host::read(alloc, text) {
        Ok(host) => Ok(host),
        Err(AddressFault::NoMemory) => Err(PlanFault::NoMemory),
        Err(_) => Err(PlanFault::Usage),
    }
}

fn read_admin(alloc: Global, text: &str) -> Result<AdminKey, PlanFault>
    ensures { Reads result (plans.read_admin text.now) }
{
    match Secret::read(alloc, text) {
        Ok(secret) => Ok(AdminKey::Key(secret)),
        Err(TextFault::NoMemory) => Err(PlanFault::NoMemory),
        Err(_) => Err(PlanFault::Usage),
    }
}

fn admin_file(alloc: Global, path: &str) -> Result<AdminKey, PlanFault>
    ensures { Reads result (Some (AdminKey.File path.now)) }
{
    match Text::of(alloc, path) {
        Ok(path) => Ok(AdminKey::File(path)),
        Err(NoMemory) => Err(PlanFault::NoMemory),
    }
}

fn host_at(alloc: Global, matches: &ArgMatches<'_>) -> Result<Host, PlanFault>
    ensures { Reads result (plans.host_at (rows_of (found_of matches.now))) }
{
    match value_at(matches, "host") {
        Some(text) => read_host(alloc, text),
        None => Err(PlanFault::Usage),
    }
}

/// The administrator's key, or the file that holds it.
fn admin_at(alloc: Global, matches: &ArgMatches<'_>) -> Result<AdminKey, PlanFault>
    ensures { Reads result (plans.admin_at (rows_of (found_of matches.now))) }
{
    match (value_at(matches, "admin"), value_at(matches, "admin-file")) {
        (Some(text), None) => read_admin(alloc, text),
        (None, Some(path)) => admin_file(alloc, path),
        _ => Err(PlanFault::Usage),
    }
}

/// Who the server is.
#[tactic(auto, unfolding(crate::specs::Plans::names_at))]
pub(crate) fn names_at(alloc: Global, matches: &ArgMatches<'_>) -> Result<Names, PlanFault>
    ensures { Reads result (plans.names_at (rows_of (found_of matches.now))) }
{
    let host = host_at(alloc, matches)?;
    match admin_at(alloc, matches) {
        Ok(admin) => Ok(Names { host, admin }),
        Err(fault) => {
            drop(host);
            Err(fault)
        }
    }
}

/// The text that an option is, in memory of its own.
fn text_at(alloc: Global, matches: &ArgMatches<'_>, name: &str) -> Result<Text, PlanFault>
    ensures { Reads result (first_of name.now (rows_of (found_of matches.now))) }
{
    match value_at(matches, name) {
        Some(text) => match Text::of(alloc, text) {
            Ok(text) => Ok(text),
            Err(NoMemory) => Err(PlanFault::NoMemory),
        },
        None => Err(PlanFault::Usage),
    }
}

/// The text that an option is, in memory of its own, where it is there.
fn text_if(alloc: Global, matches: &ArgMatches<'_>, name: &str) -> Result<Option<Text>, PlanFault>
    ensures { Reads result (Some (first_of name.now (rows_of (found_of matches.now)))) }
{
    match value_at(matches, name) {
        Some(text) => match Text::of(alloc, text) {
            Ok(text) => Ok(Some(text)),
            Err(NoMemory) => Err(PlanFault::NoMemory),
        },
        None => Ok(None),
    }
}

/// What is taken as it is.
#[tactic(auto, unfolding(crate::specs::Plans::places_at))]
pub(crate) fn places_at(alloc: Global, matches: &ArgMatches<'_>) -> Result<Places, PlanFault>
    ensures { Reads result (plans.places_at (rows_of (found_of matches.now))) }
{
    let disk = text_at(alloc, matches, "disk")?;
    let listen = text_at(alloc, matches, "listen")?;
    let key_file = text_at(alloc, matches, "key-file")?;
    let log = text_if(alloc, matches, "log")?;
    Ok(Places {
        disk,
        listen,
        key_file,
        log,
    })
}

/// Which servers messages are delivered to, by the word for them.
pub(crate) fn peers_of(word: &str) -> Option<Peers>
    ensures { result ≡ plans.peers_of word.now }
{
    if word == "public" {
        Some(Peers::Public)
    } else if word == "private" {
        Some(Peers::Private)
    } else {
        None
    }
}

fn peers_at(matches: &ArgMatches<'_>) -> Option<Peers>
    ensures { result ≡ plans.peers_at (rows_of (found_of matches.now)) }
{
    match value_at(matches, "peers") {
        Some(word) => peers_of(word),
        None => None,
    }
}

/// What is one of two.
#[tactic(auto, unfolding(crate::specs::Plans::choices_at))]
pub(crate) fn choices_at(matches: &ArgMatches<'_>) -> Option<Choices>
    ensures { result ≡ plans.choices_at (rows_of (found_of matches.now)) }
{
    let peers = peers_at(matches)?;
    Some(Choices {
        existing: flag_at(matches, "existing"),
        peers,
    })
}
