//! The words of a command line, read as orders.

ghost use Rattle.std.specs.Prelude.{◌≡◌, IfOk};
ghost use Rattle.clap.specs.Words.{found_of, rows_of, matches_of, fault_of, FailsBy, kind_of};
ghost use Rattle.clap.specs.declared.error.kind.ErrorKind.TheVariants.{OutOfMemory};
ghost use Rattle.ocm_serve_options.specs.Plans as plans;
ghost use Rattle.ocm_serve_options.specs.Plans.{Reads, orders_by, orders_of, serve, texts};

use crate::commands::serve_command;
use crate::options::{choices_at, names_at, numbers_at, places_at};
use crate::plans::{Orders, PlanFault};
use clap::error::ErrorKind;
use clap::{ArgMatches, Error};
use std::alloc::Global;

/// Whether the words behind the program's name ask for a running server, and not for the options of one.
pub fn asks_serve(words: &[String]) -> bool
    ensures { result ≡ plans.asks_serve (texts words.now) }
{
    match words {
        [first, rest @ ..] => first.as_str() == "serve" && !asks_help(rest),
        [] => false,
    }
}

/// Whether the words behind a command ask for its options: `--help`, alone.
pub fn asks_help(words: &[String]) -> bool
    ensures { result ≡ plans.asks_help (texts words.now) }
{
    match words {
        [word] => word.as_str() == "--help",
        _ => false,
    }
}

/// The words as the command has them.
fn read_matches<'a>(alloc: Global, words: &'a [String]) -> Result<ArgMatches<'a>, Error>
    ensures ok { IfOk result (λ m. rows_of (found_of m) ≡ matches_of serve (texts words.entry.now)) }
    ensures kinds { FailsBy (fault_of serve (texts words.entry.now)) result }
{
    let command = serve_command(alloc)?;
    command.try_get_matches_from(words)
}

/// Why there are no orders, where the command refuses.
fn fault_by(error: &Error) -> PlanFault
    ensures memory { result ≡ PlanFault.NoMemory → kind_of error.now ≡ OutOfMemory }
    ensures usage { result ≡ PlanFault.Usage → kind_of error.now ≡ OutOfMemory → ⊥ }
{
    match error.kind() {
        ErrorKind::OutOfMemory => PlanFault::NoMemory,
        _ => PlanFault::Usage,
    }
}

/// The orders by the values of the options.
#[tactic(auto, unfolding(crate::specs::Plans::orders_by))]
fn orders_by_options(alloc: Global, matches: &ArgMatches<'_>) -> Result<Orders, PlanFault>
    ensures { Reads result (orders_by (rows_of (found_of matches.now))) }
{
    let Some(numbers) = numbers_at(matches) else {
        return Err(PlanFault::Usage);
    };
    let Some(choices) = choices_at(matches) else {
        return Err(PlanFault::Usage);
    };
    let names = names_at(alloc, matches)?;
    let places = places_at(alloc, matches)?;
    Ok(Orders {
        host: names.host,
        disk: places.disk,
        admin: names.admin,
        listen: places.listen,
        workers: numbers.workers,
        key_file: places.key_file,
        connections: numbers.connections,
        log: places.log,
        existing: choices.existing,
        peers: choices.peers,
    })
}

/// Reads the words behind a program's name: `serve` and its options `--host`, `--disk`, `--admin`,
/// `--admin-file`, `--listen`, `--workers`, `--key-file`, `--connections`, `--log` and `--peers`, each of one value, and the
/// flag `--existing`. The first two are required, and of the next two exactly one.
pub fn read_plan(alloc: Global, words: &[String]) -> Result<Orders, PlanFault>
    ensures { Reads result (orders_of (texts words.now)) }
{
    if !asks_serve(words) {
        return Err(PlanFault::Usage);
    }
    match read_matches(alloc, words) {
        Ok(matches) => orders_by_options(alloc, &matches),
        Err(error) => Err(fault_by(&error)),
    }
}
