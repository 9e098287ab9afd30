//! The command as the crate `clap` has it.

ghost use Rattle.std.specs.Prelude.{◌≡◌, false, IfOk, codes};
ghost use Rattle.clap.specs.Words.{app_of, rule_of};
ghost use Rattle.ocm_serve_options.specs.Plans.{serve, first_six, needed, option, optional, flag};

use clap::{Arg, ArgAction, Command};
use std::alloc::{AllocError, Global};

/// An option of one value that has to be there.
fn needed_option<'a>(alloc: Global, name: &'a str) -> Arg<'a>
    ensures rule { rule_of result ≡ needed name.entry.now }
    ensures local { result.global ≡ false }
{
    Arg::new(alloc, name)
        .long(name)
        .required(true)
        .action(ArgAction::Set)
}

/// An option of one value that may be missing.
fn free_option<'a>(alloc: Global, name: &'a str) -> Arg<'a>
    ensures rule { rule_of result ≡ option name.entry.now }
    ensures local { result.global ≡ false }
{
    Arg::new(alloc, name).long(name).action(ArgAction::Set)
}

/// An option of one value that has another where it is not there.
fn option_with<'a>(alloc: Global, name: &'a str, value: &'a str) -> Arg<'a>
    ensures rule { rule_of result ≡ optional name.entry.now value.entry.now }
    ensures local { result.global ≡ false }
{
    Arg::new(alloc, name)
        .long(name)
        .action(ArgAction::Set)
        .default_value(value)
}

/// An option without a value.
fn flag_named<'a>(alloc: Global, name: &'a str) -> Arg<'a>
    ensures rule { rule_of result ≡ flag name.entry.now }
    ensures local { result.global ≡ false }
{
    Arg::new(alloc, name).long(name).action(ArgAction::SetTrue)
}

/// The command `serve` with the first six of its options.
fn first_options<'a>(alloc: Global) -> Result<Command<'a>, AllocError>
    ensures { IfOk result (λ c. app_of c ≡ first_six) }
{
    let bare = Command::new(alloc, "serve").disable_help_flag(true);
    let host = needed_option(alloc, "host");
    let disk = needed_option(alloc, "disk");
    let admin = free_option(alloc, "admin");
    let admin_file = free_option(alloc, "admin-file");
    let listen = option_with(alloc, "listen", "127.0.0.1:8080");
    let workers = option_with(alloc, "workers", "4");
    let c1 = bare.arg(host)?;
    let c2 = c1.arg(disk)?;
    let c3 = c2.arg(admin)?;
    let c4 = c3.arg(admin_file)?;
    let c5 = c4.arg(listen)?;
    c5.arg(workers)
}

/// The command `serve` with its eleven options, and nothing else.
pub(crate) fn serve_command<'a>(alloc: Global) -> Result<Command<'a>, AllocError>
    ensures { IfOk result (λ c. app_of c ≡ serve) }
{
    let c6 = first_options(alloc)?;
    let key_file = option_with(alloc, "key-file", "/dev/urandom");
    let connections = option_with(alloc, "connections", "0");
    let log = free_option(alloc, "log");
    let existing = flag_named(alloc, "existing");
    let peers = option_with(alloc, "peers", "public");
    let c7 = c6.arg(key_file)?;
    let c8 = c7.arg(connections)?;
    let c9 = c8.arg(log)?;
    let c10 = c9.arg(existing)?;
    c10.arg(peers)
}
