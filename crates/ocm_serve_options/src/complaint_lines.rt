//! The line that tells what is wrong with the words of `serve`.

use crate::complaints::Complaint;
use crate::option_names::OptionName;
use std::fmt;

/// The most characters of a word that a line has.
const MOST_SHOWN: usize = 200;

/// A word as a line has it: its first 200 characters, with `?` in place of each control character.
#[derive(Clone, Copy)]
pub struct Shown<'a>(pub &'a str);

impl fmt::Display for Shown<'_> {
    fn fmt<W: fmt::Write>(&self, f: &mut fmt::Formatter<W>) -> fmt::Result {
        for c in self.0.chars().take(MOST_SHOWN) {
            f.write_char(if c.is_control() { '?' } else { c })?;
        }
        Ok(())
    }
}

impl fmt::Display for Complaint<'_> {
    /// What is wrong, with the option, its value and an example. No key is told.
    fn fmt<W: fmt::Write>(&self, f: &mut fmt::Formatter<W>) -> fmt::Result {
        match *self {
            Complaint::Unknown(name) => write!(
                f,
                "serve --{}: there is no such option. 'ocmd serve --help' lists them",
                Shown(name)
            ),
            Complaint::Stray(place) => write!(
                f,
                "serve: word {place} belongs to no option. 'ocmd serve --help' lists them"
            ),
            Complaint::NoValue(option) => told(f, option, "its value is missing"),
            Complaint::FlagValue(option) => told(f, option, "it takes no value"),
            Complaint::Twice(option) => told(f, option, "it is there more than once"),
            Complaint::Missing(option) => told(f, option, missing(option)),
            Complaint::TwoKeys => told(
                f,
                OptionName::AdminFile,
                "--admin is there as well, and only one of the two may be",
            ),
            Complaint::Value(option, value) => told_value(f, option, value),
        }
    }
}

/// Tells what is wrong with an option, without its value.
fn told<W: fmt::Write>(f: &mut fmt::Formatter<W>, option: OptionName, what: &str) -> fmt::Result {
    write!(
        f,
        "serve --{}: {what}. Example: {}",
        option.word(),
        option.example()
    )
}

/// What is told of an option that is missing.
fn missing(option: OptionName) -> &'static str {
    match option {
        OptionName::AdminFile => "it is missing, and so is --admin",
        _ => "it is missing",
    }
}

/// What is told of a value that an option does not take.
fn refusal(option: OptionName) -> &'static str {
    match option {
        OptionName::Host => "a host is a name or an IPv4 address, and :PORT unless that is 80",
        OptionName::Admin => "a key has 1 to 255 bytes, and neither a control character nor ':'",
        OptionName::Workers => "it is not a number from 1 to 64",
        OptionName::Connections => "it is not a number from 0 to 18446744073709551615",
        OptionName::Peers => "it is neither public nor private",
        _ => "it is not taken",
    }
}

/// Tells what is wrong with the value of an option, and the value unless it is a key.
fn told_value<W: fmt::Write>(
    f: &mut fmt::Formatter<W>,
    option: OptionName,
    value: &str,
) -> fmt::Result {
    match option {
        OptionName::Admin => told(f, option, refusal(option)),
        OptionName::Host => told_host(f, value),
        _ => write!(
            f,
            "serve --{} {}: {}. Example: {}",
            option.word(),
            Shown(value),
            refusal(option),
            option.example()
        ),
    }
}

/// Tells what is wrong with a host: one with a path is told with what to write.
fn told_host<W: fmt::Write>(f: &mut fmt::Formatter<W>, value: &str) -> fmt::Result {
    match without_path(value) {
        Some(host) => write!(
            f,
            "serve --host {}: a host has no path. Example: --host {}",
            Shown(value),
            Shown(host)
        ),
        None => write!(
            f,
            "serve --host {}: {}. Example: {}",
            Shown(value),
            refusal(OptionName::Host),
            OptionName::Host.example()
        ),
    }
}

/// What stands before the path of a text, where it has a path and that is spelled as a host.
fn without_path(value: &str) -> Option<&str> {
    let bare = value
        .strip_prefix("https://")
        .or(value.strip_prefix("http://"))
        .unwrap_or(value);
    match bare.split_once('/') {
        Some((host, _)) if !host.is_empty() && host.bytes().all(|b| is_host_byte(b)) => Some(host),
        _ => None,
    }
}

/// A byte of a host and its port.
fn is_host_byte(b: u8) -> bool {
    b.is_ascii_alphanumeric() || b == b'-' || b == b'.' || b == b':'
}
