//! A server's host, and how its text is read.

ghost use Rattle.std.specs.Prelude.{◌≡◌, List, ℕ, IfOk, IsTrue, option_copied, string_bytes, nat_lt};
ghost use Rattle.std.specs.List.{list_all};
ghost use Rattle.std.specs.Char.{is_ascii_digit};
ghost use Rattle.std.specs.Str.Parse.{digits_value};
ghost use Rattle.ocm_types.specs.Texts.{has_length};
ghost use Rattle.ocm_types.specs.Hosts as hosts;
ghost use Rattle.ocm_types.specs.Hosts.{Gives};

use crate::address_faults::AddressFault;
use ocm_texts::{Copied, NoMemory, Text, and};
use std::alloc::Global;
use std::marker::Model;

/// A server's host: a name of 1 to 240 lower-case ASCII letters, digits, `-` and `.`, and behind a
/// `:` its port, unless that is 80. Contracts see the bytes of that text.
#[derive(Debug, PartialEq, Eq, Hash)]
pub struct Host {
    text: Text,
}

impl Drop for Host {
    fn drop(self) {
        let Host { text: _ } = self;
    }
}

impl Model for Host {
    ghost use Rattle.std.specs.Prelude.{List, ℕ, IsTrue};
    ghost use Rattle.ocm_types.specs.Hosts.{is_host};

    ghost Value = { List ℕ };

    ghost view = { λ h. h.text };

    ghost invariant = { λ h. IsTrue (is_host h.text) };

    ghost inverse = { λ bytes. record { text = bytes } };
}

impl Host {
    /// Reads a host. One `http://` or `https://` at the beginning and then one `/` at the end are
    /// dropped, the name is made lower-case, and the port 80 is dropped with its `:`.
    pub fn read(alloc: Global, s: &str) -> Result<Host, AddressFault>
        ensures { Gives (λ h. h) result (hosts.host_of s.now) }
    {
        let text = canonical_text(alloc, s)?;
        Ok(Host { text })
    }

    /// The host of a canonical text, and `None` for every other text.
    pub fn read_canonical(alloc: Global, s: &str) -> Result<Option<Host>, NoMemory>
        ensures { IfOk result (λ h. h ≡ hosts.canonical_host_of s.now) }
    {
        match Host::read(alloc, s) {
            Ok(host) => {
                let same = host.as_str() == s;
                Ok(same.then_some(host))
            }
            Err(AddressFault::NoMemory) => Err(NoMemory),
            Err(_) => Ok(None),
        }
    }

    /// The canonical text.
    pub fn text(&self) -> &Text
        ensures text { result.now ≡ self.now }
        ensures canonical { IsTrue (hosts.is_host self.now) }
    {
        &self.text
    }

    /// The canonical text.
    pub fn as_str(&self) -> &str
        ensures { result.now ≡ self.now }
    {
        self.text.as_str()
    }

    /// The same host once more.
    pub fn copy(&self) -> Result<Host, NoMemory>
        ensures { IfOk result (λ h. h ≡ self.now) }
    {
        let text = self.text.copy()?;
        Ok(Host { text })
    }
}

impl Copied for Host {
    fn copied(&self) -> Result<Host, NoMemory> {
        self.copy()
    }
}

/// The canonical text of the host that a text names.
fn canonical_text(alloc: Global, s: &str) -> Result<Text, AddressFault>
    ensures { Gives (λ t. t) result (hosts.host_of s.now) }
{
    let (name, port) = name_and_port(bare(s));
    let (name, port) = and(lower_name(alloc, name)?, kept_port(port))?;
    match with_port(name, port) {
        Ok(text) => Ok(text),
        Err(NoMemory) => Err(AddressFault::NoMemory),
    }
}

/// What follows the front, where the text begins so.
fn after_front<'a>(s: &'a str, front: &str) -> Option<&'a str>
    ensures { option_copied result ≡ hosts.after_front front.now s.now }
{
    s.strip_prefix(front)
}

/// The text without a scheme at its beginning.
fn without_scheme(s: &str) -> &str
    ensures { result.now ≡ hosts.without_scheme s.now }
{
    match after_front(s, "http://") {
        Some(rest) => rest,
        None => after_front(s, "https://").unwrap_or(s),
    }
}

/// The text without the end, where it ends so.
fn without_end<'a>(s: &'a str, end: &str) -> &'a str
    ensures { result.now ≡ hosts.without_end end.now s.now }
{
    s.strip_suffix(end).unwrap_or(s)
}

/// The text without a scheme, and then without a `/` at its end.
fn bare(s: &str) -> &str
    ensures { result.now ≡ hosts.bare s.now }
{
    without_end(without_scheme(s), "/")
}

/// The text before the first `:`, and the one behind it.
fn name_and_port(s: &str) -> (&str, Option<&str>)
    ensures name { result.0.now ≡ (hosts.cut_at_first hosts.colon s.now).0 }
    ensures port { option_copied result.1 ≡ (hosts.cut_at_first hosts.colon s.now).1 }
{
    match s.split_once(':') {
        Some((name, port)) => (name, Some(port)),
        None => (s, None),
    }
}

fn has_name_length(s: &str) -> bool
    ensures { result ≡ has_length 1 240 s.now }
{
    1 <= s.len() && s.len() <= 240
}

fn is_written_byte(b: u8) -> bool
    ensures { result ≡ hosts.is_written_byte b }
{
    matches!(b, b'a'..=b'z' | b'A'..=b'Z' | b'0'..=b'9' | b'-' | b'.')
}

fn are_written_bytes(s: &str) -> bool
    ensures { result ≡ list_all hosts.is_written_byte s.now }
{
    s.as_bytes().iter().all(|b| is_written_byte(*b))
}

/// The host's name in lower case.
fn lower_name(alloc: Global, name: &str) -> Result<String, AddressFault>
    ensures { Gives string_bytes result (hosts.host_name_of name.now) }
{
    if !has_name_length(name) {
        return Err(AddressFault::HostLength);
    }
    if !are_written_bytes(name) {
        return Err(AddressFault::HostChar);
    }
    match name.to_ascii_lowercase(alloc) {
        Ok(lower) => Ok(lower),
        Err(_) => Err(AddressFault::NoMemory),
    }
}

fn begins_above_zero(digits: &str) -> bool
    ensures { result ≡ hosts.begins_above_zero digits.now }
{
    match digits.as_bytes() {
        [] => false,
        [first, ..] => *first != b'0',
    }
}

fn are_digits(digits: &str) -> bool
    ensures { result ≡ list_all is_ascii_digit digits.now }
{
    digits.as_bytes().iter().all(|b| b.is_ascii_digit())
}

/// Whether digits write a number below 65,536.
fn fits_port(digits: &str) -> bool
    requires digits { IsTrue (list_all is_ascii_digit digits.now) }
    requires some { IsTrue (hosts.begins_above_zero digits.now) }
    ensures { result ≡ nat_lt (digits_value 10 digits.now) 65536 }
{
    digits.parse::<u16>().is_ok()
}

/// Whether the text is a decimal from 1 to 65,535 without a leading zero.
fn is_port(digits: &str) -> bool
    ensures { result ≡ hosts.is_port digits.now }
{
    are_digits(digits) && begins_above_zero(digits) && fits_port(digits)
}

/// The port that is written: none where it is 80.
fn kept_port(port: Option<&str>) -> Result<Option<&str>, AddressFault>
    ensures { Gives option_copied result (hosts.port_of (option_copied port.entry)) }
{
    match port {
        None => Ok(None),
        Some(digits) => {
            if !is_port(digits) {
                Err(AddressFault::Port)
            } else if digits == "80" {
                Ok(None)
            } else {
                Ok(Some(digits))
            }
        }
    }
}

/// The name, and the port behind a `:`.
fn with_port(name: String, port: Option<&str>) -> Result<Text, NoMemory>
    ensures { IfOk result (λ t. t ≡ hosts.host_text (string_bytes name) (option_copied port.entry)) }
{
    let mut text = name;
    if let Some(digits) = port {
        text.push(':')?;
        text.push_str(digits)?;
    }
    Ok(Text::from_string(text))
}
