ghost use Rattle.std.specs.Prelude.{◌≡◌, Some, IfOk, IsTrue, not, is_none, position, bytes_eq, option_copied};
ghost use Rattle.ocm_texts.specs.Hex.{hex_text_of};
ghost use Rattle.ocm_entry.specs.Proper.{is_short};
ghost use Rattle.ocm_script.specs.Words as words;
ghost use Rattle.ocm_script.specs.Gives.{Gives};

use crate::faults::LineFault;
use ocm_base::{Bytes, HexFault, NoMemory, decimal_read, hex_read};
use ocm_disk::Crash;
use ocm_limits::MOST_SERVERS;
use ocm_path::{Path, PathFault};
use ocm_types::{Address, Fresh, Host, Name, Perms, Secret, TextFault};
use std::alloc::Global;

fn space_in(line: &[u8]) -> Option<usize>
    ensures { result ≡ position words.is_space line.now }
{
    line.iter().position(|b| *b == b' ')
}

/// The word before the first space, and what follows that space, where there is one.
pub fn cut(line: &[u8]) -> (&[u8], Option<&[u8]>)
    ensures word { result.0.now ≡ (words.cut line.now).0 }
    ensures rest { option_copied result.1 ≡ (words.cut line.now).1 }
{
    match space_in(line) {
        Some(place) => (&line[..place], Some(&line[place + 1..])),
        None => (line, None),
    }
}

/// The next word of what follows a space, and what follows the word's own.
pub fn word(rest: Option<&[u8]>) -> Result<(&[u8], Option<&[u8]>), LineFault>
    ensures { Gives (λ x. (x.0.now, option_copied x.1)) result (words.word (option_copied rest.entry)) }
{
    match rest {
        Some(line) => Ok(cut(line)),
        None => Err(LineFault::Bad),
    }
}

/// That the line is at its end.
pub fn ended(rest: Option<&[u8]>) -> Result<(), LineFault>
    ensures { Gives (λ x. x) result (words.ended (option_copied rest.entry)) }
{
    match rest {
        None => Ok(()),
        Some(_) => Err(LineFault::Bad),
    }
}

/// What remains of the line behind a space, which may be any bytes.
pub fn remaining(rest: Option<&[u8]>) -> Result<&[u8], LineFault>
    ensures { Gives (λ x. x.now) result (option_copied rest.entry) }
{
    match rest {
        Some(bytes) => Ok(bytes),
        None => Err(LineFault::Bad),
    }
}

/// Whether the word is this one.
pub fn is_word(word: &[u8], keyword: &[u8]) -> bool
    ensures { result ≡ bytes_eq word.now keyword.now }
{
    word == keyword
}

/// What follows the front, where the bytes begin so.
#[tactic(auto, unfolding(crate::specs::Words::after))]
pub fn after<'a>(bytes: &'a [u8], front: &[u8]) -> Option<&'a [u8]>
    ensures { option_copied result ≡ words.after front.now bytes.now }
{
    match bytes.strip_prefix(front) {
        Some(rest) => Some(rest),
        None => None,
    }
}

/// The word, where it is UTF-8.
pub fn text_of(word: &[u8]) -> Result<&str, LineFault>
    ensures { Gives (λ text. text.now) result (words.text_of word.now) }
{
    match str::from_utf8(word) {
        Ok(text) => Ok(text),
        Err(_) => Err(LineFault::Bad),
    }
}

/// A user's name.
#[tactic(auto, unfolding(crate::specs::Words::name_word))]
pub fn name_word(alloc: Global, word: &[u8]) -> Result<Name, LineFault>
    ensures { Gives (λ name. name) result (words.name_word word.now) }
{
    let text = text_of(word)?;
    match Name::read(alloc, text) {
        Ok(name) => Ok(name),
        Err(TextFault::Length | TextFault::Char) => Err(LineFault::Bad),
        Err(TextFault::NoMemory) => Err(LineFault::NoMemory),
    }
}

/// A secret.
#[tactic(auto, unfolding(crate::specs::Words::secret_word))]
pub fn secret_word(alloc: Global, word: &[u8]) -> Result<Secret, LineFault>
    ensures { Gives (λ secret. secret) result (words.secret_word word.now) }
{
    let text = text_of(word)?;
    match Secret::read(alloc, text) {
        Ok(secret) => Ok(secret),
        Err(TextFault::Length | TextFault::Char) => Err(LineFault::Bad),
        Err(TextFault::NoMemory) => Err(LineFault::NoMemory),
    }
}

/// 32 lower-case hexadecimal digits.
#[tactic(auto, unfolding(crate::specs::Words::fresh_word))]
pub fn fresh_word(word: &[u8]) -> Result<Fresh, LineFault>
    ensures { Gives (λ fresh. fresh) result (words.fresh_word word.now) }
{
    let text = text_of(word)?;
    match Fresh::read(text) {
        Some(fresh) => Ok(fresh),
        None => Err(LineFault::Bad),
    }
}

/// A host in its canonical text.
#[tactic(auto, unfolding(crate::specs::Words::host_word))]
fn host_word(alloc: Global, word: &[u8]) -> Result<Host, LineFault>
    ensures { Gives (λ host. host) result (words.host_word word.now) }
{
    let text = text_of(word)?;
    match Host::read_canonical(alloc, text)? {
        Some(host) => Ok(host),
        None => Err(LineFault::Bad),
    }
}

/// The address whose canonical text this is.
fn address_in(alloc: Global, text: &str) -> Result<Option<Address>, NoMemory>
    ensures { IfOk result (λ address. address ≡ words.address_in text.now) }
{
    Address::read_canonical(alloc, text)
}

/// An address in its canonical text.
#[tactic(auto, unfolding(crate::specs::Words::address_word))]
pub fn address_word(alloc: Global, word: &[u8]) -> Result<Address, LineFault>
    ensures { Gives (λ address. address) result (words.address_word word.now) }
{
    let text = text_of(word)?;
    match address_in(alloc, text)? {
        Some(address) => Ok(address),
        None => Err(LineFault::Bad),
    }
}

/// One to three permissions.
#[tactic(auto, unfolding(crate::specs::Words::perms_word))]
pub fn perms_word(word: &[u8]) -> Result<Perms, LineFault>
    ensures { Gives (λ perms. perms) result (words.perms_word word.now) }
{
    let text = text_of(word)?;
    match Perms::read_list(text) {
        Some(perms) => Ok(perms),
        None => Err(LineFault::Bad),
    }
}

/// Permissions, or `-` for none.
#[tactic(auto, unfolding(crate::specs::Words::perms_if_word))]
pub fn perms_if_word(word: &[u8]) -> Result<Option<Perms>, LineFault>
    ensures { Gives (λ perms. perms) result (words.perms_if_word word.now) }
{
    if is_word(word, b"-") {
        return Ok(None);
    }
    let perms = perms_word(word)?;
    Ok(Some(perms))
}

/// A decimal of at most that number.
#[tactic(auto, unfolding(crate::specs::Words::number_word))]
pub fn number_word(most: u32, word: &[u8]) -> Result<u32, LineFault>
    ensures { Gives (λ number. number) result (words.number_word most word.now) }
{
    let text = text_of(word)?;
    match decimal_read(text) {
        Some(number) if number <= most as u64 => Ok(number as u32),
        _ => Err(LineFault::Bad),
    }
}

/// The bytes that lower-case hexadecimal digits spell.
fn spelled(alloc: Global, digits: &str) -> Result<Bytes, LineFault>
    ensures { Gives (λ x. x) result (hex_text_of digits.now) }
{
    match hex_read(alloc, digits) {
        Ok(bytes) => Ok(bytes),
        Err(HexFault::Odd) => Err(LineFault::Bad),
        Err(HexFault::Digit(_)) => Err(LineFault::Bad),
        Err(HexFault::NoMemory) => Err(LineFault::NoMemory),
    }
}

/// Two lower-case hexadecimal digits for each byte.
#[tactic(auto, unfolding(crate::specs::Words::digits_word))]
pub fn digits_word(alloc: Global, word: &[u8]) -> Result<Bytes, LineFault>
    ensures { Gives (λ bytes. bytes) result (words.digits_word word.now) }
{
    let text = text_of(word)?;
    spelled(alloc, text)
}

/// Whether what stands at the target is replaced: `overwrite`, or `keep`.
#[tactic(auto, unfolding(crate::specs::Words::overwrite_word))]
pub fn overwrite_word(word: &[u8]) -> Result<bool, LineFault>
    ensures { Gives (λ overwrite. overwrite) result (words.overwrite_word word.now) }
{
    if is_word(word, b"overwrite") {
        Ok(true)
    } else if is_word(word, b"keep") {
        Ok(false)
    } else {
        Err(LineFault::Bad)
    }
}

/// What a crash leaves: `old`, `new` or `torn`.
#[tactic(auto, unfolding(crate::specs::Words::crash_word))]
pub fn crash_word(word: &[u8]) -> Result<Crash, LineFault>
    ensures { Gives (λ left. left) result (words.crash_word word.now) }
{
    if is_word(word, b"old") {
        Ok(Crash::Old)
    } else if is_word(word, b"new") {
        Ok(Crash::New)
    } else if is_word(word, b"torn") {
        Ok(Crash::Torn)
    } else {
        Err(LineFault::Bad)
    }
}

fn begins_with_slash(text: &str) -> bool
    ensures { result ≡ words.begins_with_slash text.now }
{
    match text.as_bytes() {
        [first, ..] => *first == b'/',
        [] => false,
    }
}

/// A path that begins with `/`, of at most 1,024 bytes.
#[tactic(auto, unfolding(crate::specs::Words::path_word))]
pub fn path_word(alloc: Global, word: &[u8]) -> Result<Path, LineFault>
    ensures exact { Gives (λ path. path) result (words.path_word word.now) }
    ensures short { IfOk result (λ path. IsTrue (is_short path)) }
{
    let text = text_of(word)?;
    if !begins_with_slash(text) {
        return Err(LineFault::Bad);
    }
    match Path::read(alloc, text) {
        Ok(path) => Ok(path),
        Err(PathFault::NoMemory) => Err(LineFault::NoMemory),
        Err(_) => Err(LineFault::Bad),
    }
}

fn has_text(host: &Host, word: &[u8]) -> bool
    ensures { result ≡ bytes_eq host.now word.now }
{
    host.as_str().as_bytes() == word
}

/// The host among these that the word names.
fn found<'a>(named: &'a [Host], word: &[u8]) -> Option<&'a Host>
    ensures { option_copied result ≡ words.known named.now word.now }
{
    named.iter().find(|host| has_text(host, word))
}

/// A copy of the host among these that the word names.
pub fn known(named: &[Host], word: &[u8]) -> Result<Host, LineFault>
    ensures { Gives (λ host. host) result (words.known named.now word.now) }
{
    match found(named, word) {
        Some(host) => copy_of(host),
        None => Err(LineFault::Bad),
    }
}

fn copy_of(host: &Host) -> Result<Host, LineFault>
    ensures { Gives (λ host. host) result (Some host.now) }
{
    let copy = host.copy()?;
    Ok(copy)
}

/// A host in its canonical text that is not named before, as long as there may be more servers.
#[tactic(auto, unfolding(crate::specs::Words::new_host))]
pub fn new_host(alloc: Global, named: &[Host], word: &[u8]) -> Result<Host, LineFault>
    ensures { Gives (λ host. host) result (words.new_host named.now word.now) }
{
    let host = host_word(alloc, word)?;
    if named.len() >= MOST_SERVERS || is_named(named, &host) {
        drop(host);
        return Err(LineFault::Bad);
    }
    Ok(host)
}

fn is_named(named: &[Host], host: &Host) -> bool
    ensures { not result ≡ is_none (words.known named.now host.now) }
{
    found(named, host.as_str().as_bytes()).is_some()
}
